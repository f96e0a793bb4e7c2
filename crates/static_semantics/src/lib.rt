//! All static rules joined; well-formed programs; the terms between rules and meaning.
//!
//! `specs/Static.antt` joins the rules: what fails at a place, and which tree is checked. `check`
//! of `rules` answers `Ok` exactly where no rule fails at any place, else the one that fails first.
//!
//! The other definitions lie between the rules, which go by places, and the meaning, which goes by
//! names: names stand apart (`specs/Places.antt`), what is declared where (`specs/Things.antt`),
//! names in reach (`specs/Mirrors.antt`), and what the rules give of a text (`specs/Judged.antt`).
//! `wellformed_law` proves them.
//!
//! Well-formed programs, which the meaning takes for granted: `specs/Here.antt` says what a name
//! stands for in a text, `specs/Typed.antt` which sort an expression has there,
//! `specs/Statements.antt` which statements fit, and `specs/WellFormed.antt` which programs are well
//! formed. All are over the plain tree, and look for names as the meaning does.
#![tactic(auto)]

mod rules;

pub use rules::{Checked, RuleFault, check};
