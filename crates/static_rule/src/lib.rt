//! Rules that fail at places, and the failure that comes first.
//!
//! The family Static semantics: what a tree has to keep to. Names first (`static_names`), then what
//! names are declared as (`static_declarations`), the rules in three groups (`static_types`,
//! `static_numbers`, `static_calls`), all joined (`static_semantics`), and from a text to its
//! checked program (`front_end`). `static_semantics` says what the meaning takes for granted; that
//! a checked program has it is `wellformed_law`.
//!
//! `specs/First.antt` orders failures by their place and then by the number of the rule.
//! `specs/Parts.antt` says where rules fail that are tests of single parts of a program. Going
//! through the parts once finds the first failure (`noted`, `sooner`; `proofs/Soonest.antt`).
#![tactic(auto)]

pub mod rule;
mod violation;

pub use violation::{Violation, blame, sooner};
