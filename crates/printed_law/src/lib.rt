//! Laws: the canonical text of a program is that of the same program, and keeps to all rules.
//!
//! `specs/Printed.antt` says so of a canonical text that is no longer than a text may be: its tree
//! is the first, apart from places, it keeps to all rules, and it is not too large. No rule is
//! taken for granted of the canonical text: that they all hold of it is `checked_alike`.
//!
//! Rules ask of places only which of them are one. `specs/Moved.antt` puts other places into a
//! tree, and `specs/Alike.antt` says when two placings are alike: they set the same positions
//! apart. Where a rule fails of a tree with one of them, the same rule fails at the same position
//! with the other (`rules_fail_alike`); so of two trees that are the same apart from places one
//! keeps to all rules where the other does (`checked_alike`). Nothing here can run.
#![tactic(auto)]

mod checked_alike;
pub mod printed_programs;
pub mod rules_fail_alike;

pub use checked_alike::trees_are_checked_alike;
