//! Rules for statements: types, and what may stand where.
//!
//! `specs/Rules.antt` lists the rules by number, each a test of one statement or result: types and
//! arguments (`specs/Sorts.antt`, `specs/Types.antt`), what may stand where and the direction of
//! devices (`specs/Conduct.antt`), numbers in statements (`specs/Numbers.antt`).
//!
//! `first_broken` goes through the statements once and gives the failure that comes first, by place
//! and then by number, and none exactly where no rule fails.
#![tactic(auto)]

mod conduct;
mod program;
mod rules;
mod types;

pub use program::first_broken;
