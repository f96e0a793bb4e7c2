//! The sentence for types or numbers of arguments that do not agree.
//!
//! The family Messages (`message_text`): where the rule for types fails (E30), the sentence tells
//! which value is of another sort than the one that is wanted, and where it is wanted; or the call
//! that has more or fewer arguments than its routine has parameters; or the array that stands
//! without an index, or the name that is no array and stands with one.
//!
//! `specs/Mismatches.antt` finds the first of these in an expression, a statement and a result, by
//! the sorts of `static_types`; `specs/Sentences.antt` says it, and `specs/Told.antt` of which part
//! of a program it is said. `type_sentence` makes exactly that sentence, or tells that there is
//! none. Two laws (`laws`): a mismatch is found exactly where the rule fails, and there is a
//! sentence exactly for the places at which it does.
#![tactic(auto)]

mod expr;
mod laws;
mod mismatch;
mod name;
mod search;
mod sentences;
mod sorts;
mod stmt;
mod told;

pub use laws::{mismatches_are_failures, sentences_are_failures};
pub use told::type_sentence;
