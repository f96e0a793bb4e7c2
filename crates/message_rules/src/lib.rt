//! The sentence for a rule for numbers that a program fails.
//!
//! The family Messages (`message_text`): where a rule for bounds, loops, frames, events, exceptions
//! or counts fails, the sentence has the numbers and names of the program at the place.
//!
//! `specs/Findings.antt` tries each of these rules of `static_types` and `static_numbers` on each
//! part of the program that it is for, and has what is wrong where it fails;
//! `specs/Sentences.antt` says it. `rule_sentence` makes exactly that sentence, or tells that there
//! is none. A rule for declarations is asked by the test of `static_numbers`.
#![tactic(auto)]

mod activations;
mod bounds;
mod counts;
mod events;
mod fault;
mod handlers;
mod sentences;
mod statements;
mod told;

pub use told::rule_sentence;
