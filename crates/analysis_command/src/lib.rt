//! `why` and `fit`: the bounds of a program taken apart, and what fits.
//!
//! `sched_program` says which text takes the bounds of a program apart (`IsWhyText`), and which
//! tells what fits (`IsFitText`), both by its text alone. `prepare_why` and `prepare_fit` read a
//! text, judge it, and make the act that puts these: the levels of the program by its image, the
//! entry and the process that make each block (`code_names` finds the first goal that calls come
//! to), and what fits by `sched_sensitivity`. Of a text that is refused, and of a program that `why`
//! finds late, a person is told the message that `command_refusals` says.
#![tactic(auto)]

mod acts;
mod commands;
mod fit;
pub mod found_law;
mod goals;
mod graph;
mod image_of_program;
mod late;
mod levels;
mod naming;
mod order;
mod search;
mod texts;
mod why;

pub use commands::{prepare_fit, prepare_why};
pub use fit::fit_text;
pub use graph::{CallGraph, call_graph};
pub use search::blocker;
pub use why::{WhyText, why_text};
