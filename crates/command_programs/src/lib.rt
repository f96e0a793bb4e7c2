//! Reads a program: go, check, json, slack, print, compile.
//!
//! `sources` judges program texts: compiled to an image that can be run and stored, or read
//! whatever their time. `slack_text` puts just the lines that tell how many ticks each process can
//! spare (`IsSlackText` of `command_due`).
//!
//! For each of the six commands a call promises an act that comes to what is due, and that the
//! machine can run; or a read that failed (`Prepared` of `command_answers`). Of a call that is
//! refused the message for a person is made besides (`command_refusals`).
#![tactic(auto)]

mod bounds;
mod going;
mod lines;
mod programs;
mod sources;
mod text;

pub use going::prepare_go;
pub use programs::{Format, prepare_compile, prepare_print, prepare_report, prepare_slack};
pub use sources::{compile_content, compile_text, read_content};
pub use text::slack_text;
