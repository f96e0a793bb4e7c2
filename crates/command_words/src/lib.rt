//! What words ask for: a command, or a load.
//!
//! The family Commands: from words to a status. `command_words` reads the words; `command_due` says
//! what is due of each command, `command_answers` what a call did; `command_programs`,
//! `command_images`, `replay` and `edf_command` prepare it, `command_perform` does it, `command` is
//! the top call and `rte` `main`.
//!
//! `specs/Words.antt` is one table of the commands with the words that each takes, `row_of`, and
//! the row of `make`, `IsMake`. What the words ask for is their row, and words are refused exactly
//! where they are in no row.
#![tactic(auto)]

mod making;
mod reading;
mod request;
mod rows;
mod stop;
pub mod words;
mod words_command;
mod words_load;

pub use reading::read_words;
pub use request::Request;
pub use stop::Breakpoint;
pub use words_command::Command;
pub use words_load::Load;
