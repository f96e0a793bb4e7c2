//! Scripts: at which ticks devices are set and events occur.
//!
//! The family Scripts and logs: what a run is given, and what it tells. `script` reads what is
//! given; `event_log` writes what is told, and reads it for `replay`.
//!
//! `specs/Saying.antt` says how a line is spelled, `specs/Scripts.antt` which text is a script for
//! the names of an image: its lines have a form and known names, their ticks do not descend, and
//! two occurrences of an event stand at least the frame of its process apart. `specs/Faults.antt`
//! is the fault of any other text: the first line that breaks a rule, and the least number of those
//! that it breaks.
//!
//! `read_script` gives the script, or that fault. A text is one script at most, and is none where
//! it has a fault (`one_answer_law`).
//!
//! `specs/Meaning.antt` gives for the lines of a script that is read, with the tick before which
//! its run ends, the script over which the meaning of programs is defined.
#![tactic(auto)]

mod fault;
mod line;
mod numbers;
mod one_answer_law;
mod one_script_law;
mod past;
mod quick;
mod read;
mod reader;
pub mod refusal;
mod script;

pub use fault::ScriptFault;
pub use one_answer_law::one_answer;
pub use one_script_law::one_script;
pub use read::read_script;
pub use script::{Script, ScriptLine};
