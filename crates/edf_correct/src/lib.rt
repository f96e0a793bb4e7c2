//! Laws: a feasible program can be run under deadlines, meets them, and runs right.
//!
//! `text_to_runs`: from the text of a program without waits to its runs under this dispatch, which
//! are runs of the program in which any ready process may act, and meet its deadlines.
//! `feasible_texts`: so every run of a text whose demand is met keeps what `command_answers`
//! promises.
//!
//! Of programs without waits (`edf_waits`) whose demand the test calls feasible: the image is one
//! that `edf_admission` admits, and can be run (`edf_admitted`); what the test says of a program, it
//! says of its image (`answers_law`). Nothing here can run.
#![tactic(auto)]

pub mod answers_law;
pub mod edf_admitted;
pub mod edf_waits;
pub mod feasible_texts;
pub mod text_to_runs;
