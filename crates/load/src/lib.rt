//! The generated load: its program, its script, the summary of its run.
//!
//! The family Generated load: what `make` writes. `load` has the texts, `load_text_law` proves that
//! they are texts of the load's tree and script, `load_law` that the program keeps to all rules and
//! is never late.
//!
//! `specs/Draws.antt` says which numbers a key gives, `specs/Program.antt` which program is made of
//! them, `specs/Script.antt` which script, and `specs/Summary.antt` what the summary line tells.
//! The calls promise exactly these texts.
#![tactic(auto)]

mod draws;
mod load_script;
mod program;
mod summary;
mod words;

pub use load_script::make_script;
pub use program::make_program;
pub use summary::{mark_after, summary_line};
