//! Reading a task table.
//!
//! `read_table` reads a text line by line. Its contract is by `table_format`: a table comes exactly
//! where the text is its one spelling, else the fault that the text has, or want of memory.
//!
//! `specs/Words.antt` and `specs/Reading.antt` say how a process line is read, word by
//! word, `specs/Answer.antt` what the reader answers.
#![tactic(auto)]

mod fault;
mod form;
mod judge;
mod line;
mod next;
mod read;
mod refusal;
mod task;
mod words;

pub use fault::TableFault;
pub use read::{LONGEST_TABLE, read_table};
pub use refusal::LONG_TABLE;
