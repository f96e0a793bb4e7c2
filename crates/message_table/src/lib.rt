//! The message for a text that is no task table.
//!
//! The family Messages: what a call that fails tells the one who made it. Of the line with the
//! first fault the place is told and what is wrong there; the line is shown with carets below it,
//! and a remark may say how to mend it.
//!
//! `specs/Parts.antt` says what may stand in a line, word by word, `specs/Marks.antt` what each word
//! is. `specs/Form.antt`, `specs/Names.antt`, `specs/Ticks.antt` and `specs/Counts.antt` find what is
//! wrong and where, `specs/Sentences.antt` has what is told of it, and `specs/Message.antt` the whole
//! message. `table_message` gives exactly this; the only error is want of memory.
#![tactic(auto)]

mod counts;
mod fault;
mod form;
mod mark;
mod message;
mod names;
mod numerals;
mod part;
mod put;
mod remarks;
mod sentences;
mod ticks;

pub use message::{long_message, table_message};
