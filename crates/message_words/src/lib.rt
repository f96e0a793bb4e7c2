//! The messages for words that are no call, and for calls that the outside ended.
//!
//! `specs/Usage.antt` has the table of the commands, with what each takes and does, and says what
//! is told of words that are in none of its rows: what is wrong with them, then the row of their
//! command, or all rows, and what the signs in these rows stand for.
//!
//! `usage` makes exactly this message; the only error is want of memory.
//!
//! `specs/Failure.antt` has the messages for files that cannot be read or written, for an output
//! that takes no more, and for memory that has run out; `failures` makes exactly these.
#![tactic(auto)]

mod failures;
mod rows;
mod tables;
mod usages;

pub use failures::{cannot_put, cannot_read, cannot_write, out_of_memory};
pub use usages::usage;
