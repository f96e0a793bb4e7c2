//! The message for a text that is no script.
//!
//! The family Messages: what a call that fails tells the one who made it. A text that is no script
//! has a fault, with the number of the rule that it breaks and a line. `specs/Message.antt` says
//! what is told of it: the file, the line and the column, the number, what is wrong, the line with
//! carets, for some faults an earlier line, and a remark. What is wrong with a line by itself is a
//! table (`specs/Forms.antt`, of its numbers `specs/Numbers.antt`), of which the first row that
//! applies is told; then come names that are not known (`specs/Unknown.antt`), and ticks that are
//! too low or too soon after those of an earlier line (`specs/Earlier.antt`). Where no row applies,
//! the fault is told by a sentence of the whole line.
//!
//! `script_message` makes exactly this message, `long_message` that of a text with too many bytes;
//! the only error is want of memory.
#![tactic(auto)]

mod earlier;
mod forms;
mod messages;
mod numbers;
mod telling;
mod unknown;
mod words;

pub use messages::{long_message, script_message};
