//! The reader of each kind of line of an image's text.
//!
//! `specs/` says of each kind of line what reading gives: the part of an image that it tells, or
//! the fault of the line, 1 where it is in no form and 2 where a number or a name of it is out of
//! its range. `taken` are the names of the parts before, `used` the events that earlier processes
//! have. Each reader answers exactly that.
#![tactic(auto)]

mod form;
mod instr;
mod names;
mod process;
mod routine;
mod trees;

pub use instr::instr_line;
pub use names::{condition_line, device_line, event_line, head_line, monitor_line};
pub use process::{process_at, process_line};
pub use routine::{routine_at, routine_line};
