//! The call `table`.
//!
//! `prepare_table` reads a task table and prepares the storing of its program, or the line of the
//! fault of a text that is none, and the message for a person. What is due is said by
//! `command_due`, `TableDue`, and what is told by `command_refusals`.
#![tactic(auto)]

mod prepare;

pub use prepare::prepare_table;
