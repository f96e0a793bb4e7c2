//! Types: whether the sorts of the values in a statement agree, and the numbers of arguments.
mod expr;
mod sorts;
mod stmt;

pub use stmt::{answer_agrees, stmt_agrees};
