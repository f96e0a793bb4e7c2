//! The canonical text, and the law that it reads back.
//!
//! `canonical` of `specs/Canonical.antt` says which lines a tree has, each a list of words: one
//! space between two words, LF after each line, no indentation, literals without leading zeros.
//!
//! `print` gives exactly that text, and what is read of it is the same tree, places aside, where
//! the text has at most 1,048,576 bytes (`reads_back`).
#![tactic(auto)]

mod decl;
mod expr;
mod page;
mod program;
mod read_back_law;
mod stmt;

pub use program::print;
pub use read_back_law::{reads_back, tokens_are_spelled};
