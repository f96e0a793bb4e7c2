//! The parser, and the place of a syntax fault.
//!
//! `parse` gives exactly the tree that `tree` of `syntax` relates to the tokens, or a fault where
//! there is none: of nesting at the token that opens level 65, else at the token with which the
//! tokens read no longer begin a program, or at the text's end (`specs/Faults.antt`). `opening` has
//! the law that tokens have one such place at most.
#![tactic(auto)]

mod decl;
mod expr;
mod fault;
mod opening;
mod parser;
mod process;
mod program;
mod routine;
mod stmt;
mod types;

pub use fault::SyntaxFault;
pub use opening::{one_opening, one_place};
pub use program::parse;
