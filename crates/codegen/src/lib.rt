//! The code generator: instructions and segment trees.
//!
//! `CodeBuilder` makes the code of expressions and statements, `generate` that of a program, all routines
//! and entries by number and then all processes, in one pass; `texts` does so from the program
//! alone, with its measures. Promised: where there is memory, each makes just what `codegen_spec`
//! says of its form.
#![tactic(auto)]

mod code_builder;
mod codegen_program;
mod errors;
mod expr;
mod nest;
mod part;
mod stmt;
mod store;
mod texts;

pub use code_builder::CodeBuilder;
pub use codegen_program::generate;
pub use expr::range_of;
pub use texts::ProgramTexts;
