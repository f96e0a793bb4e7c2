//! From a text to its checked program, or to its one fault.
//!
//! `specs/Source.antt` says which tree a text has, and the fault of a text that has none, by
//! groups: length; bytes, literals and identifiers; grammar and nesting. `specs/Program.antt` goes
//! on with names and static rules.
//!
//! `read_tree` gives exactly that tree or fault, `read` exactly that program or fault. Laws: a text
//! has one program at most, no fault where it has one, and one fault at most.
#![tactic(auto)]

mod fault;
mod one_fault_law;
mod one_program_law;
mod program;
mod source;

pub use fault::SourceFault;
pub use one_fault_law::one_fault;
pub use one_program_law::{one_program, one_tree, program_or_fault};
pub use program::read;
pub use source::read_tree;
