//! One walk over the parts of a program: its statements and those in them, and the results of its
//! functions.
//!
//! `static_declarations` says what the parts of a program are (`specs/Parts.antt`). `visit_parts`
//! goes through them in the order of the text, and does at each what a `PartVisitor` does, up to the
//! first at which that ends. What a visitor comes to is said by the room that has it.
#![tactic(auto)]

mod part;
mod walk;

pub use part::{PartVisitor, ProgramPart, stmt_place};
pub use walk::visit_parts;
