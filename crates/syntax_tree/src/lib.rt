//! The syntax tree: placed and plain; names and places.
//!
//! The family Syntax: from the bytes of a text to its tree, and back. `syntax` says which tokens a
//! text has and which tree tokens have, `syntax_parser` finds it, `syntax_reading` proves that
//! there is one at most, `syntax_printer` writes the tree again.
//!
//! A tree has one variant for each form of the grammar, and each part that a fault can name has its
//! place. `specs/Placed.antt` sees it with places and closing names, `specs/Plain.antt` without
//! both: over the plain tree meaning, costs and code are defined. `bare` drops the places alone, so
//! two trees are equal apart from places exactly where their bare trees are.
//!
//! Contracts see a `List` as the list of its elements, a `Name` and a `Text` as the list of their
//! bytes. Trees are made and read by their public fields.
#![tactic(auto)]

mod decl;
mod expr;
mod list;
mod name;
mod place;
mod stmt;
mod text;

pub use decl::{
    Declaration, Handler, Member, Monitor, Param, Process, Program, Routine, RoutineKind, Scalar,
    Trigger, Type, Var,
};
pub use expr::{Constant, Expr, Op, Value};
pub use list::List;
pub use name::Name;
pub use place::Place;
pub use stmt::{Ref, Stmt};
pub use text::Text;
