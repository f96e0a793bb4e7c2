//! The texts of a program, each with the names that it sees.
//!
//! `ProgramNames` holds what all texts share; `Names` adds what is a text's own, and answers what
//! the generator asks (`Lookup` of `codegen_spec`): each name means just what the relation of code
//! and text says where the text stands. Both are built in time in proportion to the text.
//!
//! `specs/Texts.antt` says which texts a program has. `Texts` meets `Lookups` of `codegen_spec` for
//! its program, and `TextsBuilder` makes it of the texts, given one by one.
#![tactic(auto)]

mod builder;
mod callees;
mod conditions;
mod names;
mod outer;
mod program;
mod site;
mod text;
mod texts;

pub use builder::TextsBuilder;
pub use names::Names;
pub use program::ProgramNames;
pub use texts::Texts;
