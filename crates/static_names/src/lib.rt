//! Scopes: each name that is used has its declaration (E20 to E23).
//!
//! `specs/Reach.antt` says what a name means at a place, `specs/Occurrences.antt` lists the names
//! of a program with what each does there, and `specs/Rules.antt` says where each rule fails.
//! `name` answers `Ok` exactly where none fails at any place, else the one that fails first;
//! `ResolvedProgram::found` tells for each use where its name is declared.
//!
//! A name of the program reaches everywhere, a constant only behind its declaration; a name of a
//! monitor in that monitor, its entries outside only behind the monitor's name and a full stop; a
//! name of a process in that process, its header included; a parameter or variable in its routine;
//! a loop variable in the body of its loop.
#![tactic(auto)]

mod declare;
mod errors;
mod expr;
mod findings;
mod kind;
mod named;
mod near_places;
mod part;
mod program;
mod scope;
mod scope_chain;
mod stmt;

pub use named::{NameFault, ResolvedProgram, name};
pub use near_places::{NearHasher, PlaceMap};
