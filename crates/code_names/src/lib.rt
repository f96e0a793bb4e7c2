//! Tables of names; the numbers of routines, callees first; what code comes to by its calls.
//!
//! `NameList` finds the first of a name in constant expected time (`specs/First.antt`). `Numbering`
//! gives routines and entries their numbers, in the order of `numbered` of `code_spec`; `Directory`
//! tells which routine a call names. `specs/Texts.antt` says what contracts see of the texts of a
//! program.
//!
//! The first goal that code comes to: some routines are goals, each with a place. `specs/Goals.antt`
//! says which place each routine comes to first, from those that it calls, which have lower numbers;
//! and which of some pieces of code comes to the first place of all. `first_places` promises these
//! places, `first_reached` the piece: of those that come to that place, the one that stands first.
#![tactic(auto)]

mod calls;
mod directory;
mod name_list;
mod nearest;
mod numbering;
mod order;
mod parts;
mod places;
mod text;
mod text_list;

pub use calls::Called;
pub use directory::Directory;
pub use name_list::NameList;
pub use nearest::{Reached, first_reached};
pub use numbering::Numbering;
pub use places::{calls_of, earliest, first_places};
pub use text::{Body, RoutineOwner};
pub use text_list::TextList;
