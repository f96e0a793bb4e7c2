//! Which part of an image a fault of validity speaks of.
//!
//! The fault of an image that is not valid is two numbers of one test (`valid_image`). Each of
//! these tests is of a routine, a process or a monitor, or of the whole, and of one thing that it
//! declares. `specs/Parts.antt` has them in their order, each with its part and its subject: the
//! `PartFault` of an image is the first of them that fails.
//!
//! The call of `parts_law` states that it is the very fault that `valid_image` defines.
#![tactic(auto)]

mod part;
pub mod parts_law;

pub use part::{FaultyPart, PartFault, Subject};
