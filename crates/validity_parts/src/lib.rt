//! Finds the part of an image that a fault of validity speaks of.
//!
//! `part_fault` promises the first test that an image fails, with its part and its subject, as
//! `faulty_part` defines it, and none exactly where the image is valid. Where `loader` finds a fault
//! it goes through the tests once more, one routine, process or monitor after the other: nobody
//! waits for that but a person who is told what is wrong.
#![tactic(auto)]

mod bounds;
mod code;
mod costs;
mod naming;
mod operands;
mod ranks;
mod sizes;
mod whole;

pub use whole::part_fault;
