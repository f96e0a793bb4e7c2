//! The parts of a bound, which add up to it, and the text that takes each bound apart.
//!
//! `specs/Sections.antt` is the text: for each process its bound, its block with the entry and the
//! process that make it, its cost and waits, what each process of higher rank takes, and their sum;
//! then the load, and whether the program is timely. It is a function of the levels and of the
//! order of their processes alone, and `bounds_text` promises exactly that.
//!
//! `specs/Parts.antt` takes apart what a level and those above it ask for in some ticks, in the
//! terms in which it is added by hand; `specs/Load.antt` is the load of the processor. Laws
//! (`parts_law`) say that the parts add up to the demand of the recurrence, exactly and capped,
//! that at a least bound they add up to the bound, and without one to more than the deadline, and
//! that tasks in time load the processor no more than wholly.
#![tactic(auto)]

mod levels;
mod lines;
pub mod parts_law;
mod sections;
mod sums;
pub mod text_law;

pub use levels::{Blocker, Level};
pub use sections::bounds_text;
