//! The dispatch under earliest deadline first, for the machine of `vm_runner`.
//!
//! `Deadlines` keeps of each process when its activation is due, and whether it has had a tick
//! (`specs/Marks.antt`), and chooses the process that the meaning chooses, by one look at each. It
//! says what the run is (`specs/ByDeadlines.antt`), and asks that no tick of it is stuck and no
//! release finds its process unfinished (`specs/Runnable.antt`). Nothing but `Deadlines::new`
//! and `machine_by_deadlines` takes memory.
#![tactic(auto)]

mod choice;
mod deadlines;
mod marks;
pub mod run_law;
pub mod runnable_law;

pub use deadlines::{Deadlines, machine_by_deadlines};
