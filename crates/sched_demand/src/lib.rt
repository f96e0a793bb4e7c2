//! The demand test of earliest deadline first, and its theorem.
//!
//! `specs/Demand.antt` defines the demand of tasks in a length of time, and what the test answers:
//! feasible, late or too many points (Baruah, Rosier and Howell). The calls answer exactly that.
//!
//! `earliest` has the theorem over abstract runs (`specs/Earliest.antt`): where the test says
//! feasible, every activation ends by its deadline.
#![tactic(auto)]

pub mod demand;
pub mod earliest;
mod judging;
mod looking;
mod reaching;
mod tasks;

pub use judging::{Judgement, judge};
pub use tasks::{DemandSet, DemandTask};
