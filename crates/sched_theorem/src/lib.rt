//! The response-time theorem, over abstract runs.
//!
//! A run is numbers by tick and process: what is left of each activation, who is released, who is
//! picked, and who is inside a monitor. The argument is that of response-time analysis with
//! immediate priority ceilings (Joseph and Pandya; Sha, Rajkumar and Lehoczky; Burns and Wellings):
//! each tick of a busy stretch is charged to execution, suspension or blocking, and the charges are
//! no more than the recurrence of `sched_response` allows.
//!
//! Where each tick of a run meets the premises of `specs/Placed.antt`, and each level has a bound
//! that solves the recurrence, no stretch of a level is longer than its bound, no release finds its
//! process unfinished, and each activation ends within its bound. `example` is a run that meets
//! them all.
//!
//! Ranks, levels, places and ticks count from 0 here, and rank 0 is the highest.
#![tactic(auto)]

pub mod example;
pub mod in_time;
