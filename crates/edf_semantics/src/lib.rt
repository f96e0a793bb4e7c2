//! The machine under deadlines with ceilings; its safety; where it meets its deadlines.
//!
//! The family Earliest deadline first: the other dispatch, for programs without waits.
//! `edf_semantics` says what its runs are and that deadlines are met, `edf_machine` runs it,
//! `edf_admission` takes images from any hand, `edf_command` and `edf_correct` are of programs. The
//! test of the demand is in `sched_demand`.
//!
//! `specs/Choice.antt` defines the choice, `specs/Run.antt` the machine with it: start events,
//! instructions and effects are those of `machine_semantics`. The laws of `specs/Safe.antt`: in a
//! run of an image that fits its trees and waits nowhere, no tick is stuck, each process is within
//! its stack and keeps its words, and those inside monitors are apart and ready. `batched_ticks`
//! has ticks that pass at once.
//!
//! `deadlines_met`: where the demand is met, every activation ends by its deadline, by the argument
//! of `sched_demand`, where the tasks tested are those of the image (`specs/InTime.antt`);
//! `specs/ExampleInTime.antt` has two processes that meet it, although fixed ranks refuse them.
//! `runs_refine`: the run of a compiled image is a source run in which any ready process may act.
//! Nothing here can run.
#![tactic(auto)]

pub mod batched_ticks;
pub mod deadlines_met;
pub mod example;
pub mod example_in_time;
pub mod runs_refine;
pub mod safety_law;
