//! Law: runs of the machine are runs of the theorem, so in time.
//!
//! `runs_in_time`: in every run of an image that meets the premise (`ImageIsTimed` of `specs/Timed.antt`),
//! over a script that respects the frames, no release finds its process unfinished, and every
//! activation ends within its declared bound, that within its deadline, and that within its frame.
//! `specs/Views.antt` is what the argument of `sched_theorem` sees of a run.
//!
//! `uses_in_time`: ranks, ceilings and blocks as `sched_response` defines them meet that premise
//! (`specs/Defined.antt`). The examples are images that meet the premises. Nothing here can run.
#![tactic(auto)]

pub mod runs_in_time;
pub mod runs_in_time_example;
pub mod uses_in_time;
pub mod uses_in_time_example;
