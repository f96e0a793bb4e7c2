//! Laws over all of it: two calls with files in between fit together; spare ticks; charts.
//!
//! What is due of a call on what an earlier one has put and stored: `texts_and_images` for `dis`,
//! `asm` and `migrate`; `accepted_programs` for `run`, `migrate` and `replay` behind `go` and
//! `compile`, and `stored_then_read` for the files after such calls; `printed_programs` for
//! `check`, `json`, `go` and `print` behind `print`; `generated_loads` for `go` behind `make`.
//! Memory and faults of devices are left aside.
//!
//! `spare_ticks`: in each abstract run of the response-time theorem in which an activation of a
//! process may take as many ticks more than its cost as `slack` tells of it, each activation of
//! each process ends within the bound that the line tells (`slack_holds`).
//!
//! `charts_show_runs`: at most one process runs in a tick, none exactly where nobody is picked, and
//! a column of a chart shows what ran in its ticks, inside a monitor or outside
//! (`specs/Charts.antt`). Nothing here can run.
#![tactic(auto)]

pub mod accepted_programs;
mod charts_show_runs;
pub mod generated_loads;
pub mod printed_programs;
mod spare_ticks;
pub mod stored_then_read;
pub mod texts_and_images;

pub use charts_show_runs::{
    none_runs_in_idle_tick, one_runs, shows_what_ran, shows_what_ran_inside,
};
pub use spare_ticks::{slack_holds, spare_ticks_hold};
