//! The run of a machine, put as a log.
//!
//! `run` lets a machine of `vm_runner`, by any dispatch, take its turns to the end of the script,
//! and puts the line of each event, one put a line. `specs/Coming.antt` says which log is still to
//! come. What is put is just that log, or a front of it where a put failed; then nothing more is
//! put. It takes no memory. `put_all` puts the lines of some events alone.
#![tactic(auto)]

mod put_log;
mod to_end;

pub use put_log::{OutputCut, put_all};
pub use to_end::run;
