//! What is due of `edf`: demands, verdict, report.
//!
//! All is defined in `command_due`. `shape` gives the image of a program under this dispatch,
//! `judge_program` what the test of `edf_admission` says of it; `first_wait` finds the first wait
//! statement, `report` writes the report. Each call promises exactly these.
//!
//! `prepare_edf` reads the program, looks for its first wait statement, judges its demand, and
//! reads the script only where the demand is met. What then runs is an `EdfImage` of
//! `edf_admission`.
#![tactic(auto)]

mod judged;
mod judging;
mod lines;
mod preparing;
mod running;
mod shaping;
mod waits;

pub use judged::{Judged, judge_program};
pub use lines::report;
pub use preparing::prepare_edf;
pub use shaping::ShapeFault;
pub use waits::first_wait;
