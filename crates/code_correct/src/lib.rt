//! Law: well-formed, checked and generated programs run right, and in time.
//!
//! `process_code_law`: the code of each process of a well-formed program does what its text says.
//! `runs_right_and_in_time`: with an image that meets the premises of safety and time, over a
//! script that respects the frames, the events of every run are a source run, and the run is in
//! time. `runs_of_checked`, `runs_of_generated`, `code_within_limits`: the same of checked programs
//! and of what is generated.
//!
//! `step_simulation` is the law of one process, step by step (`specs/Process.antt`), with the
//! lemmas on expressions, stores, statements and calls at every depth that it stands on;
//! `emitted_code_law` gives its premises of an image that is the code of a program. Nothing here
//! can run.
#![tactic(auto)]

pub mod code_within_limits;
pub mod emitted_code_law;
pub mod process_code_law;
pub mod runs_of_checked;
pub mod runs_of_generated;
pub mod runs_right_and_in_time;
pub mod step_simulation;
