//! Laws of what is built of a checked program: one shape, one image, timely or late.
//!
//! `shape_before_times`: what does not depend on ranks and bounds, and that a program is timely
//! exactly where each least bound is there. `one_image`: one image, one table. `suitable_scripts`,
//! `number_limits`, `named_rows`, `names_fit`: its scripts, the ranges of its numbers, a row for
//! each name, short names.
//!
//! A checked program has all that the laws of code ask. `names_apart`, `wait_free`,
//! `wait_free_handlers`: its names stand apart, and its handlers reach no wait. `premises_of_laws`:
//! so it is ready (`specs/Ready.antt`). `code_of_program`, `runs_of_generated`,
//! `generated_within_limits`: where it keeps the rules of size, what the generator makes of it is
//! its code. Nothing here can run.
#![tactic(auto)]

pub mod code_of_program;
pub mod generated_within_limits;
pub mod named_rows;
mod names_apart;
pub mod names_fit;
pub mod number_limits;
pub mod one_image;
pub mod premises_of_laws;
pub mod runs_of_generated;
pub mod shape_before_times;
pub mod suitable_scripts;
pub mod wait_free;
mod wait_free_handlers;

pub use names_apart::names_are_apart;
pub use wait_free_handlers::handlers_are_quiet;
