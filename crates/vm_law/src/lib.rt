//! Laws of runs of valid images: safe, runnable, each event with a line.
//!
//! `safe_runs`: what the safety law says of a valid image's run. `runnable_images`: it is such as the
//! machine takes, over a script that respects its frames. `numbers_in_range` and `events_have_lines`: its operands name
//! what is there, and each event has a line. `suitable_scripts`: scripts that were read suit the image.
//! Nothing here can run.
#![tactic(auto)]

pub mod events_have_lines;
pub mod numbers_in_range;
pub mod runnable_images;
pub mod safe_runs;
pub mod suitable_scripts;
