//! What a process does that nobody sees: frames, steps, silent runs.
//!
//! `frames` keeps the frames of a process: operands in one row, locals in another, a mark for each
//! call in progress (`specs/Frames.antt`). `step` does an instruction on operands, words, jumps,
//! loops and calls (`specs/Steps.antt`). `burst` runs a process over many of them at once
//! (`specs/Rows.antt`): `row` those within one frame, with the frame's operands and locals as slices
//! that `innermost` takes out, by `within`, which does an instruction that stays in its frame
//! (`specs/Within.antt`). Each is equal to the effect that the meaning gives.
#![tactic(auto)]

mod activation;
mod burst;
pub mod calls;
mod cursor;
mod frames;
mod innermost;
mod jumps;
mod operand;
mod operands;
mod row;
mod stack;
pub mod step;
mod step_result;
mod within;
mod words;

pub use activation::{Activation, Ends};
pub use burst::{Halt, run};
pub use frames::Frames;
pub use operand::Operand;
pub use step_result::StepResult;
