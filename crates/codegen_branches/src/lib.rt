//! The jumps of a choice, and where they go.
//!
//! The code of a choice is its condition with a jump for where it is false, the first arm with a
//! jump at its end, and the second arm. `codegen_spec` defines what the generator makes of it
//! (`one_arm`, `between` and `two_arms` of `specs/Made.antt`); here is what becomes of the
//! instructions. Promised: where the condition is false, control goes on behind the first arm's
//! jump, and from the first arm behind the second.
#![tactic(auto)]

mod jumps;
mod operand;

pub use jumps::{end_arm, end_first, end_second, patch};
pub use operand::fit;
