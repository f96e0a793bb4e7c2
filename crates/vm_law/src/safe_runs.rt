//! What a valid image promises to a machine that passes whole stretches.
//!
//! The law.

ghost use Rattle.vm_law.specs.SafeRun.{ValidRunsAreSafe};

/// In every run of a valid image no tick is stuck, each process is within its stack, and no
/// instruction is without ticks.
pub fn valid_runs_are_safe()
    ensures { ValidRunsAreSafe }
{}
