//! The laws.

ghost use Rattle.edf_semantics.specs.Safe.{EveryRunIsSafe, RunKeepsWords};

/// In a whole run under earliest deadline first, of an image that fits its trees and waits nowhere,
/// no tick is stuck, each process is within its stack, and those inside monitors are apart and
/// ready.
pub fn every_run_is_safe()
    ensures { EveryRunIsSafe }
{}

/// In such a run each process keeps as many words as it declares.
pub fn run_keeps_words()
    ensures { RunKeepsWords }
{}
