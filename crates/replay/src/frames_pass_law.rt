//! Law: what `replay` asks of frames holds of each program that keeps to the static rules.
//!
//! Promised: in a well-formed program no periodic process has a frame of no ticks.
//!
//! A law of well-formed programs.

ghost use Rattle.syntax_tree.specs.Plain.{Program};
ghost use Rattle.replay_due_events.specs.NextDue.{FramesPass};
ghost use Rattle.static_semantics.specs.WellFormed.{IsWellFormed};

/// In a well-formed program no frame is 0.
pub fn frames_pass()
    ensures { (g : Program) → IsWellFormed g → FramesPass g }
{}
