//! Ticks that pass at once: a row of ticks in which nothing starts, and in which the process that
//! runs stays at one instruction, is one step of the machine. The laws alone stand here; nothing
//! can run.
//!
//! The laws, for every image, every script and every state.

ghost use Rattle.vm_stretch.specs.StretchDue.{NextIsAFrameLater, SlotsAreQuiet, TurnsAreTheRun};
ghost use Rattle.vm_stretch.specs.StretchLaws.{QuietStartsNothing, TurnKeepsEvents, TurnIsStuck, TurnKeepsState, TurnStaysInRun};
ghost use Rattle.vm_stretch.specs.RowLaws.{RowIsTurn, RowIsSafe, RowKeepsEvents, RowStaysInRun, SilentAnywhere};

/// A quiet tick has no start event.
pub fn quiet_starts_nothing()
    ensures { QuietStartsNothing }
{}

/// Ticks at once leave the state that they leave one by one.
pub fn turn_keeps_state()
    ensures { TurnKeepsState }
{}

/// They have the same events.
pub fn turn_keeps_events()
    ensures { TurnKeepsEvents }
{}

/// They are stuck where the last of them is.
pub fn turn_is_stuck()
    ensures { TurnIsStuck }
{}

/// In a run that is never stuck, a turn stays in the run.
pub fn turn_stays_in_run()
    ensures { TurnStaysInRun }
{}

/// What nobody sees is the same in every state.
pub fn silent_anywhere()
    ensures { SilentAnywhere }
{}

/// A row of instructions that nobody sees stays in the run.
pub fn row_stays_in_run()
    ensures { RowStaysInRun }
{}

/// No event falls in it but the start events of its first tick.
pub fn row_keeps_events()
    ensures { RowKeepsEvents }
{}

/// In a run that is never stuck, a process that is picked can take each of its ticks.
pub fn row_is_safe()
    ensures { RowIsSafe }
{}

/// Turns from the start to the end have the events of the run.
pub fn turns_are_the_run()
    ensures { TurnsAreTheRun }
{}

/// Between a tick and the least of the slots nothing starts.
pub fn slots_are_quiet()
    ensures { SlotsAreQuiet }
{}

/// The next release of a process is a frame later.
pub fn next_is_a_frame_later()
    ensures { NextIsAFrameLater }
{}

/// Where a row has led, the ticks that are left of what the process is at are a turn.
pub fn row_is_turn()
    ensures { RowIsTurn }
{}
