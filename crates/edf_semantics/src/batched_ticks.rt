//! Ticks at once under earliest deadline first with ceilings.
//!
//! While nothing starts, the process that is chosen stays so up to the last of the ticks that are
//! left of what it is at: its activation has begun at the first of them, and nobody enters or
//! leaves a monitor before the last. So those ticks at once, `pass` of `vm_stretch::batched_ticks`, are the ticks
//! of the run one by one. `specs/Turn.antt` states it of turns, `specs/Rows.antt` of whole
//! instructions that nobody sees. Nothing here can run.
//!
//! The laws, for every image and every script.

ghost use Rattle.edf_semantics.specs.Rows.{RowIsSafe, RowIsTaken, RowStaysInRun};
ghost use Rattle.edf_semantics.specs.Turn.{TurnStaysInRun};

/// In a run of which no tick is stuck, the ticks of a turn at once leave the state and the marks
/// that they leave one by one, and have their events.
pub fn turn_stays_in_run()
    ensures { TurnStaysInRun }
{}

/// Ticks in which a process runs over whole instructions that nobody sees leave all else as it was,
/// and have no event but the start events of the first.
pub fn row_stays_in_run()
    ensures { RowStaysInRun }
{}

/// A process that is chosen can take each tick of such a row.
pub fn row_is_safe()
    ensures { RowIsSafe }
{}

/// After such a row, ticks at once of the instruction that comes next are the ticks of the run.
pub fn row_is_taken()
    ensures { RowIsTaken }
{}
