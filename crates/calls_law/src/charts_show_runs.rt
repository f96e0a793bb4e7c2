//! Laws of charts, with nothing to run.
//!
//! In a tick at most one process runs, and none exactly where nobody is picked; a column shows that
//! a process runs exactly where it runs in one of its ticks, and inside a monitor exactly where it
//! runs inside one there. `specs/Charts.antt` says so.

ghost use Rattle.calls_law.specs.Charts.{
  NoneRunsInIdleTick,
  OneRuns,
  ShowsWhatRan,
  ShowsWhatRanInside,
};

/// In a tick at most one process runs.
pub fn one_runs()
    ensures { OneRuns }
{}

/// None runs exactly where nobody is picked.
pub fn none_runs_in_idle_tick()
    ensures { NoneRunsInIdleTick }
{}

/// A column shows that a process runs exactly where it does in a tick of the column.
pub fn shows_what_ran()
    ensures { ShowsWhatRan }
{}

/// And that it runs inside a monitor exactly where it does there.
pub fn shows_what_ran_inside()
    ensures { ShowsWhatRanInside }
{}
