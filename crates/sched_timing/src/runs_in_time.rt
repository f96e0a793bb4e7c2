//! The law.

ghost use Rattle.sched_timing.specs.Timed.{EveryRunIsInTime};

/// No tick of the run is an overrun, and every activation ends within its declared bound.
pub fn every_run_is_in_time()
    ensures { EveryRunIsInTime }
{}
