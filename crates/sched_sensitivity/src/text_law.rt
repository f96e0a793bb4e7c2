//! Rows whose text is known, with nothing to run.

ghost use Rattle.sched_sensitivity.specs.Example.{OverIsShown, WaitIsShown};

/// A process that waits and one that signals; one whose cost is past counting, and one of which
/// nothing fits.
pub fn known_texts()
    ensures wait { WaitIsShown }
    ensures over { OverIsShown }
{}
