//! Levels whose text is known, with nothing to run.

ghost use Rattle.sched_sections.specs.Example.{BlockIsShown, LateIsShown, OverIsShown, WaitIsShown};

/// A process that waits and one that signals; three of which one is held up in a monitor; two of
/// which one is late; and one whose cost is past counting.
pub fn known_texts()
    ensures wait { WaitIsShown }
    ensures block { BlockIsShown }
    ensures late { LateIsShown }
    ensures over { OverIsShown }
{}
