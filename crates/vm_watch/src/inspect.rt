//! Laws of what is looked at, with nothing to run.

ghost use Rattle.vm_watch.specs.Inspect.{CompletedHasEffect, OccupantIsInside, WordsAreDeclared};

/// In the runs of a valid image each process and each monitor has as many words as it declares.
pub fn words_are_declared()
    ensures { WordsAreDeclared }
{}

/// The occupant of a monitor is inside it, and there is none exactly where the monitor is free.
pub fn occupant_is_inside()
    ensures { OccupantIsInside }
{}

/// A tick in which an instruction is completed has its effect, and any other leaves the process at
/// it.
pub fn completed_has_effect()
    ensures { CompletedHasEffect }
{}
