//! The tasks of a program, with one overhead and another, and the sums of their parts.
//!
//! The laws. These functions do nothing; their contracts are the laws.

ghost use Rattle.sched_program.specs.WhyLaw.{OverheadsAreAdded, OverheadsThatFitAreOfTheText, SumsAreTheBounds, SumsWithoutABoundAreLate, TasksInTimeAreProgramsInTime};

/// The tasks of a program without an overhead, with one, are its tasks with this one; where they
/// are in time, the program is.
pub fn overheads_are_added()
    ensures tasks { OverheadsAreAdded }
    ensures in_time { TasksInTimeAreProgramsInTime }
{}

/// Where a program has one list of tasks, the overhead that fits its tasks is the one that fits the
/// program, by its text.
pub fn overheads_that_fit_are_of_the_text()
    ensures { OverheadsThatFitAreOfTheText }
{}

/// The sum that is shown of a process is its bound, where it has one and runs at all, and past the
/// deadline where it has none.
pub fn sums_are_the_bounds()
    ensures bound { SumsAreTheBounds }
    ensures late { SumsWithoutABoundAreLate }
{}
