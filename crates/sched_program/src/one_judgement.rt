//! Laws: each program has one list of tasks, and is in time or not.
//!
//! `specs/Once.antt` has them, of every program, whether it keeps to the rules or not. Nothing here
//! can run.
//!
//! The laws.

ghost use Rattle.sched_program.specs.Once.{InTimeOrNot, NeverInTimeAndNot, TasksAreOne, TasksAreThere};

/// Each program has tasks with an overhead.
pub fn tasks_are_there()
    ensures { TasksAreThere }
{}

/// The tasks of a program with an overhead are one.
pub fn tasks_are_one()
    ensures { TasksAreOne }
{}

/// Each program is in time or not in time.
pub fn in_time_or_not()
    ensures { InTimeOrNot }
{
    tasks_are_there();
}

/// No program is in time and not in time.
pub fn never_in_time_and_not()
    ensures { NeverInTimeAndNot }
{
    tasks_are_one();
}
