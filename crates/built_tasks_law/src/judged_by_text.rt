//! Laws: a program is timely, late and bounded by its text.
//!
//! `specs/Judged.antt` has them: what the image says of time is what the text says, since their tasks
//! are the same, and the tasks of a program are one. Nothing here can run.
//!
//! The laws.

ghost use Rattle.built_tasks_law.specs.Judged.{BoundsAreOfTheText, BuiltIsInTime, LateIsNotInTime, ShapesAreJudgedAlike, TimelyIsInTime};

use crate::tasks_of_text::{ranks_are_of_the_text, tasks_are_of_the_text};
use sched_program::one_judgement::{never_in_time_and_not, tasks_are_one};

/// A timely program is in time.
pub fn timely_is_in_time()
    ensures { TimelyIsInTime }
{
    tasks_are_of_the_text();
    ranks_are_of_the_text();
}

/// A late one is not.
pub fn late_is_not_in_time()
    ensures { LateIsNotInTime }
{
    tasks_are_of_the_text();
    ranks_are_of_the_text();
}

/// A program of which there is an image is timely exactly where it is in time, and late exactly
/// where it is not.
pub fn shapes_are_judged_alike()
    ensures { ShapesAreJudgedAlike }
{
    tasks_are_of_the_text();
    ranks_are_of_the_text();
    tasks_are_one();
    timely_is_in_time();
    late_is_not_in_time();
}

/// The bound that the image of a program declares of a process is that of the text.
pub fn bounds_are_of_the_text()
    ensures { BoundsAreOfTheText }
{
    tasks_are_of_the_text();
    ranks_are_of_the_text();
}

/// A program that has an image with bounds is in time, and never not.
pub fn built_is_in_time()
    ensures { BuiltIsInTime }
{
    timely_is_in_time();
    never_in_time_and_not();
}
