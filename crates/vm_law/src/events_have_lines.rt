//! Law: each event of a run of a valid image has a line in the log.
//!
//! A line tells the process, monitor, condition or device of an event by its name, so the event's
//! numbers have to be those of names that are there. `specs/Logged.antt` says when names are those
//! of an image's parts, and that under such names every event of every run has a line. Nothing
//! here can run.
//!
//! The law, for every image and every script.

ghost use Rattle.vm_law.specs.Logged.{ValidRunsHaveLines};

/// Each event of a run of a valid image, under names that are those of its parts, has a line.
pub fn valid_runs_have_lines()
    ensures { ValidRunsHaveLines }
{
    crate::numbers_in_range::valid_operands_are_there();
}
