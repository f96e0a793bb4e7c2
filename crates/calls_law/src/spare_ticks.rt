//! Laws of the ticks that a process can spare. These functions do nothing; their contracts are the
//! laws.

ghost use Rattle.calls_law.specs.Spared.{SlackHolds, SpareTicksHold};

use built_valid_law::runnable_image::built_images_are_ready;
use sched_theorem::in_time::dispatched_runs_are_in_time;

/// In each run of the tasks of a valid image in which an activation of one process may take the
/// ticks more that its line tells, each activation ends within the bound that the line tells of it.
pub fn spare_ticks_hold()
    ensures { SpareTicksHold }
{
    dispatched_runs_are_in_time();
}

/// So it is of the lines that `slack` puts of a timely program.
pub fn slack_holds()
    ensures { SlackHolds }
{
    built_images_are_ready();
    spare_ticks_hold();
}
