//! An image that meets the premises of the law, so that none of them is empty.

ghost use Rattle.sched_timing.specs.TimedUsesExample.{MeetingIsDefined};

use machine_isa::Instr;
use machine_safety::example::meeting_code;

/// Its ranks and ceilings are the defined ones, and its declared blocks are no less.
pub fn meeting_is_defined() -> [Instr; 16]
    ensures { MeetingIsDefined result }
{
    meeting_code()
}
