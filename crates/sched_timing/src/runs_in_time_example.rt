//! Images that meet the premises of the law, so that none of them is empty.

ghost use Rattle.sched_timing.specs.TimedExample.{AnsweringIsInTime, AnsweringIsTimed, MeetingIsInTime, MeetingIsTimed};

use machine_isa::Instr;
use machine_safety::example::meeting_code;

/// A monitor with an entry that waits and one that signals, and two processes, one of them with a
/// handler: the declared costs and blocks are those that the code has, and every activation ends
/// within its bound.
pub fn meeting_in_time() -> [Instr; 16]
    ensures timed { MeetingIsTimed result }
    ensures in_time { MeetingIsInTime result }
{
    meeting_code()
}

/// A process that is released by its event, twice, a frame apart: its activations end within the
/// bound, the ticks of dispatch counted. So it is with each deadline from its bound up to its
/// frame.
pub fn answering_in_time() -> [Instr; 3]
    ensures timed { AnsweringIsTimed result }
    ensures in_time { AnsweringIsInTime result }
{
    [
        Instr::Push { value: 1 },
        Instr::Out { device: 0 },
        Instr::End,
    ]
}
