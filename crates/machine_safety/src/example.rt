//! The code of small images, which meets the premise of the laws, so that they are never stuck.

ghost use Rattle.machine_safety.specs.Example.{IsNeverStuck, looping, LoopingFits, MeetingFits, MeetingIsSafe};

use machine_isa::Instr;

/// Branches, a loop with an exit, and nested calls: a function, a procedure that calls it, and a
/// process that calls the procedure.
pub fn looping_code() -> [Instr; 19]
    ensures fits { LoopingFits result }
    ensures safe { IsNeverStuck (looping result) }
{
    [
        Instr::LoadLocal { word: 0 },
        Instr::Push { value: 1 },
        Instr::Add,
        Instr::ReturnValue,
        Instr::Push { value: 2 },
        Instr::Call { routine: 0 },
        Instr::StoreLocal { word: 0 },
        Instr::Return,
        Instr::Repeats { turns: 3 },
        Instr::In { device: 0 },
        Instr::Exit { to: 18 },
        Instr::In { device: 0 },
        Instr::JumpZero { to: 15 },
        Instr::Call { routine: 1 },
        Instr::Jump { to: 17 },
        Instr::Push { value: 1 },
        Instr::Out { device: 1 },
        Instr::Repeat { to: 9 },
        Instr::End,
    ]
}

/// A monitor with an entry that waits and one that signals, and two processes, one of them with a
/// handler.
pub fn meeting_code() -> [Instr; 16]
    ensures fits { MeetingFits result }
    ensures safe { MeetingIsSafe result }
{
    [
        Instr::Enter { monitor: 0 },
        Instr::Wait {
            condition: 0,
            limit: 30,
            number: 10,
        },
        Instr::Reenter { monitor: 0 },
        Instr::Leave { monitor: 0 },
        Instr::Return,
        Instr::Enter { monitor: 0 },
        Instr::Signal { condition: 0 },
        Instr::Leave { monitor: 0 },
        Instr::Return,
        Instr::Call { routine: 0 },
        Instr::End,
        Instr::Push { value: 1 },
        Instr::Out { device: 0 },
        Instr::End,
        Instr::Call { routine: 1 },
        Instr::End,
    ]
}
