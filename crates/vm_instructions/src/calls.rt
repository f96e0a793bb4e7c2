//! Calls and returns.

ghost use Rattle.std.specs.Prelude.{◌≡◌, ◌<◌, ◌≤◌, ◌+◌, [], IsSome, length};
ghost use Rattle.machine_isa.specs.declared.instr.Instr.TheVariants as i;
ghost use Rattle.vm_instructions.specs.Frames.{IsValueFirst, used};
ghost use Rattle.machine_semantics.specs.Effect.{arguments};
ghost use Rattle.vm_instructions.specs.Steps.{DoesAt, DoesCall, Keeps};

use crate::Frames;
use crate::step_result::StepResult;

/// What a call needs to know of a routine.
#[derive(Clone, Copy)]
pub struct RoutineHeader {
    pub params: usize,
    pub locals: usize,
    pub start: usize,
}

#[inline(always)]
pub fn call(
    frames: &mut Frames,
    place: &mut usize,
    number: i32,
    routine: RoutineHeader,
) -> StepResult
    requires taken { IsSome (arguments routine.params frames.old.operands []) }
    requires order { routine.params ≤ routine.locals }
    requires room { used frames.old + 2 + routine.locals ≤ frames.old.room + routine.params }
    ensures does { DoesCall number routine frames.old place.old result frames.new place.new }
    ensures keeps { Keeps result frames.old frames.new }
{
    frames.call(*place, routine.params, routine.locals);
    *place = routine.start;
    StepResult::Done
}

#[inline(always)]
pub fn ret(frames: &mut Frames, place: &mut usize) -> StepResult
    requires { 0 < length frames.old.callers }
    ensures does { DoesAt i.Return frames.old place.old result frames.new place.new }
    ensures keeps { Keeps result frames.old frames.new }
{
    *place = frames.back();
    StepResult::Done
}

#[inline(always)]
pub fn ret_value(frames: &mut Frames, place: &mut usize) -> StepResult
    requires first { IsValueFirst frames.old.operands }
    requires called { 0 < length frames.old.callers }
    ensures does { DoesAt i.ReturnValue frames.old place.old result frames.new place.new }
    ensures keeps { Keeps result frames.old frames.new }
{
    let x = frames.take();
    *place = frames.back();
    frames.give(x);
    StepResult::Done
}
