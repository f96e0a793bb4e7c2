//! One instruction.

ghost use Rattle.std.specs.Prelude.{◌≡◌, slice_get, Some, IsSome, unsigned_abs};
ghost use Rattle.vm_instructions.specs.Silent.{HasDone, IsOf, IsSafe, own_of};
ghost use Rattle.vm_instructions.specs.Steps.{HasRoutine};
ghost use Rattle.vm_instructions.specs.Within.{Beyond, IsBeyond};
ghost use Rattle.machine_semantics.specs.Image.{Image};

use crate::activation::Activation;
use crate::calls::RoutineHeader;
use crate::innermost::step_innermost;
use crate::within::Within;
use crate::{StepResult, calls};
use machine_isa::Instr;

/// The routine with this number.
#[inline(always)]
fn routine_at(routines: &[RoutineHeader], number: i32) -> RoutineHeader
    requires { HasRoutine routines.now number }
    ensures { slice_get routines.now (unsigned_abs number) ≡ Some result }
{
    routines[number as usize]
}

/// Does what goes beyond the innermost frame; tells what the instruction came to.
#[inline(always)]
pub(crate) fn go_beyond(
    routines: &[RoutineHeader],
    job: &mut Activation,
    owned: &[i32],
    shared: &[i32],
    came: Within,
) -> StepResult
    requires came { (b : Beyond) ×
        IsBeyond b routines.now job.old owned.now shared.now came }
    ensures done { (b : Beyond) → IsBeyond b routines.now job.old owned.now shared.now came →
        HasDone b.image b.instr b.old result (own_of job.new owned.now shared.now) }
    ensures room { job.new.frames.room ≡ job.old.frames.room }
    ensures inside { job.new.inside ≡ job.old.inside }
    ensures dispatch_ticks { job.new.dispatch_ticks ≡ job.old.dispatch_ticks }
{
    match came {
        Within::Done => StepResult::Done,
        Within::Raises(number) => StepResult::Raises(number),
        Within::Seen => StepResult::Seen,
        Within::Calls(number) => calls::call(
            &mut job.frames,
            &mut job.place,
            number,
            routine_at(routines, number),
        ),
        Within::Returns => calls::ret(&mut job.frames, &mut job.place),
        Within::ReturnsValue => calls::ret_value(&mut job.frames, &mut job.place),
    }
}

/// Does an instruction that nobody sees; its process stands at the next already.
pub fn step(
    code: &[Instr],
    routines: &[RoutineHeader],
    job: &mut Activation,
    owned: &mut [i32],
    shared: &mut [i32],
    instr: Instr,
) -> StepResult
    ghost image: { Image }
    requires image { IsOf image code.now routines.now }
    requires safe { IsSafe image instr (own_of job.old owned.old shared.old) job.old.frames.room }
    ensures done { HasDone image instr (own_of job.old owned.old shared.old) result
        (own_of job.new owned.new shared.new) }
    ensures room { job.new.frames.room ≡ job.old.frames.room }
    ensures inside { job.new.inside ≡ job.old.inside }
    ensures dispatch_ticks { job.new.dispatch_ticks ≡ job.old.dispatch_ticks }
{
    let came = step_innermost(job, owned, shared, &instr);
    go_beyond(routines, job, owned, shared, came)
}
