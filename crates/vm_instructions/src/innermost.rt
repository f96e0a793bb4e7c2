//! The innermost frame of a process, at hand.

ghost use Rattle.std.specs.Prelude.{◌≡◌};
ghost use Rattle.vm_instructions.specs.Silent.{IsSafe, own_of};
ghost use Rattle.vm_instructions.specs.Within.{GoesWithin, HasDoneWithin, InFrame, IsInnermost, operands_left};
ghost use Rattle.vm_stretch.specs.Silent.{IsSafeFor};

use crate::activation::Activation;
use crate::cursor::Cursor;
use crate::row::row;
use crate::within::{Within, step_alone};
use machine_isa::Instr;

/// How many operands are left: an exception drops them.
#[inline(always)]
fn left_after(came: Within, top: usize) -> usize
    ensures { result ≡ operands_left came top }
{
    match came {
        Within::Raises(_) => 0,
        _ => top,
    }
}

/// Does an instruction that stays in the innermost frame; its process stands at the next already.
#[inline(always)]
pub(crate) fn step_innermost(
    job: &mut Activation,
    owned: &mut [i32],
    shared: &mut [i32],
    instr: &Instr,
) -> Within
    ghost frame: { InFrame }
    requires innermost { IsInnermost frame job.old }
    requires safe { IsSafe frame.image instr.now (own_of job.old owned.old shared.old)
        job.old.frames.room }
    ensures done { HasDoneWithin frame.image instr.now (own_of job.old owned.old shared.old) result
        (own_of job.new owned.new shared.new) }
    ensures room { job.new.frames.room ≡ job.old.frames.room }
    ensures inside { job.new.inside ≡ job.old.inside }
    ensures dispatch_ticks { job.new.dispatch_ticks ≡ job.old.dispatch_ticks }
{
    let frames = &mut job.frames;
    let floor = frames.floor;
    let base = frames.base;
    let size = frames.size;
    let mut at = Cursor {
        place: job.place,
        done: job.done,
        top: frames.top - floor,
    };
    let came = step_alone(
        instr,
        &mut at,
        &mut frames.operands[floor..],
        &mut frames.locals[base..size],
        owned,
        shared,
    );
    frames.top = floor + left_after(came, at.top);
    job.place = at.place;
    came
}

/// Runs a process, which has no ticks to burn, for what is left of a row, while it stays in its
/// innermost frame.
#[inline(always)]
pub(crate) fn run_innermost(
    code: &[Instr],
    job: &mut Activation,
    owned: &mut [i32],
    shared: &mut [i32],
    left: &mut u64,
) -> Within
    ghost frame: { InFrame }
    requires innermost { IsInnermost frame job.old }
    requires code { frame.image.code ≡ code.now }
    requires safe { IsSafeFor frame.image job.old.frames.room
        (own_of job.old owned.old shared.old) left.old }
    ensures goes { GoesWithin frame.image (own_of job.old owned.old shared.old) left.old result left.new
        (own_of job.new owned.new shared.new) }
    ensures room { job.new.frames.room ≡ job.old.frames.room }
{
    let frames = &mut job.frames;
    let floor = frames.floor;
    let base = frames.base;
    let size = frames.size;
    let mut at = Cursor {
        place: job.place,
        done: job.done,
        top: frames.top - floor,
    };
    let came = row(
        code,
        &mut at,
        &mut frames.operands[floor..],
        &mut frames.locals[base..size],
        owned,
        shared,
        left,
    );
    frames.top = floor + left_after(came, at.top);
    job.place = at.place;
    job.done = at.done;
    came
}
