//! Instructions that follow one another in a frame.

ghost use Rattle.std.specs.Prelude.{◌≡◌, ◌<◌, ◌≤◌, ◌-◌, length, slice_get, Some};
ghost use Rattle.machine_isa.specs.Ticks.{ticks as ticks_of};
ghost use Rattle.vm_instructions.specs.Stack.{Fits, IsWithinRoom, own_in};
ghost use Rattle.vm_instructions.specs.Within.{GoesWithin, InFrame, operands_left};
ghost use Rattle.vm_stretch.specs.Silent.{IsSafeFor};

use crate::cursor::Cursor;
use crate::operand::Operand;
use crate::within::{Within, step_next};
use machine_isa::{Instr, ticks};

/// The instruction at an address.
#[inline(always)]
fn fetch(code: &[Instr], place: usize) -> &Instr
    requires { place < length code.now }
    ensures { slice_get code.now place ≡ Some result.now }
{
    &code[place]
}

/// How many ticks are left of an instruction.
#[inline(always)]
fn left_of(instr: &Instr, done: u32) -> u64
    requires { done < ticks_of instr.now }
    ensures { result ≡ ticks_of instr.now - done }
{
    u64::from(ticks(instr) - done)
}

/// Does instructions for so many ticks, up to one that goes beyond the frame. The last is passed:
/// its ticks are, and the place is that of the next.
#[inline(always)]
pub(crate) fn row(
    code: &[Instr],
    at: &mut Cursor,
    stack: &mut [Operand],
    locals: &mut [i32],
    owned: &mut [i32],
    shared: &mut [i32],
    left: &mut u64,
) -> Within
    ghost frame: { InFrame }
    requires code { frame.image.code ≡ code.now }
    requires safe { IsSafeFor frame.image frame.room
        (own_in frame.job at.old stack.old locals.old owned.old shared.old) left.old }
    requires fits { Fits frame.room frame.job at.old.top stack.old locals.old }
    requires room { IsWithinRoom frame.room frame.job at.old.top locals.old }
    ensures goes { GoesWithin frame.image
        (own_in frame.job at.old stack.old locals.old owned.old shared.old) left.old result left.new
        (own_in frame.job at.new stack.new locals.new owned.new shared.new) }
    ensures top { at.new.top ≤ length stack.new }
    ensures row { length stack.new ≡ length stack.old }
    ensures locals { length locals.new ≡ length locals.old }
    ensures room { IsWithinRoom frame.room frame.job (operands_left result at.new.top)
        locals.new }
{
    while *left > 0 {
        let instr = fetch(code, at.place);
        let need = left_of(instr, at.done);
        if need > *left {
            at.done += *left as u32;
            *left = 0;
            return Within::Done;
        }
        *left -= need;
        at.done = 0;
        at.place += 1;
        match step_next(instr, at, stack, locals, owned, shared) {
            Within::Done => {}
            beyond => return beyond,
        }
    }
    Within::Done
}
