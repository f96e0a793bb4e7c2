//! Jumps and loops.

ghost use Rattle.std.specs.Prelude.{◌≡◌, ◌<◌, ◌≤◌, length};
ghost use Rattle.machine_isa.specs.declared.instr.Instr.TheVariants as i;
ghost use Rattle.machine_semantics.specs.State.{Operand as Stacked};
ghost use Rattle.std.specs.Prelude.{List};
ghost use Rattle.vm_instructions.specs.Frames.{IsValueFirst};
ghost use Rattle.vm_instructions.specs.Stack.{Stays, stacked};
ghost use Rattle.vm_instructions.specs.Steps.{Acts, Counts, Does, DoesTo, Exits, IsPlace, JumpsOn};

use crate::operand::Operand;
use crate::stack::{push, take, take_counter};
use crate::within::Within;

#[inline(always)]
pub(crate) fn jump(place: &mut usize, to: i32) -> Within
    requires { IsPlace to }
    ensures does { (operands : List Stacked) →
        DoesTo (i.Jump to) operands place.old result operands place.new }
    ensures acts { Acts result }
{
    *place = to as usize;
    Within::Done
}

#[inline(always)]
pub(crate) fn jump_zero(top: &mut usize, stack: &[Operand], place: &mut usize, to: i32) -> Within
    requires first { IsValueFirst (stacked top.old stack.now) }
    requires within { top.old ≤ length stack.now }
    requires to { JumpsOn to (stacked top.old stack.now) }
    ensures does { DoesTo (i.JumpZero to) (stacked top.old stack.now) place.old result
        (stacked top.new stack.now) place.new }
    ensures acts { Acts result }
    ensures top { top.new ≤ length stack.now }
{
    if take(top, stack) == 0 {
        *place = to as usize;
    }
    Within::Done
}

#[inline(always)]
pub(crate) fn repeats(top: &mut usize, stack: &mut [Operand], turns: i32) -> Within
    requires room { top.old < length stack.old }
    requires turns { IsPlace turns }
    ensures does { Does (i.Repeats turns) (stacked top.old stack.old) result
        (stacked top.new stack.new) }
    ensures acts { Acts result }
    ensures stays { Stays top.new stack.old stack.new }
{
    push(top, stack, Operand::Counter(turns as u32));
    Within::Done
}

#[inline(always)]
pub(crate) fn repeat(top: &mut usize, stack: &mut [Operand], place: &mut usize, to: i32) -> Within
    requires counts { Counts to (stacked top.old stack.old) }
    requires within { top.old ≤ length stack.old }
    ensures does { DoesTo (i.Repeat to) (stacked top.old stack.old) place.old result
        (stacked top.new stack.new) place.new }
    ensures acts { Acts result }
    ensures stays { Stays top.new stack.old stack.new }
{
    let turns = take_counter(top, stack);
    if turns > 1 {
        push(top, stack, Operand::Counter(turns - 1));
        *place = to as usize;
    }
    Within::Done
}

#[inline(always)]
pub(crate) fn exit(top: &mut usize, stack: &[Operand], place: &mut usize, to: i32) -> Within
    requires exits { Exits to (stacked top.old stack.now) }
    requires within { top.old ≤ length stack.now }
    ensures does { DoesTo (i.Exit to) (stacked top.old stack.now) place.old result
        (stacked top.new stack.now) place.new }
    ensures acts { Acts result }
    ensures top { top.new ≤ length stack.now }
{
    if take(top, stack) != 0 {
        take_counter(top, stack);
        *place = to as usize;
    }
    Within::Done
}
