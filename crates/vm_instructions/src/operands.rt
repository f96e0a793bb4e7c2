//! Instructions on operands alone.

ghost use Rattle.std.specs.Prelude.{◌≡◌, ◌<◌, ◌≤◌, ◌∷◌, length};
ghost use Rattle.machine_isa.specs.declared.instr.Instr.TheVariants as i;
ghost use Rattle.vm_instructions.specs.Frames.{AreTwoFirst, IsValueFirst};
ghost use Rattle.machine_semantics.specs.State.{Value};
ghost use Rattle.base.specs.Words.{of_bool};
ghost use Rattle.vm_instructions.specs.Stack.{Stays, stacked};
ghost use Rattle.vm_instructions.specs.Steps.{Acts, Answers, Does};

use crate::operand::Operand;
use crate::stack::{give, take, take_two};
use crate::within::Within;
use base::{add32, div32, mod32, mul32, neg32, sub32};

/// Gives a number, or raises.
#[inline(always)]
fn answer(top: &mut usize, stack: &mut [Operand], answer: Result<i32, u16>) -> Within
    requires { top.old < length stack.old }
    ensures answers { Answers answer (stacked top.old stack.old) result (stacked top.new stack.new) }
    ensures stays { Stays top.new stack.old stack.new }
{
    match answer {
        Ok(value) => {
            give(top, stack, value);
            Within::Done
        }
        Err(number) => Within::Raises(number),
    }
}

/// Gives 1 or 0.
#[inline(always)]
fn truth(top: &mut usize, stack: &mut [Operand], holds: bool) -> Within
    requires { top.old < length stack.old }
    ensures result { result ≡ Within.Done }
    ensures given { stacked top.new stack.new ≡
        Value (of_bool holds) ∷ stacked top.old stack.old }
    ensures stays { Stays top.new stack.old stack.new }
{
    give(top, stack, i32::from(holds));
    Within::Done
}

#[inline(always)]
pub(crate) fn push(top: &mut usize, stack: &mut [Operand], value: i32) -> Within
    requires { top.old < length stack.old }
    ensures does { Does (i.Push value) (stacked top.old stack.old) result (stacked top.new stack.new) }
    ensures acts { Acts result }
    ensures stays { Stays top.new stack.old stack.new }
{
    give(top, stack, value);
    Within::Done
}

#[inline(always)]
pub(crate) fn add(top: &mut usize, stack: &mut [Operand]) -> Within
    requires first { AreTwoFirst (stacked top.old stack.old) }
    requires within { top.old ≤ length stack.old }
    ensures does { Does i.Add (stacked top.old stack.old) result (stacked top.new stack.new) }
    ensures acts { Acts result }
    ensures stays { Stays top.new stack.old stack.new }
{
    let (x, y) = take_two(top, stack);
    answer(top, stack, add32(x, y))
}

#[inline(always)]
pub(crate) fn sub(top: &mut usize, stack: &mut [Operand]) -> Within
    requires first { AreTwoFirst (stacked top.old stack.old) }
    requires within { top.old ≤ length stack.old }
    ensures does { Does i.Sub (stacked top.old stack.old) result (stacked top.new stack.new) }
    ensures acts { Acts result }
    ensures stays { Stays top.new stack.old stack.new }
{
    let (x, y) = take_two(top, stack);
    answer(top, stack, sub32(x, y))
}

#[inline(always)]
pub(crate) fn rem(top: &mut usize, stack: &mut [Operand]) -> Within
    requires first { AreTwoFirst (stacked top.old stack.old) }
    requires within { top.old ≤ length stack.old }
    ensures does { Does i.Mod (stacked top.old stack.old) result (stacked top.new stack.new) }
    ensures acts { Acts result }
    ensures stays { Stays top.new stack.old stack.new }
{
    let (x, y) = take_two(top, stack);
    answer(top, stack, mod32(x, y))
}

#[inline(always)]
pub(crate) fn lt(top: &mut usize, stack: &mut [Operand]) -> Within
    requires first { AreTwoFirst (stacked top.old stack.old) }
    requires within { top.old ≤ length stack.old }
    ensures does { Does i.Lt (stacked top.old stack.old) result (stacked top.new stack.new) }
    ensures acts { Acts result }
    ensures stays { Stays top.new stack.old stack.new }
{
    let (x, y) = take_two(top, stack);
    truth(top, stack, x < y)
}

#[inline(always)]
pub(crate) fn range(top: &mut usize, stack: &mut [Operand], low: i32, high: i32) -> Within
    requires first { IsValueFirst (stacked top.old stack.old) }
    requires within { top.old ≤ length stack.old }
    ensures does { Does (i.Range low high) (stacked top.old stack.old) result (stacked top.new stack.new) }
    ensures acts { Acts result }
    ensures stays { Stays top.new stack.old stack.new }
{
    let x = take(top, stack);
    if x < low || x > high {
        return Within::Raises(3);
    }
    give(top, stack, x);
    Within::Done
}

#[inline(always)]
pub(crate) fn neg(top: &mut usize, stack: &mut [Operand]) -> Within
    requires first { IsValueFirst (stacked top.old stack.old) }
    requires within { top.old ≤ length stack.old }
    ensures does { Does i.Neg (stacked top.old stack.old) result (stacked top.new stack.new) }
    ensures acts { Acts result }
    ensures stays { Stays top.new stack.old stack.new }
{
    let x = take(top, stack);
    answer(top, stack, neg32(x))
}

#[inline(always)]
pub(crate) fn not(top: &mut usize, stack: &mut [Operand]) -> Within
    requires first { IsValueFirst (stacked top.old stack.old) }
    requires within { top.old ≤ length stack.old }
    ensures does { Does i.Not (stacked top.old stack.old) result (stacked top.new stack.new) }
    ensures acts { Acts result }
    ensures stays { Stays top.new stack.old stack.new }
{
    let x = take(top, stack);
    truth(top, stack, x == 0)
}

#[inline(always)]
pub(crate) fn and(top: &mut usize, stack: &mut [Operand]) -> Within
    requires first { AreTwoFirst (stacked top.old stack.old) }
    requires within { top.old ≤ length stack.old }
    ensures does { Does i.And (stacked top.old stack.old) result (stacked top.new stack.new) }
    ensures acts { Acts result }
    ensures stays { Stays top.new stack.old stack.new }
{
    let (x, y) = take_two(top, stack);
    truth(top, stack, x != 0 && y != 0)
}

#[inline(always)]
pub(crate) fn or(top: &mut usize, stack: &mut [Operand]) -> Within
    requires first { AreTwoFirst (stacked top.old stack.old) }
    requires within { top.old ≤ length stack.old }
    ensures does { Does i.Or (stacked top.old stack.old) result (stacked top.new stack.new) }
    ensures acts { Acts result }
    ensures stays { Stays top.new stack.old stack.new }
{
    let (x, y) = take_two(top, stack);
    truth(top, stack, x != 0 || y != 0)
}

#[inline(always)]
pub(crate) fn mul(top: &mut usize, stack: &mut [Operand]) -> Within
    requires first { AreTwoFirst (stacked top.old stack.old) }
    requires within { top.old ≤ length stack.old }
    ensures does { Does i.Mul (stacked top.old stack.old) result (stacked top.new stack.new) }
    ensures acts { Acts result }
    ensures stays { Stays top.new stack.old stack.new }
{
    let (x, y) = take_two(top, stack);
    answer(top, stack, mul32(x, y))
}

#[inline(always)]
pub(crate) fn div(top: &mut usize, stack: &mut [Operand]) -> Within
    requires first { AreTwoFirst (stacked top.old stack.old) }
    requires within { top.old ≤ length stack.old }
    ensures does { Does i.Div (stacked top.old stack.old) result (stacked top.new stack.new) }
    ensures acts { Acts result }
    ensures stays { Stays top.new stack.old stack.new }
{
    let (x, y) = take_two(top, stack);
    answer(top, stack, div32(x, y))
}

#[inline(always)]
pub(crate) fn eq(top: &mut usize, stack: &mut [Operand]) -> Within
    requires first { AreTwoFirst (stacked top.old stack.old) }
    requires within { top.old ≤ length stack.old }
    ensures does { Does i.Eq (stacked top.old stack.old) result (stacked top.new stack.new) }
    ensures acts { Acts result }
    ensures stays { Stays top.new stack.old stack.new }
{
    let (x, y) = take_two(top, stack);
    truth(top, stack, x == y)
}

#[inline(always)]
pub(crate) fn ne(top: &mut usize, stack: &mut [Operand]) -> Within
    requires first { AreTwoFirst (stacked top.old stack.old) }
    requires within { top.old ≤ length stack.old }
    ensures does { Does i.Ne (stacked top.old stack.old) result (stacked top.new stack.new) }
    ensures acts { Acts result }
    ensures stays { Stays top.new stack.old stack.new }
{
    let (x, y) = take_two(top, stack);
    truth(top, stack, x != y)
}

#[inline(always)]
pub(crate) fn le(top: &mut usize, stack: &mut [Operand]) -> Within
    requires first { AreTwoFirst (stacked top.old stack.old) }
    requires within { top.old ≤ length stack.old }
    ensures does { Does i.Le (stacked top.old stack.old) result (stacked top.new stack.new) }
    ensures acts { Acts result }
    ensures stays { Stays top.new stack.old stack.new }
{
    let (x, y) = take_two(top, stack);
    truth(top, stack, x <= y)
}

#[inline(always)]
pub(crate) fn gt(top: &mut usize, stack: &mut [Operand]) -> Within
    requires first { AreTwoFirst (stacked top.old stack.old) }
    requires within { top.old ≤ length stack.old }
    ensures does { Does i.Gt (stacked top.old stack.old) result (stacked top.new stack.new) }
    ensures acts { Acts result }
    ensures stays { Stays top.new stack.old stack.new }
{
    let (x, y) = take_two(top, stack);
    truth(top, stack, x > y)
}

#[inline(always)]
pub(crate) fn ge(top: &mut usize, stack: &mut [Operand]) -> Within
    requires first { AreTwoFirst (stacked top.old stack.old) }
    requires within { top.old ≤ length stack.old }
    ensures does { Does i.Ge (stacked top.old stack.old) result (stacked top.new stack.new) }
    ensures acts { Acts result }
    ensures stays { Stays top.new stack.old stack.new }
{
    let (x, y) = take_two(top, stack);
    truth(top, stack, x >= y)
}
