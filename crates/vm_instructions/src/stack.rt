//! The operands of the innermost frame.

ghost use Rattle.std.specs.Prelude.{◌≡◌, ◌<◌, ◌≤◌, ◌+◌, ◌∷◌, length};
ghost use Rattle.machine_semantics.specs.State.{Counter, Value};
ghost use Rattle.vm_instructions.specs.Frames.{AreTwoFirst, IsCounterFirst, IsValueFirst, operand_of};
ghost use Rattle.vm_instructions.specs.Stack.{stacked};

use crate::operand::Operand;

/// Puts an operand on top.
#[inline(always)]
pub(crate) fn push(top: &mut usize, stack: &mut [Operand], operand: Operand)
    requires { top.old < length stack.old }
    ensures pushed { stacked top.new stack.new ≡ operand_of operand ∷ stacked top.old stack.old }
    ensures top { top.new ≡ top.old + 1 }
    ensures row { length stack.new ≡ length stack.old }
{
    stack[*top] = operand;
    *top += 1;
}

/// Takes the top operand.
#[inline(always)]
fn pop(top: &mut usize, stack: &[Operand]) -> Operand
    requires some { 0 < top.old }
    requires within { top.old ≤ length stack.now }
    ensures popped { stacked top.old stack.now ≡ operand_of result ∷ stacked top.new stack.now }
    ensures top { top.old ≡ top.new + 1 }
{
    *top -= 1;
    stack[*top]
}

/// Takes the top operand, which is a value.
#[inline(always)]
pub(crate) fn take(top: &mut usize, stack: &[Operand]) -> i32
    requires first { IsValueFirst (stacked top.old stack.now) }
    requires within { top.old ≤ length stack.now }
    ensures taken { stacked top.old stack.now ≡ Value result ∷ stacked top.new stack.now }
    ensures top { top.old ≡ top.new + 1 }
{
    match pop(top, stack) {
        Operand::Value(value) => value,
        Operand::Counter(turns) => turns as i32,
    }
}

/// Takes the top operand, which is a counter.
#[inline(always)]
pub(crate) fn take_counter(top: &mut usize, stack: &[Operand]) -> u32
    requires first { IsCounterFirst (stacked top.old stack.now) }
    requires within { top.old ≤ length stack.now }
    ensures taken { stacked top.old stack.now ≡ Counter result ∷ stacked top.new stack.now }
    ensures top { top.old ≡ top.new + 1 }
{
    match pop(top, stack) {
        Operand::Counter(turns) => turns,
        Operand::Value(value) => value as u32,
    }
}

/// Puts a value on top.
#[inline(always)]
pub(crate) fn give(top: &mut usize, stack: &mut [Operand], value: i32)
    requires { top.old < length stack.old }
    ensures given { stacked top.new stack.new ≡ Value value ∷ stacked top.old stack.old }
    ensures top { top.new ≡ top.old + 1 }
    ensures row { length stack.new ≡ length stack.old }
{
    push(top, stack, Operand::Value(value));
}

/// Takes the two top operands, which are values; the first was given first.
#[inline(always)]
pub(crate) fn take_two(top: &mut usize, stack: &[Operand]) -> (i32, i32)
    requires first { AreTwoFirst (stacked top.old stack.now) }
    requires within { top.old ≤ length stack.now }
    ensures taken { stacked top.old stack.now ≡
        Value result.1 ∷ Value result.0 ∷ stacked top.new stack.now }
    ensures top { top.old ≡ top.new + 2 }
{
    let y = take(top, stack);
    let x = take(top, stack);
    (x, y)
}
