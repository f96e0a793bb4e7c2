//! One instruction within a frame.

ghost use Rattle.vm_instructions.specs.Stack.{Fits, own_in};
ghost use Rattle.vm_instructions.specs.Silent.{IsSafe};
ghost use Rattle.vm_instructions.specs.Within.{InFrame, HasDoneWithin};
ghost use Rattle.std.specs.Prelude.{◌≡◌, ◌≤◌, length};

use crate::cursor::Cursor;
use crate::operand::Operand;
use crate::{jumps, operands, words};
use machine_isa::Instr;

/// What an instruction comes to in the frame in which it stands.
#[derive(Clone, Copy)]
pub(crate) enum Within {
    /// It is done.
    Done,
    /// It raises an exception.
    Raises(u16),
    /// Others see it, and nothing was done.
    Seen,
    /// It calls the routine of this number, and nothing was done.
    Calls(i32),
    /// It goes back to the caller, and nothing was done.
    Returns,
    /// It goes back with a value, and nothing was done.
    ReturnsValue,
}

/// Does an instruction that stays in its frame; its process stands at the next already. Each of its
/// two calls has a copy of its own, so that the one of a row is compiled into the row's loop.
#[inline(always)]
fn step_within<const IN_ROW: bool>(
    instr: &Instr,
    at: &mut Cursor,
    stack: &mut [Operand],
    locals: &mut [i32],
    owned: &mut [i32],
    shared: &mut [i32],
) -> Within
    ghost frame: { InFrame }
    requires safe { IsSafe frame.image instr.now
        (own_in frame.job at.old stack.old locals.old owned.old shared.old) frame.room }
    requires fits { Fits frame.room frame.job at.old.top stack.old locals.old }
    ensures done { HasDoneWithin frame.image instr.now
        (own_in frame.job at.old stack.old locals.old owned.old shared.old) result
        (own_in frame.job at.new stack.new locals.new owned.new shared.new) }
    ensures top { at.new.top ≤ length stack.new }
    ensures row { length stack.new ≡ length stack.old }
    ensures locals { length locals.new ≡ length locals.old }
    ensures done_ticks { at.new.done ≡ at.old.done }
{
    match *instr {
        Instr::Push { value } => operands::push(&mut at.top, stack, value),
        Instr::LoadLocal { word } => words::load_local(&mut at.top, stack, locals, word),
        Instr::StoreLocal { word } => words::store_local(&mut at.top, stack, locals, word),
        Instr::LoadOwn { word } => words::load_own(&mut at.top, stack, owned, word),
        Instr::StoreOwn { word } => words::store_own(&mut at.top, stack, owned, word),
        Instr::LoadMon { word } => words::load_mon(&mut at.top, stack, shared, word),
        Instr::StoreMon { word } => words::store_mon(&mut at.top, stack, shared, word),
        Instr::LoadLocalAt { word, low, len } => words::load_local_at(
            &mut at.top,
            stack,
            locals,
            word,
            low,
            len,
        ),
        Instr::StoreLocalAt { word, low, len } => words::store_local_at(
            &mut at.top,
            stack,
            locals,
            word,
            low,
            len,
        ),
        Instr::LoadOwnAt { word, low, len } => words::load_own_at(
            &mut at.top,
            stack,
            owned,
            word,
            low,
            len,
        ),
        Instr::StoreOwnAt { word, low, len } => words::store_own_at(
            &mut at.top,
            stack,
            owned,
            word,
            low,
            len,
        ),
        Instr::LoadMonAt { word, low, len } => words::load_mon_at(
            &mut at.top,
            stack,
            shared,
            word,
            low,
            len,
        ),
        Instr::StoreMonAt { word, low, len } => words::store_mon_at(
            &mut at.top,
            stack,
            shared,
            word,
            low,
            len,
        ),
        Instr::Neg => operands::neg(&mut at.top, stack),
        Instr::Not => operands::not(&mut at.top, stack),
        Instr::And => operands::and(&mut at.top, stack),
        Instr::Or => operands::or(&mut at.top, stack),
        Instr::Add => operands::add(&mut at.top, stack),
        Instr::Sub => operands::sub(&mut at.top, stack),
        Instr::Eq => operands::eq(&mut at.top, stack),
        Instr::Ne => operands::ne(&mut at.top, stack),
        Instr::Lt => operands::lt(&mut at.top, stack),
        Instr::Le => operands::le(&mut at.top, stack),
        Instr::Gt => operands::gt(&mut at.top, stack),
        Instr::Ge => operands::ge(&mut at.top, stack),
        Instr::Mul => operands::mul(&mut at.top, stack),
        Instr::Div => operands::div(&mut at.top, stack),
        Instr::Mod => operands::rem(&mut at.top, stack),
        Instr::Range { low, high } => operands::range(&mut at.top, stack, low, high),
        Instr::JumpZero { to } => jumps::jump_zero(&mut at.top, stack, &mut at.place, to),
        Instr::Jump { to } => jumps::jump(&mut at.place, to),
        Instr::Repeats { turns } => jumps::repeats(&mut at.top, stack, turns),
        Instr::Repeat { to } => jumps::repeat(&mut at.top, stack, &mut at.place, to),
        Instr::Exit { to } => jumps::exit(&mut at.top, stack, &mut at.place, to),
        Instr::Call { routine } => Within::Calls(routine),
        Instr::Return => Within::Returns,
        Instr::ReturnValue => Within::ReturnsValue,
        Instr::Enter { .. }
        | Instr::Leave { .. }
        | Instr::Wait { .. }
        | Instr::Reenter { .. }
        | Instr::Signal { .. }
        | Instr::Broadcast { .. }
        | Instr::Empty { .. }
        | Instr::In { .. }
        | Instr::Out { .. }
        | Instr::Raise { .. }
        | Instr::End => Within::Seen,
    }
}

/// The same, in the loop of a row.
#[inline(always)]
pub(crate) fn step_next(
    instr: &Instr,
    at: &mut Cursor,
    stack: &mut [Operand],
    locals: &mut [i32],
    owned: &mut [i32],
    shared: &mut [i32],
) -> Within
    ghost frame: { InFrame }
    requires safe { IsSafe frame.image instr.now
        (own_in frame.job at.old stack.old locals.old owned.old shared.old) frame.room }
    requires fits { Fits frame.room frame.job at.old.top stack.old locals.old }
    ensures done { HasDoneWithin frame.image instr.now
        (own_in frame.job at.old stack.old locals.old owned.old shared.old) result
        (own_in frame.job at.new stack.new locals.new owned.new shared.new) }
    ensures top { at.new.top ≤ length stack.new }
    ensures row { length stack.new ≡ length stack.old }
    ensures locals { length locals.new ≡ length locals.old }
    ensures done_ticks { at.new.done ≡ at.old.done }
{
    step_within::<true>(instr, at, stack, locals, owned, shared)
}

/// The same, of one instruction alone.
#[inline(always)]
pub(crate) fn step_alone(
    instr: &Instr,
    at: &mut Cursor,
    stack: &mut [Operand],
    locals: &mut [i32],
    owned: &mut [i32],
    shared: &mut [i32],
) -> Within
    ghost frame: { InFrame }
    requires safe { IsSafe frame.image instr.now
        (own_in frame.job at.old stack.old locals.old owned.old shared.old) frame.room }
    requires fits { Fits frame.room frame.job at.old.top stack.old locals.old }
    ensures done { HasDoneWithin frame.image instr.now
        (own_in frame.job at.old stack.old locals.old owned.old shared.old) result
        (own_in frame.job at.new stack.new locals.new owned.new shared.new) }
    ensures top { at.new.top ≤ length stack.new }
    ensures row { length stack.new ≡ length stack.old }
    ensures locals { length locals.new ≡ length locals.old }
    ensures done_ticks { at.new.done ≡ at.old.done }
{
    step_within::<false>(instr, at, stack, locals, owned, shared)
}
