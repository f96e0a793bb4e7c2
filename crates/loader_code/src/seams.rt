//! Tests of the instructions at the seams of a tree.

ghost use Rattle.std.specs.Prelude.{◌≡◌, Some};
ghost use Rattle.valid_image.specs.Found.{is_call as calls, is_end as ends, is_enter as enters, is_exit as exits, is_jump as jumps, is_jump_zero as jumps_at_zero, is_leave as leaves, is_reenter as reenters, is_repeat as repeats, is_repeats as begins, is_return as returns, limit_at as limits};

use crate::instructions::is_number;
use machine_isa::Instr;

/// Whether it is JZ to the address.
pub fn is_jump_zero(instr: Option<Instr>, address: usize) -> bool
    ensures { result ≡ jumps_at_zero address instr }
{
    match instr {
        Some(Instr::JumpZero { to: operand }) => is_number(operand, address),
        _ => false,
    }
}

/// Whether it is JMP to the address.
pub fn is_jump(instr: Option<Instr>, address: usize) -> bool
    ensures { result ≡ jumps address instr }
{
    match instr {
        Some(Instr::Jump { to: operand }) => is_number(operand, address),
        _ => false,
    }
}

/// Whether it is REPS of so many turns.
pub fn is_repeats(instr: Option<Instr>, turns: usize) -> bool
    ensures { result ≡ begins turns instr }
{
    match instr {
        Some(Instr::Repeats { turns: operand }) => is_number(operand, turns),
        _ => false,
    }
}

/// Whether it is REP to the address.
pub fn is_repeat(instr: Option<Instr>, address: usize) -> bool
    ensures { result ≡ repeats address instr }
{
    match instr {
        Some(Instr::Repeat { to: operand }) => is_number(operand, address),
        _ => false,
    }
}

/// Whether it is CALL of the routine.
pub fn is_call(instr: Option<Instr>, routine: usize) -> bool
    ensures { result ≡ calls routine instr }
{
    match instr {
        Some(Instr::Call { routine: operand }) => is_number(operand, routine),
        _ => false,
    }
}

/// Whether it is ENTER of the monitor.
pub fn is_enter(instr: Option<Instr>, monitor: usize) -> bool
    ensures { result ≡ enters monitor instr }
{
    match instr {
        Some(Instr::Enter { monitor: operand }) => is_number(operand, monitor),
        _ => false,
    }
}

/// Whether it is LEAVE of the monitor.
pub fn is_leave(instr: Option<Instr>, monitor: usize) -> bool
    ensures { result ≡ leaves monitor instr }
{
    match instr {
        Some(Instr::Leave { monitor: operand }) => is_number(operand, monitor),
        _ => false,
    }
}

/// Whether it is EXIT to the end of the innermost loop.
pub fn is_exit(instr: Option<Instr>, out: Option<usize>) -> bool
    ensures { result ≡ exits out instr }
{
    match (out, instr) {
        (Some(end), Some(Instr::Exit { to })) => is_number(to, end),
        _ => false,
    }
}

/// Whether it is REENT of the monitor held.
pub fn is_reenter(instr: Option<Instr>, held: Option<u16>) -> bool
    ensures { result ≡ reenters held instr }
{
    match (held, instr) {
        (Some(held), Some(Instr::Reenter { monitor })) => is_number(monitor, held as usize),
        _ => false,
    }
}

/// Whether it ends a routine: RETV where that gives a value back, else RET.
pub fn is_return(instr: Option<Instr>, gives: bool) -> bool
    ensures { result ≡ returns gives instr }
{
    match instr {
        Some(Instr::ReturnValue) => gives,
        Some(Instr::Return) => !gives,
        _ => false,
    }
}

/// Whether it is END.
pub fn is_end(instr: Option<Instr>) -> bool
    ensures { result ≡ ends instr }
{
    matches!(instr, Some(Instr::End))
}

/// The limit of WAIT, 0 for one that is no number of ticks.
pub fn limit_at(instr: Option<Instr>) -> Option<u32>
    ensures { result ≡ limits instr }
{
    match instr {
        Some(Instr::Wait { limit, .. }) => Some(limit.max(0) as u32),
        _ => None,
    }
}
