//! How long an instruction takes.

ghost use Rattle.std.specs.Prelude.{◌≡◌};
ghost use Rattle.machine_isa.specs.Ticks.{ticks as ticks_of};

use crate::instr::Instr;

/// The ticks that an instruction takes.
pub fn ticks(instr: &Instr) -> u32
    ensures { result ≡ ticks_of instr.now }
{
    match *instr {
        Instr::Push { .. } | Instr::Not | Instr::And | Instr::Or | Instr::Jump { .. } => 1,
        Instr::LoadLocal { .. }
        | Instr::StoreLocal { .. }
        | Instr::LoadOwn { .. }
        | Instr::StoreOwn { .. }
        | Instr::Neg
        | Instr::Add
        | Instr::Sub
        | Instr::Eq
        | Instr::Ne
        | Instr::Lt
        | Instr::Le
        | Instr::Gt
        | Instr::Ge
        | Instr::JumpZero { .. }
        | Instr::Repeats { .. } => 2,
        Instr::LoadMon { .. }
        | Instr::StoreMon { .. }
        | Instr::Range { .. }
        | Instr::Repeat { .. }
        | Instr::Exit { .. }
        | Instr::Leave { .. }
        | Instr::Empty { .. } => 3,
        Instr::LoadLocalAt { .. }
        | Instr::StoreLocalAt { .. }
        | Instr::LoadOwnAt { .. }
        | Instr::StoreOwnAt { .. }
        | Instr::Mul
        | Instr::Return
        | Instr::ReturnValue
        | Instr::Reenter { .. }
        | Instr::Raise { .. }
        | Instr::End => 4,
        Instr::LoadMonAt { .. }
        | Instr::StoreMonAt { .. }
        | Instr::Enter { .. }
        | Instr::Signal { .. }
        | Instr::Broadcast { .. } => 5,
        Instr::Call { .. } | Instr::Wait { .. } => 6,
        Instr::In { .. } | Instr::Out { .. } => 10,
        Instr::Div | Instr::Mod => 12,
    }
}
