//! Instructions.

ghost use Rattle.machine_isa.specs.Bytes.{HasWords};

use machine_isa::Instr;

/// The operands of an instruction are signed numbers of four bytes. The call does nothing.
pub fn instr_has_words(instr: &Instr)
    ensures { HasWords instr.now }
{
    match *instr {
        Instr::Push { value: _a }
        | Instr::LoadLocal { word: _a }
        | Instr::StoreLocal { word: _a }
        | Instr::LoadOwn { word: _a }
        | Instr::StoreOwn { word: _a }
        | Instr::LoadMon { word: _a }
        | Instr::StoreMon { word: _a }
        | Instr::JumpZero { to: _a }
        | Instr::Jump { to: _a }
        | Instr::Repeats { turns: _a }
        | Instr::Repeat { to: _a }
        | Instr::Exit { to: _a }
        | Instr::Call { routine: _a }
        | Instr::Enter { monitor: _a }
        | Instr::Leave { monitor: _a }
        | Instr::Reenter { monitor: _a }
        | Instr::Signal { condition: _a }
        | Instr::Broadcast { condition: _a }
        | Instr::Empty { condition: _a }
        | Instr::In { device: _a }
        | Instr::Out { device: _a }
        | Instr::Raise { number: _a } => {}
        Instr::LoadLocalAt {
            word: _a,
            low: _b,
            len: _c,
        }
        | Instr::StoreLocalAt {
            word: _a,
            low: _b,
            len: _c,
        }
        | Instr::LoadOwnAt {
            word: _a,
            low: _b,
            len: _c,
        }
        | Instr::StoreOwnAt {
            word: _a,
            low: _b,
            len: _c,
        }
        | Instr::LoadMonAt {
            word: _a,
            low: _b,
            len: _c,
        }
        | Instr::StoreMonAt {
            word: _a,
            low: _b,
            len: _c,
        }
        | Instr::Wait {
            condition: _a,
            limit: _b,
            number: _c,
        } => {}
        Instr::Range { low: _a, high: _b } => {}
        Instr::Neg
        | Instr::Not
        | Instr::And
        | Instr::Or
        | Instr::Add
        | Instr::Sub
        | Instr::Eq
        | Instr::Ne
        | Instr::Lt
        | Instr::Le
        | Instr::Gt
        | Instr::Ge
        | Instr::Mul
        | Instr::Div
        | Instr::Mod
        | Instr::Return
        | Instr::ReturnValue
        | Instr::End => {}
    }
}
