//! Single instructions.

ghost use Rattle.std.specs.Prelude.{◌≡◌, ◌≤◌, ◌<◌, IfSome, OnSome, length, slice_get};
ghost use Rattle.loader_code.specs.Steps.{effect_of as defined_effect};
ghost use Rattle.valid_image.specs.Found.{is_pos};
ghost use Rattle.valid_image.specs.Tables.{count};

use machine_isa::Instr;

/// How many operands a plain instruction takes from the stack, and how many it gives to it.
#[derive(Clone, Copy)]
pub struct StackEffect {
    pub takes: usize,
    pub gives: usize,
}

fn plain(takes: usize, gives: usize) -> Option<StackEffect>
    ensures { result ≡ Some (record { takes = takes; gives = gives }) }
{
    Some(StackEffect { takes, gives })
}

/// That of an instruction that may stand in a Line.
pub fn effect_of(instr: Instr) -> Option<StackEffect>
    ensures value { result ≡ defined_effect instr }
    ensures gives { IfSome result (λ e. e.gives ≤ 1) }
{
    match instr {
        Instr::Signal { .. } | Instr::Broadcast { .. } | Instr::Raise { .. } => plain(0, 0),
        Instr::Push { .. }
        | Instr::LoadLocal { .. }
        | Instr::LoadOwn { .. }
        | Instr::LoadMon { .. }
        | Instr::Empty { .. }
        | Instr::In { .. } => plain(0, 1),
        Instr::StoreLocal { .. }
        | Instr::StoreOwn { .. }
        | Instr::StoreMon { .. }
        | Instr::Out { .. } => plain(1, 0),
        Instr::LoadLocalAt { .. }
        | Instr::LoadOwnAt { .. }
        | Instr::LoadMonAt { .. }
        | Instr::Neg
        | Instr::Not
        | Instr::Range { .. } => plain(1, 1),
        Instr::StoreLocalAt { .. } | Instr::StoreOwnAt { .. } | Instr::StoreMonAt { .. } => plain(
            2, 0,
        ),
        Instr::And
        | Instr::Or
        | Instr::Add
        | Instr::Sub
        | Instr::Eq
        | Instr::Ne
        | Instr::Lt
        | Instr::Le
        | Instr::Gt
        | Instr::Ge
        | Instr::Mul
        | Instr::Div
        | Instr::Mod => plain(2, 1),
        Instr::JumpZero { .. }
        | Instr::Jump { .. }
        | Instr::Repeats { .. }
        | Instr::Repeat { .. }
        | Instr::Exit { .. }
        | Instr::Call { .. }
        | Instr::Return
        | Instr::ReturnValue
        | Instr::Enter { .. }
        | Instr::Leave { .. }
        | Instr::Wait { .. }
        | Instr::Reenter { .. }
        | Instr::End => None,
    }
}

/// The instruction at an address.
pub fn instr_at(code: &[Instr], address: usize) -> Option<Instr>
    ensures value { result ≡ slice_get code.now address }
    ensures within { OnSome result (address < length code.now) }
{
    code.get(address).copied()
}

/// Whether an operand is the number.
pub fn is_number(operand: i32, number: usize) -> bool
    ensures { result ≡ is_pos number operand }
{
    operand >= 0 && operand as usize == number
}

/// How many numbers a routine gives back.
pub fn results(gives: bool) -> usize
    ensures { result ≡ count gives }
{
    usize::from(gives)
}
