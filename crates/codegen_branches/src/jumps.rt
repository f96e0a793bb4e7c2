//! The jumps of a choice, whose addresses are filled in once they are known.

ghost use Rattle.std.specs.Prelude.{◌≡◌, ◌≤◌, ◌+◌, [], ◌∷◌, ◌++◌, OnOk, length, pos, slice_set};
ghost use Rattle.machine_isa.specs.declared.instr.Instr.TheVariants as i;
ghost use Rattle.codegen_spec.specs.Told.{fit as fitting};

use crate::operand::fit;
use machine_isa::Instr;
use out_of_memory::OutOfMemory;

/// Another instruction at an address, if there is one.
pub fn patch(code: &mut Vec<Instr>, at: usize, instr: Instr)
    ensures { code.new.items ≡ slice_set code.old.items at instr }
{
    if at < code.len() {
        code[at] = instr;
    }
}

/// The first arm ends with a jump to this address. The jump behind the condition, which stands at
/// `at`, goes behind it.
pub fn end_first(code: &mut Vec<Instr>, at: usize, to: i32) -> Result<(), OutOfMemory>
    ensures made { OnOk result (code.new.items ≡ slice_set (code.old.items ++ i.Jump to ∷ []) at
        (i.JumpZero (fitting (pos (length code.old.items + 1))))) }
    ensures grows { length code.old.items ≤ length code.new.items }
{
    let behind = fit(code.len() + 1);
    code.push(Instr::Jump { to })?;
    patch(code, at, Instr::JumpZero { to: behind });
    Ok(())
}

/// The only arm ends: its jump and the one behind the condition go to what follows.
pub fn end_arm(code: &mut Vec<Instr>, at: usize) -> Result<(), OutOfMemory>
    ensures made { OnOk result (code.new.items ≡ slice_set (code.old.items ++
        i.Jump (fitting (pos (length code.old.items + 1))) ∷ []) at
        (i.JumpZero (fitting (pos (length code.old.items + 1))))) }
    ensures grows { length code.old.items ≤ length code.new.items }
{
    let behind = fit(code.len() + 1);
    end_first(code, at, behind)
}

/// The second arm ends: the first one's jump, which stands at `mid`, goes behind it.
pub fn end_second(code: &mut Vec<Instr>, mid: usize)
    ensures { code.new.items ≡ slice_set code.old.items mid
        (i.Jump (fitting (pos (length code.old.items)))) }
{
    let to = fit(code.len());
    patch(code, mid, Instr::Jump { to });
}
