//! The code.

ghost use Rattle.std.specs.Prelude.{All};
ghost use Rattle.machine_isa.specs.Bytes.{HasWords};

use crate::instr_has_words;
use machine_isa::Instr;

/// The operands of each instruction are words. The call changes nothing.
pub(crate) fn code_has_words(code: &[Instr])
    ensures { All HasWords code.now }
{
    for instr in code {
        instr_has_words(instr);
    }
}
