//! The first WAIT instruction.

ghost use Rattle.std.specs.Prelude.{◌≡◌, IfNone, IfSome};
ghost use Rattle.edf_admission.specs.Admitted.{HasNoWait, IsFirstWait, is_wait as is_wait_instr};

use image_loaded::Shape;
use machine_isa::Instr;

/// Whether it is a WAIT.
fn is_wait(instr: Instr) -> bool
    ensures { result ≡ is_wait_instr instr }
{
    match instr {
        Instr::Wait { .. } => true,
        _ => false,
    }
}

/// The address of the first WAIT instruction.
pub(crate) fn first_wait(shape: &Shape) -> Option<u32>
    ensures first { IfSome result (IsFirstWait shape.now.image) }
    ensures none { IfNone result (HasNoWait shape.now.image) }
{
    for at in 0..shape.code_len() {
        if is_wait(shape.instr(at)) {
            return Some(at);
        }
    }
    None
}
