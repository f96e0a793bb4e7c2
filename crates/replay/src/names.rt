//! The names of a program that is to be replayed.

ghost use Rattle.std.specs.Prelude.{IfOk};
ghost use Rattle.replay.specs.Held.{AreNamesFor};
ghost use Rattle.syntax_tree.specs.Placed.{placed};

use built_image_law::premises_of_laws::checked_programs_are_ready;
use compile_image::image_names;
use image::ImageNames;
use out_of_memory::OutOfMemory;
use static_semantics::Checked;
use std::alloc::Global;

/// The names of the parts of a program that keeps to all rules. It fails only where memory is
/// wanting.
pub fn program_names(alloc: Global, program: &Checked) -> Result<ImageNames, OutOfMemory>
    ensures { IfOk result (AreNamesFor (placed program.now)) }
{
    checked_programs_are_ready();
    let names = image_names(alloc, program.prog())?;
    Ok(names)
}
