//! The image of a program, all but its bounds.

ghost use Rattle.std.specs.Prelude.{◌≤◌, ℕ, List, IfOk};
ghost use Rattle.syntax_tree.specs.Placed.{placed};
ghost use Rattle.command_due.specs.Source.{IsWritten};
ghost use Rattle.compile.specs.Steps.{IsRanked};

use compile::{BuildFault, ranked};
use image::RawImage;
use out_of_memory::OutOfMemory;
use static_semantics::Checked;
use std::alloc::Global;

/// The image of a program that is not too large, with an overhead of at most 1,000 ticks, with its
/// ranks, ceilings and blocks, whether or not it is in time. Only want of memory is an error.
pub fn ranked_image(alloc: Global, program: &Checked, over: u16) -> Result<RawImage, OutOfMemory>
    ghost text: { List ℕ }
    requires over { over ≤ 1000 }
    requires written { IsWritten text (placed program.now) }
    ensures { IfOk result (IsRanked (placed program.now) over) }
{
    match ranked(alloc, program.prog(), over) {
        Ok(image) => Ok(image),
        Err(BuildFault::Memory(error)) => Err(error),
        Err(BuildFault::TooLarge { .. }) => unreachable!(),
        Err(BuildFault::Untimely(_)) => unreachable!(),
    }
}
