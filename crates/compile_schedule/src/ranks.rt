//! The image with its ranks, ceilings and blocks.

ghost use Rattle.std.specs.Prelude.{◌≡◌, ◌≤◌, IfOk, length};
ghost use Rattle.built_image.specs.Filled.{DiffersInRanks};
ghost use Rattle.built_image_law.specs.Filled.{Each};
ghost use Rattle.image.specs.Raw.{image_of, named_of};
ghost use Rattle.compile_schedule.specs.Ranking.{IsBlocked, IsRanked};
ghost use Rattle.loader.specs.Stays.{AreStays};
ghost use Rattle.code_measures.specs.Whole.{HasRanks};

use crate::processes::{blocked, ceiled, due_blocks, due_ceilings, due_ranks, ranked};
use image::RawImage;
use loader::{Stays, longest_stays};
use out_of_memory::OutOfMemory;
use std::alloc::Global;

/// The image with the ranks of its processes and the ceilings of its monitors.
fn with_ranks(alloc: Global, image: RawImage, stays: &Stays) -> Result<RawImage, OutOfMemory>
    requires few { length image.processes ≤ 64 }
    requires stays { AreStays (image_of image) stays.now }
    ensures { IfOk result (IsRanked image) }
{
    let ranks = due_ranks(alloc, &image)?;
    let ceilings = due_ceilings(alloc, &image, stays)?;
    Ok(RawImage {
        monitors: ceiled(image.monitors, &ceilings),
        processes: ranked(image.processes, &ranks),
        ..image
    })
}

/// The image with the blocks of its processes.
fn with_blocks(alloc: Global, image: RawImage, stays: &Stays) -> Result<RawImage, OutOfMemory>
    requires { AreStays (image_of image) stays.now }
    ensures { IfOk result (IsBlocked image) }
{
    let blocks = due_blocks(alloc, &image, stays)?;
    Ok(RawImage {
        processes: blocked(image.processes, &blocks),
        ..image
    })
}

/// The image with its ranks by deadlines (Leung and Whitehead), the ceilings of its monitors, and
/// the blocks of its processes (immediate ceilings); each bound is the deadline, until the least
/// one is known. It asks nothing of the ranks, ceilings, blocks and bounds that stand there before,
/// and fails only where memory is wanting.
pub fn rank(alloc: Global, image: RawImage) -> Result<RawImage, OutOfMemory>
    requires few { length image.processes ≤ 64 }
    ensures same { IfOk result (λ now. DiffersInRanks (named_of image) (named_of now)) }
    ensures ranks { IfOk result (λ now. HasRanks (image_of now)) }
    ensures bounds { IfOk result (λ now. Each (λ k p. p.bound ≡
        p.deadline) (image_of now).processes) }
{
    let stays = longest_stays(alloc, &image)?;
    let numbered = with_ranks(alloc, image, &stays)?;
    let filled = with_blocks(alloc, numbered, &stays)?;
    Ok(filled)
}
