//! What is due of processes and monitors, and where it is filled in.

ghost use Rattle.std.specs.Prelude.{◌≡◌, ◌≤◌, IfOk, length};
ghost use Rattle.image.specs.Raw.{image_of};
ghost use Rattle.compile_schedule.specs.Ranking.{AreDue, HaveBlocks, HaveCeilings, HaveRanks, blocks_of};
ghost use Rattle.loader.specs.Stays.{AreStays};
ghost use Rattle.valid_image.specs.Times as defined;

use image::{RawImage, RawMonitor, RawProcess};
use loader::{Stays, ceiling_of, needed_block, rank_of};
use out_of_memory::OutOfMemory;
use std::alloc::Global;
use syntax_tree::List;

/// The ranks that are due of the processes.
pub(crate) fn due_ranks(alloc: Global, image: &RawImage) -> Result<Vec<u16>, OutOfMemory>
    requires { length image.now.processes ≤ 64 }
    ensures { IfOk result (λ ranks. AreDue (defined.rank_of (image_of image.now))
        (length image.now.processes) ranks.items) }
{
    let mut ranks = Vec::new(alloc);
    for number in 0..image.processes.len() {
        let rank = rank_of(image, number);
        ranks.push(rank)?;
    }
    Ok(ranks)
}

/// The ceilings that are due of the monitors.
pub(crate) fn due_ceilings(
    alloc: Global,
    image: &RawImage,
    stays: &Stays,
) -> Result<Vec<u16>, OutOfMemory>
    requires few { length image.now.processes ≤ 64 }
    requires stays { AreStays (image_of image.now) stays.now }
    ensures { IfOk result (λ ceilings. AreDue (defined.ceiling_of (image_of image.now))
        (length image.now.monitors) ceilings.items) }
{
    let mut ceilings = Vec::new(alloc);
    for number in 0..image.monitors.len() {
        let ceiling = ceiling_of(image, stays, number);
        ceilings.push(ceiling)?;
    }
    Ok(ceilings)
}

/// The blocks of the processes, by their ranks.
pub(crate) fn due_blocks(
    alloc: Global,
    image: &RawImage,
    stays: &Stays,
) -> Result<Vec<u32>, OutOfMemory>
    requires { AreStays (image_of image.now) stays.now }
    ensures { IfOk result (λ blocks. blocks.items ≡ blocks_of (image_of image.now)) }
{
    let mut blocks = Vec::new(alloc);
    for process in image.processes.as_slice() {
        let block = needed_block(image, stays, process.rank);
        blocks.push(block)?;
    }
    Ok(blocks)
}

/// The processes with these ranks.
pub(crate) fn ranked(processes: List<RawProcess>, ranks: &[u16]) -> List<RawProcess>
    requires { length ranks.now ≡ length processes }
    ensures { HaveRanks ranks.now processes result }
{
    let mut processes = processes.into_vec();
    for number in 0..processes.len() {
        processes[number].rank = ranks[number];
    }
    List::from_vec(processes)
}

/// The monitors with these ceilings.
pub(crate) fn ceiled(monitors: List<RawMonitor>, ceilings: &[u16]) -> List<RawMonitor>
    requires { length ceilings.now ≡ length monitors }
    ensures { HaveCeilings ceilings.now monitors result }
{
    let mut monitors = monitors.into_vec();
    for number in 0..monitors.len() {
        monitors[number].ceiling = ceilings[number];
    }
    List::from_vec(monitors)
}

/// The processes with these blocks; their bounds are their deadlines.
pub(crate) fn blocked(processes: List<RawProcess>, blocks: &[u32]) -> List<RawProcess>
    requires { length blocks.now ≡ length processes }
    ensures { HaveBlocks blocks.now processes result }
{
    let mut processes = processes.into_vec();
    for number in 0..processes.len() {
        let process = &mut processes[number];
        process.block = blocks[number];
        process.bound = process.deadline;
    }
    List::from_vec(processes)
}
