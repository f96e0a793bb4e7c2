//! The tasks of an image, and what the test of their demand says.

ghost use Rattle.std.specs.Prelude.{◌≡◌, ◌<◌, length, slice_get, IfOk};
ghost use Rattle.sched_demand.specs.Demand.{AreTasks};
ghost use Rattle.command_due.specs.Tasks.{AreDemands, IsAnswer};
ghost use Rattle.image_loaded.specs.Shape.{IsShape};
ghost use Rattle.edf_admission.specs.Steps.{AreAsked, EachRankIsHad, HasRank, IsAsked, IsBlockOfLast, SomeHasRank};

use image_bytes::ImageBytes;
use out_of_memory::OutOfMemory;
use sched_demand::demand::each_set_has_one_reach;
use sched_demand::{DemandSet, DemandTask, Judgement, judge};
use std::alloc::Global;

/// The number of the process of the rank.
fn with_rank(image: &ImageBytes, rank: u16) -> u16
    requires { SomeHasRank image.now.image rank }
    ensures { HasRank image.now.image rank result }
{
    for number in 0..image.processes() {
        if image.process(number).rank == rank {
            return number;
        }
    }
    unreachable!()
}

/// The block of the last process, in the order of ranks, of those with the deadline of this one.
fn block_of_last(image: &ImageBytes, number: u16) -> u32
    requires { number < length image.now.image.processes }
    ensures { IsBlockOfLast image.now.image number result }
{
    let own = image.process(number);
    let mut rank = own.rank;
    let mut block = own.block;
    for other in 0..image.processes() {
        let process = image.process(other);
        if process.deadline == own.deadline && rank < process.rank {
            rank = process.rank;
            block = process.block;
        }
    }
    block
}

/// What the process of the rank asks for.
fn demand(image: &ImageBytes, rank: u16) -> DemandTask
    requires { SomeHasRank image.now.image rank }
    ensures { IsAsked image.now.image rank result }
{
    let number = with_rank(image, rank);
    let block = block_of_last(image, number);
    let process = image.process(number);
    DemandTask {
        frame: process.frame as u64,
        deadline: process.deadline as u64,
        cost: process.run as u64,
        block: block as u64,
    }
}

/// What the processes ask for, in the order of ranks.
fn tasks(alloc: Global, image: &ImageBytes) -> Result<Vec<DemandTask>, OutOfMemory>
    requires { EachRankIsHad image.now.image }
    ensures { IfOk result (λ all. AreAsked image.now.image all.items) }
{
    let mut all = Vec::new(alloc);
    for level in 0..image.processes() {
        all.push(demand(image, level + 1))?;
    }
    Ok(all)
}

/// The tasks whose demand is tested.
fn demands(alloc: Global, image: &ImageBytes) -> Result<DemandSet, OutOfMemory>
    requires { IsShape image.now }
    ensures tasks { IfOk result (AreDemands image.now.image) }
    ensures valid { IfOk result AreTasks }
{
    match DemandSet::new(tasks(alloc, image)?) {
        Some(set) => Ok(set),
        None => unreachable!(),
    }
}

/// What the test of the demand says of an image that is valid but for its bounds. It fails only
/// where memory is wanting.
pub fn judge_image(alloc: Global, image: &ImageBytes) -> Result<Judgement, OutOfMemory>
    requires { IsShape image.now }
    ensures { IfOk result (IsAnswer image.now.image) }
{
    each_set_has_one_reach();
    let set = demands(alloc, image)?;
    Ok(judge(&set))
}
