//! The least bounds.

ghost use Rattle.std.specs.Prelude.{◌≡◌, ◌<◌, ◌-◌, length, IfOk};
ghost use Rattle.built_image.specs.Shown.{AreLeast};
ghost use Rattle.image.specs.Raw.{image_of};
ghost use Rattle.sched_table.specs.Table.{IsBoundAt};
ghost use Rattle.valid_image.specs.Valid.{HasLimits};
ghost use Rattle.code_measures.specs.Whole.{HasRanks};

use image::{RawImage, RawProcess};
use loader::task_set;
use out_of_memory::OutOfMemory;
use sched_response::{TaskSet, bound_of};
use std::alloc::Global;
use syntax_tree::List;

/// The least bound of the level, which is at most its limit; none where there is none within the
/// deadline.
#[tactic(auto, using(crate::proofs::Growing::within_limit))]
fn level_bound(set: &TaskSet, level: usize) -> Option<u32>
    requires { level < length set.now }
    ensures { IsBoundAt set.now level result }
{
    let limit = set.limit(level);
    match bound_of(set, level) {
        Some(bound) => Some(bound.min(limit) as u32),
        None => None,
    }
}

/// The least bound of the rank of the process.
fn process_bound(set: &TaskSet, process: &RawProcess) -> Option<u32>
    requires { process.now.rank - 1 < length set.now }
    ensures { IsBoundAt set.now (process.now.rank - 1) result }
{
    level_bound(set, (process.rank as usize).saturating_sub(1))
}

/// The least bound of each process within its deadline (Burns and Wellings), none where its
/// recurrence has no solution there. It fails only where memory is wanting.
pub fn bounds(alloc: Global, image: &RawImage) -> Result<List<Option<u32>>, OutOfMemory>
    requires limits { HasLimits (image_of image.now) }
    requires ranks { HasRanks (image_of image.now) }
    ensures { IfOk result (AreLeast (image_of image.now)) }
{
    let set = task_set(alloc, image)?;
    let processes = image.processes.as_slice();
    let mut all = List::new(alloc);
    for number in 0..processes.len() {
        let bound = process_bound(&set, &processes[number]);
        all.push(bound)?;
    }
    Ok(all)
}
