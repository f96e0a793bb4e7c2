//! The entries that can make a block.

ghost use Rattle.std.specs.Prelude.{◌≡◌, ◌<◌, length, slice_get, IfOk};
ghost use Rattle.image.specs.Raw.{image_of, routine_of};
ghost use Rattle.analysis_command.specs.Goals.{goal_of, goal_place as defined_place, low_ceiling, AreGoals};

use image::{RawImage, RawRoutine};
use out_of_memory::OutOfMemory;
use std::alloc::Global;

/// Whether the monitor is there and its ceiling is at most the rank.
#[tactic(auto, using(crate::proofs::Places::ceiling_there))]
fn reaches_up(image: &RawImage, monitor: usize, rank: u16) -> bool
    ensures { result ≡ low_ceiling (slice_get (image_of image.now).monitors monitor) rank }
{
    match image.monitors.get(monitor) {
        Some(found) => found.ceiling <= rank,
        None => false,
    }
}

/// Whether the routine is an entry in which a stay of so many ticks holds up the rank.
fn is_goal(image: &RawImage, routine: &RawRoutine, rank: u16, block: u64) -> bool
    ensures { result ≡ goal_of (image_of image.now) rank block (routine_of routine.now) }
{
    routine.kind == 2
        && routine.stay as u64 == block
        && reaches_up(image, routine.owner as usize, rank)
}

/// The place of the routine of the number, where it is such an entry.
#[tactic(auto, using(crate::proofs::Places::goal_is))]
fn goal_place(
    image: &RawImage,
    places: &[usize],
    rank: u16,
    block: u64,
    number: usize,
) -> Option<usize>
    requires there { number < length image.now.routines }
    requires one_each { length places.now ≡ length image.now.routines }
    ensures { result ≡ defined_place (image_of image.now) places.now rank block number }
{
    if is_goal(image, &image.routines.as_slice()[number], rank, block) {
        Some(places[number])
    } else {
        None
    }
}

/// By routine its place, where it is an entry in which a stay of so many ticks holds up the rank.
pub fn goals(
    alloc: Global,
    image: &RawImage,
    places: &[usize],
    rank: u16,
    block: u64,
) -> Result<Vec<Option<usize>>, OutOfMemory>
    requires { length places.now ≡ length image.now.routines }
    ensures { IfOk result (λ v. AreGoals (image_of image.now) places.now rank block v.items) }
{
    let mut all = Vec::new(alloc);
    for number in 0..image.routines.len() {
        let place = goal_place(image, places, rank, block, number);
        all.push(place)?;
    }
    Ok(all)
}
