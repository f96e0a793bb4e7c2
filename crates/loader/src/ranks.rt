//! The tests of declared ranks, ceilings and blocks.

ghost use Rattle.std.specs.Prelude.{◌≡◌, ◌<◌, ◌≤◌, ℕ, length};
ghost use Rattle.image.specs.Raw.{image_of};
ghost use Rattle.valid_image.specs.Sizes as sizes;
ghost use Rattle.valid_image.specs.Times as defined;
ghost use Rattle.loader_code.specs.Told.{told};
ghost use Rattle.loader.specs.Stays.{AreStays};

use crate::due_ranks::{ceiling_of, needed_block, rank_of};
use crate::longest_stay::Stays;
use image::{RawImage, RawMonitor, RawProcess};
use loader_code::FaultNumbers;

/// A declared number below the one that is needed.
pub(crate) fn below(declared: u64, needed: u64) -> Option<FaultNumbers>
    ensures { told result ≡ sizes.below declared needed }
{
    if needed <= declared {
        None
    } else {
        Some(FaultNumbers {
            a: declared,
            b: needed,
        })
    }
}

/// A declared number other than the one that is due.
fn other(declared: u64, due: u64) -> Option<FaultNumbers>
    ensures { told result ≡ sizes.other declared due }
{
    if declared == due {
        None
    } else {
        Some(FaultNumbers {
            a: declared,
            b: due,
        })
    }
}

/// The first process whose rank is not the due one.
fn ranks_fault(image: &RawImage) -> Option<FaultNumbers>
    requires { length image.now.processes ≤ 64 }
    ensures { told result ≡ defined.ranks_fault (image_of image.now) }
{
    let processes = image.processes.as_slice();
    for number in 0..processes.len() {
        let process = &processes[number];
        let due = rank_of(image, number);
        match other(process.rank as u64, due as u64) {
            Some(shown) => return Some(shown),
            None => {}
        }
    }
    None
}

/// The first monitor whose ceiling is not the due one.
fn ceilings_fault(image: &RawImage, stays: &Stays) -> Option<FaultNumbers>
    requires few { length image.now.processes ≤ 64 }
    requires stays { AreStays (image_of image.now) stays.now }
    ensures { told result ≡ defined.ceilings_fault (image_of image.now) }
{
    let monitors = image.monitors.as_slice();
    for number in 0..monitors.len() {
        let due = ceiling_of(image, stays, number);
        match other(monitors[number].ceiling as u64, due as u64) {
            Some(shown) => return Some(shown),
            None => {}
        }
    }
    None
}

/// The first process whose block is below the needed one.
fn blocks_fault(image: &RawImage, stays: &Stays) -> Option<FaultNumbers>
    requires { AreStays (image_of image.now) stays.now }
    ensures { told result ≡ defined.blocks_fault (image_of image.now) }
{
    let processes = image.processes.as_slice();
    for number in 0..processes.len() {
        let process = &processes[number];
        let needed = needed_block(image, stays, process.rank);
        match below(process.block as u64, needed as u64) {
            Some(shown) => return Some(shown),
            None => {}
        }
    }
    None
}

/// A rank or ceiling that is not the due one, or a block below the needed one, with the declared
/// number and the other, and None exactly where there is none. Ranks come before ceilings, and
/// these before blocks. Processes are at most 64.
pub fn rank_fault(image: &RawImage, stays: &Stays) -> Option<FaultNumbers>
    requires few { length image.now.processes ≤ 64 }
    requires stays { AreStays (image_of image.now) stays.now }
    ensures { told result ≡ defined.rank_fault (image_of image.now) }
{
    if let Some(shown) = ranks_fault(image) {
        return Some(shown);
    }
    if let Some(shown) = ceilings_fault(image, stays) {
        return Some(shown);
    }
    blocks_fault(image, stays)
}
