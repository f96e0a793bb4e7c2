//! Declared ranks, ceilings and blocks, each with its process or monitor.

ghost use Rattle.std.specs.Prelude.{◌≡◌, ◌≤◌, length};
ghost use Rattle.image.specs.Raw.{image_of};
ghost use Rattle.valid_image.specs.Fault.{first_in};
ghost use Rattle.loader.specs.Stays.{AreStays};
ghost use Rattle.faulty_part.specs.Parts.{block_of_process, ceiling_of_monitor, rank_of_process, rank_part};

use crate::naming::{below, other};
use faulty_part::{FaultyPart, PartFault, Subject};
use image::{RawImage, RawMonitor, RawProcess};
use loader::{Stays, ceiling_of, needed_block, rank_of};

/// The first process whose rank is not the due one.
fn ranks_fault(raw: &RawImage) -> Option<PartFault>
    requires { length raw.now.processes ≤ 64 }
    ensures { result ≡ first_in (rank_of_process (image_of raw.now)) (image_of raw.now).processes }
{
    let processes = raw.processes.as_slice();
    for number in 0..processes.len() {
        let process = &processes[number];
        let due = rank_of(raw, number);
        let part = FaultyPart::Process(number);
        match other(part, Subject::Rank, process.rank as u64, due as u64) {
            Some(fault) => return Some(fault),
            None => {}
        }
    }
    None
}

/// The first monitor whose ceiling is not the due one.
fn ceilings_fault(raw: &RawImage, stays: &Stays) -> Option<PartFault>
    requires few { length raw.now.processes ≤ 64 }
    requires stays { AreStays (image_of raw.now) stays.now }
    ensures { result ≡ first_in (ceiling_of_monitor (image_of raw.now)) (image_of raw.now).monitors }
{
    let monitors = raw.monitors.as_slice();
    for number in 0..monitors.len() {
        let monitor = &monitors[number];
        let due = ceiling_of(raw, stays, number);
        let part = FaultyPart::Monitor(number);
        match other(part, Subject::Ceiling, monitor.ceiling as u64, due as u64) {
            Some(fault) => return Some(fault),
            None => {}
        }
    }
    None
}

/// The first process whose block is below the needed one.
fn blocks_fault(raw: &RawImage, stays: &Stays) -> Option<PartFault>
    requires { AreStays (image_of raw.now) stays.now }
    ensures { result ≡ first_in (block_of_process (image_of raw.now)) (image_of raw.now).processes }
{
    let processes = raw.processes.as_slice();
    for number in 0..processes.len() {
        let process = &processes[number];
        let needed = needed_block(raw, stays, process.rank);
        let part = FaultyPart::Process(number);
        match below(part, Subject::Block, process.block as u64, needed as u64) {
            Some(fault) => return Some(fault),
            None => {}
        }
    }
    None
}

/// The first process with a wrong rank, else monitor with a wrong ceiling, else process with too
/// short a block.
pub fn rank_part_fault(raw: &RawImage, stays: &Stays) -> Option<PartFault>
    requires few { length raw.now.processes ≤ 64 }
    requires stays { AreStays (image_of raw.now) stays.now }
    ensures { result ≡ rank_part (image_of raw.now) }
{
    if let Some(fault) = ranks_fault(raw) {
        return Some(fault);
    }
    if let Some(fault) = ceilings_fault(raw, stays) {
        return Some(fault);
    }
    blocks_fault(raw, stays)
}
