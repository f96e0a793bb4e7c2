//! Bounds filled in.

ghost use Rattle.compile_schedule.specs.Bounding.{AreBounded, HasBounds, KeepsLeast};
ghost use Rattle.built_image.specs.Filled.{DiffersInBounds};
ghost use Rattle.image.specs.Raw.{image_of, named_of};

use image::{RawImage, RawProcess};
use syntax_tree::List;

/// The processes, with their bounds where these are there.
fn bounded(processes: List<RawProcess>, bounds: &[Option<u32>]) -> List<RawProcess>
    ensures { AreBounded bounds.now processes result }
{
    let mut processes = processes.into_vec();
    for number in 0..processes.len().min(bounds.len()) {
        let process = &mut processes[number];
        process.bound = bounds[number].unwrap_or(process.bound);
    }
    List::from_vec(processes)
}

/// The image with these bounds, where each process has one; a process that has none keeps the bound
/// that it had.
pub fn with_bounds(image: RawImage, bounds: &List<Option<u32>>) -> RawImage
    ensures same { DiffersInBounds (named_of image) (named_of result) }
    ensures bounds { HasBounds (image_of result) bounds.now }
    ensures least { KeepsLeast (image_of image) bounds.now (image_of result) }
{
    RawImage {
        processes: bounded(image.processes, bounds.as_slice()),
        ..image
    }
}
