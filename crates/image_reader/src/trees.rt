//! Segment trees that the bytes begin with.

ghost use Rattle.std.specs.Prelude.{◌≡◌};
ghost use Rattle.image_format.specs.Gives.{Gives};
ghost use Rattle.image_format.specs.TreeFormat.{in_image, tree_format};

use image_format::{Limits, ReadError, SegTree};
use std::alloc::Global;

/// A tree of an image with so many monitors, which nests at most so deep.
pub fn tree_at(
    alloc: Global,
    monitors: u16,
    depth: u32,
    bytes: &[u8],
) -> Result<(SegTree, &[u8]), ReadError>
    ensures { Gives (λ x. (x.0, x.1.now)) result
        ((tree_format (in_image monitors) depth).read bytes.now) }
{
    SegTree::read(alloc, Limits::of_image(monitors), depth, bytes)
}
