//! Views of the segments and the trees that bytes begin with.

ghost use Rattle.std.specs.Prelude.{◌≡◌, ◌≤◌, ◌+◌, IfOk};
ghost use Rattle.image_format.specs.TreeFormat.{tagged, within_limits};
ghost use Rattle.image_format.specs.Gives.{GivesOrFault};
ghost use Rattle.image_format.specs.Rows.{row_read, seg_within, tree_within};
ghost use Rattle.image_format.specs.Stands.{inner_nesting, item_in, nesting, tree_in};

use crate::view::{SegBytes, SegItem};
use crate::{ByteFault, Limits, refusal, u8_at, u16_at, u16_below, u32_at, u32_within};

/// How deep the trees of an image nest at most.
pub const DEEPEST: u64 = 130;

/// The segment of a tag, whose fields the bytes begin with; `left` counts them and the tag. Its
/// trees nest at most so deep.
#[cycle(trees)]
fn tagged_at(
    limits: Limits,
    depth: u64,
    tag: u8,
    left: usize,
    bytes: &[u8],
) -> Result<(SegItem<'_>, &[u8]), ByteFault>
    ensures read { GivesOrFault (λ x. (item_in x.0, x.1.now)) result
        (tagged (within_limits limits) (tree_within limits depth) tag left bytes.now) }
    ensures nests { IfOk result (λ x. inner_nesting x.0 ≤ depth) }
{
    match tag {
        1 => {
            let (count, rest) = u32_within(bytes, limits.least_line, limits.most_line)?;
            Ok((SegItem::Line(count), rest))
        }
        2 => {
            let (first, rest) = tree_at(limits, depth, bytes)?;
            let (second, rest) = tree_at(limits, depth, rest)?;
            Ok((SegItem::Fork(first, second), rest))
        }
        3 => {
            let (turns, rest) = u32_within(bytes, limits.least_turns, limits.most_turns)?;
            let (body, rest) = tree_at(limits, depth, rest)?;
            Ok((SegItem::Rep(turns, body), rest))
        }
        4 => {
            let (routine, rest) = u16_at(bytes)?;
            Ok((SegItem::Call(routine), rest))
        }
        5 => {
            let (monitor, rest) = u16_below(bytes, limits.monitors)?;
            let (body, rest) = tree_at(limits, depth, rest)?;
            Ok((SegItem::Stay(monitor, body), rest))
        }
        6 => Ok((SegItem::Wait, bytes)),
        7 => Ok((SegItem::Exit, bytes)),
        _ => Err(ByteFault {
            number: refusal::KIND,
            left,
        }),
    }
}

/// A segment whose trees nest at most so deep.
#[cycle(trees)]
#[tactic(auto, unfolding(crate::specs::TreeFormat::seg_read))]
pub(crate) fn item_at(
    limits: Limits,
    depth: u64,
    bytes: &[u8],
) -> Result<(SegItem<'_>, &[u8]), ByteFault>
    ensures read { GivesOrFault (λ x. (item_in x.0, x.1.now)) result
        ((seg_within limits depth).read bytes.now) }
    ensures nests { IfOk result (λ x. inner_nesting x.0 ≤ depth) }
{
    let (tag, rest) = u8_at(bytes)?;
    tagged_at(limits, depth, tag, bytes.len(), rest)
}

/// So many segments.
#[cycle(trees)]
fn row_at(
    limits: Limits,
    depth: u64,
    count: u32,
    bytes: &[u8],
) -> Result<(SegBytes<'_>, &[u8]), ByteFault>
    ensures read { GivesOrFault (λ x. (tree_in x.0, x.1.now)) result
        (row_read limits depth count bytes.now) }
    ensures nests { IfOk result (λ x. nesting x.0 ≡ depth) }
{
    let mut rest = bytes;
    for _ in 0..count {
        rest = item_at(limits, depth, rest)?.1;
    }
    let row = SegBytes {
        limits,
        depth,
        count,
        bytes,
    };
    Ok((row, rest))
}

/// A view of the tree that the bytes begin with, and the bytes after it; or the fault of the first
/// field that is none of a tree's. Its numbers are within the limits, and trees nest at most so
/// deep: the call calls itself once for each level of nesting.
#[cycle(trees)]
#[tactic(auto, unfolding(crate::specs::TreeFormat::tree_format))]
pub fn tree_at(limits: Limits, depth: u64, bytes: &[u8]) -> Result<(SegBytes<'_>, &[u8]), ByteFault>
    ensures read { GivesOrFault (λ x. (tree_in x.0, x.1.now)) result
        ((tree_within limits depth).read bytes.now) }
    ensures nests { IfOk result (λ x. nesting x.0 + 1 ≡ depth) }
{
    let (count, rest) = u32_at(bytes)?;
    if depth == 0 {
        return Err(ByteFault {
            number: refusal::RANGE,
            left: bytes.len(),
        });
    }
    row_at(limits, depth - 1, count, rest)
}
