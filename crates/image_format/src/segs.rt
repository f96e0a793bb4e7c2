//! Segment trees that the bytes begin with, with each segment apart.

ghost use Rattle.std.specs.Prelude.{◌≡◌};
ghost use Rattle.image_format.specs.View.{view, views};
ghost use Rattle.image_format.specs.Gives.{Gives};
ghost use Rattle.image_format.specs.TreeFormat.{segs_read, tagged, within_limits};
ghost use Rattle.image_format.specs.Rows.{seg_within, tree_within};

use crate::{
    ByteFault, Limits, ReadError, Seg, Segs, refusal, u8_at, u16_at, u16_below, u32_at, u32_within,
};
use std::alloc::Global;

/// The segment of a tag, whose fields the bytes begin with; `left` counts them and the tag. Its
/// trees nest at most so deep.
#[cycle(trees)]
fn tagged_at(
    alloc: Global,
    limits: Limits,
    depth: u64,
    tag: u8,
    left: usize,
    bytes: &[u8],
) -> Result<(Seg, &[u8]), ReadError>
    ensures { Gives (λ x. (view x.0, x.1.now)) result
        (tagged (within_limits limits) (tree_within limits depth) tag left bytes.now) }
{
    match tag {
        1 => {
            let (count, rest) = u32_within(bytes, limits.least_line, limits.most_line)?;
            Ok((Seg::Line(count), rest))
        }
        2 => {
            let (first, rest) = tree_at(alloc, limits, depth, bytes)?;
            let (second, rest) = tree_at(alloc, limits, depth, rest)?;
            Ok((Seg::fork(alloc, first, second)?, rest))
        }
        3 => {
            let (turns, rest) = u32_within(bytes, limits.least_turns, limits.most_turns)?;
            let (body, rest) = tree_at(alloc, limits, depth, rest)?;
            Ok((Seg::rep(alloc, turns, body)?, rest))
        }
        4 => {
            let (routine, rest) = u16_at(bytes)?;
            Ok((Seg::Call(routine), rest))
        }
        5 => {
            let (monitor, rest) = u16_below(bytes, limits.monitors)?;
            let (body, rest) = tree_at(alloc, limits, depth, rest)?;
            Ok((Seg::stay(alloc, monitor, body)?, rest))
        }
        6 => Ok((Seg::Wait, bytes)),
        7 => Ok((Seg::Exit, bytes)),
        _ => Err(ReadError::Fault(ByteFault {
            number: refusal::KIND,
            left,
        })),
    }
}

/// A segment whose trees nest at most so deep.
#[cycle(trees)]
#[tactic(auto, unfolding(crate::specs::TreeFormat::seg_read))]
fn seg_at(
    alloc: Global,
    limits: Limits,
    depth: u64,
    bytes: &[u8],
) -> Result<(Seg, &[u8]), ReadError>
    ensures { Gives (λ x. (view x.0, x.1.now)) result
        ((seg_within limits depth).read bytes.now) }
{
    let (tag, rest) = u8_at(bytes)?;
    tagged_at(alloc, limits, depth, tag, bytes.len(), rest)
}

/// So many segments.
#[cycle(trees)]
fn segs_at(
    alloc: Global,
    limits: Limits,
    depth: u64,
    count: u32,
    bytes: &[u8],
) -> Result<(Segs, &[u8]), ReadError>
    ensures { Gives (λ x. (views x.0, x.1.now)) result
        (segs_read (seg_within limits depth) count bytes.now) }
{
    let mut segs = Segs::new(alloc);
    let mut rest = bytes;
    for _ in 0..count {
        let (seg, after) = seg_at(alloc, limits, depth, rest)?;
        segs.push(seg)?;
        rest = after;
    }
    Ok((segs, rest))
}

/// A tree that nests at most so deep. It calls itself once for each level of nesting.
#[cycle(trees)]
#[tactic(auto, unfolding(crate::specs::TreeFormat::tree_format))]
pub(crate) fn tree_at(
    alloc: Global,
    limits: Limits,
    depth: u64,
    bytes: &[u8],
) -> Result<(Segs, &[u8]), ReadError>
    ensures { Gives (λ x. (views x.0, x.1.now)) result
        ((tree_within limits depth).read bytes.now) }
{
    let (count, rest) = u32_at(bytes)?;
    if depth == 0 {
        return Err(ReadError::Fault(ByteFault {
            number: refusal::RANGE,
            left: bytes.len(),
        }));
    }
    segs_at(alloc, limits, depth - 1, count, rest)
}
