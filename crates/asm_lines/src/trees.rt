//! The lines of segment trees.

ghost use Rattle.std.specs.Prelude.{◌≡◌, ◌<◌, ◌^◌, IfOk};
ghost use Rattle.image_format.specs.TreeBytes.{InnerRowsFit, RowsFit};
ghost use Rattle.image_format.specs.View.{view, views};
ghost use Rattle.text_fields.specs.Front.{Gives, front};
ghost use Rattle.asm_lines.specs.Trees.{arm_read, call_read, fork_read, line_read, rep_read, seg_read, segs_read, stay_read, tree_ends as ends_test, tree_line_read, tree_read};

use crate::form::is_tree_first;
use image_format::{Seg, SegTree, Segs};
use std::alloc::Global;
use text_fields::{
    FieldError, FieldFault, LineCursor, begins_with, end_line, field, note, refusal, short_field,
    skip,
};

/// How deep trees nest at most.
const DEEPEST: u32 = 130;

/// Whether a tree ends here: before a closing parenthesis, or at the end of the line.
fn tree_ends(bytes: &[u8]) -> bool
    ensures { result ≡ ends_test bytes.now }
{
    begins_with(bytes, b"\n") || begins_with(bytes, b" )")
}

/// A line of so many instructions.
fn line_at(at: LineCursor<'_>) -> Result<(Seg, LineCursor<'_>), FieldError>
    ensures read { Gives (λ x. (view x.0, front x.1)) result (line_read (front at.entry)) }
    ensures fits { IfOk result (λ x. InnerRowsFit (view x.0)) }
{
    let (count, at) = field(at, b" line ", 1, 65_535)?;
    Ok((Seg::Line(count), at))
}

/// A call.
fn call_at(at: LineCursor<'_>) -> Result<(Seg, LineCursor<'_>), FieldError>
    ensures read { Gives (λ x. (view x.0, front x.1)) result (call_read (front at.entry)) }
    ensures fits { IfOk result (λ x. InnerRowsFit (view x.0)) }
{
    let (routine, at) = short_field(at, b" call ", 0, 65_535)?;
    Ok((Seg::Call(routine), at))
}

/// A tree between parentheses, which nests at most so deep.
#[cycle(trees)]
fn arm_at(
    alloc: Global,
    monitors: usize,
    depth: u32,
    at: LineCursor<'_>,
) -> Result<(Segs, LineCursor<'_>), FieldError>
    ensures read { Gives (λ x. (views x.0, front x.1)) result
        (arm_read (tree_read monitors depth) (front at.entry)) }
    ensures fits { IfOk result (λ x. RowsFit (views x.0)) }
{
    let at = skip(at, b" (")?;
    let (tree, at) = tree_at(alloc, monitors, depth, at)?;
    let at = skip(at, b" )")?;
    Ok((tree, at))
}

/// A fork, whose arms nest at most so deep.
#[cycle(trees)]
fn fork_at(
    alloc: Global,
    monitors: usize,
    depth: u32,
    at: LineCursor<'_>,
) -> Result<(Seg, LineCursor<'_>), FieldError>
    ensures read { Gives (λ x. (view x.0, front x.1)) result
        (fork_read (tree_read monitors depth) (front at.entry)) }
    ensures fits { IfOk result (λ x. InnerRowsFit (view x.0)) }
{
    let at = skip(at, b" fork")?;
    let (first, at) = arm_at(alloc, monitors, depth, at)?;
    let (second, at) = arm_at(alloc, monitors, depth, at)?;
    Ok((Seg::fork(alloc, first, second)?, at))
}

/// A repetition, whose body nests at most so deep.
#[cycle(trees)]
fn rep_at(
    alloc: Global,
    monitors: usize,
    depth: u32,
    at: LineCursor<'_>,
) -> Result<(Seg, LineCursor<'_>), FieldError>
    ensures read { Gives (λ x. (view x.0, front x.1)) result
        (rep_read (tree_read monitors depth) (front at.entry)) }
    ensures fits { IfOk result (λ x. InnerRowsFit (view x.0)) }
{
    let (turns, at) = field(at, b" rep ", 1, 1_000_000)?;
    let (body, at) = arm_at(alloc, monitors, depth, at)?;
    Ok((Seg::rep(alloc, turns, body)?, at))
}

/// A stay in one of so many monitors, whose body nests at most so deep.
#[cycle(trees)]
fn stay_at(
    alloc: Global,
    monitors: usize,
    depth: u32,
    at: LineCursor<'_>,
) -> Result<(Seg, LineCursor<'_>), FieldError>
    ensures read { Gives (λ x. (view x.0, front x.1)) result
        (stay_read monitors (tree_read monitors depth) (front at.entry)) }
    ensures fits { IfOk result (λ x. InnerRowsFit (view x.0)) }
{
    let (monitor, at) = short_field(at, b" stay ", 0, 65_535)?;
    let at = note(at, usize::from(monitor) < monitors);
    let (body, at) = arm_at(alloc, monitors, depth, at)?;
    Ok((Seg::stay(alloc, monitor, body)?, at))
}

/// A segment, whose trees nest at most so deep.
#[cycle(trees)]
#[tactic(auto, unfolding(crate::specs::Trees::seg_read))]
fn seg_at(
    alloc: Global,
    monitors: usize,
    depth: u32,
    at: LineCursor<'_>,
) -> Result<(Seg, LineCursor<'_>), FieldError>
    ensures read { Gives (λ x. (view x.0, front x.1)) result
        (seg_read monitors (tree_read monitors depth) (front at.entry)) }
    ensures fits { IfOk result (λ x. InnerRowsFit (view x.0)) }
{
    if begins_with(at.rest, b" line ") {
        return line_at(at);
    }
    if begins_with(at.rest, b" fork") {
        return fork_at(alloc, monitors, depth, at);
    }
    if begins_with(at.rest, b" rep ") {
        return rep_at(alloc, monitors, depth, at);
    }
    if begins_with(at.rest, b" call ") {
        return call_at(at);
    }
    if begins_with(at.rest, b" stay ") {
        return stay_at(alloc, monitors, depth, at);
    }
    if begins_with(at.rest, b" wait") {
        let at = skip(at, b" wait")?;
        return Ok((Seg::Wait, at));
    }
    let at = skip(at, b" exit")?;
    Ok((Seg::Exit, at))
}

/// The segments of a tree, at most so many, whose trees nest at most so deep.
#[cycle(trees)]
fn segs_at(
    alloc: Global,
    monitors: usize,
    depth: u32,
    most: usize,
    at: LineCursor<'_>,
) -> Result<(Segs, LineCursor<'_>), FieldError>
    requires { most < 2 ^ 32 }
    ensures read { Gives (λ x. (views x.0, front x.1)) result
        (segs_read (seg_read monitors (tree_read monitors depth)) most (front at.entry)) }
    ensures fits { IfOk result (λ x. RowsFit (views x.0)) }
{
    let mut segs = Segs::new(alloc);
    let mut place = at;
    for _ in 0..most {
        if tree_ends(place.rest) {
            return Ok((segs, place));
        }
        let (seg, after) = seg_at(alloc, monitors, depth, place)?;
        segs.push(seg)?;
        place = after;
    }
    Err(FieldError::Fault(FieldFault {
        number: refusal::FORM,
        left: place.start,
    }))
}

/// A tree that nests at most so deep. It calls itself once for each level of nesting.
#[cycle(trees)]
#[tactic(auto, unfolding(crate::specs::Trees::tree_read))]
fn tree_at(
    alloc: Global,
    monitors: usize,
    depth: u32,
    at: LineCursor<'_>,
) -> Result<(Segs, LineCursor<'_>), FieldError>
    ensures read { Gives (λ x. (views x.0, front x.1)) result
        (tree_read monitors depth (front at.entry)) }
    ensures fits { IfOk result (λ x. RowsFit (views x.0)) }
{
    if depth == 0 {
        return Err(FieldError::Fault(FieldFault {
            number: refusal::RANGE,
            left: at.start,
        }));
    }
    segs_at(alloc, monitors, depth - 1, at.rest.len(), at)
}

/// The line of a tree.
#[tactic(auto, unfolding(crate::specs::Trees::tree_line_read))]
pub fn tree_line(
    alloc: Global,
    monitors: usize,
    at: LineCursor<'_>,
) -> Result<(SegTree, LineCursor<'_>), FieldError>
    ensures { Gives (λ x. (x.0, front x.1)) result
        (tree_line_read monitors (front at.entry)) }
{
    let has_form = is_tree_first(alloc, at.rest)?;
    if !has_form {
        return Err(FieldError::Fault(FieldFault {
            number: refusal::FORM,
            left: at.start,
        }));
    }
    let at = skip(at, b"tree")?;
    let (segs, at) = tree_at(alloc, monitors, DEEPEST, at)?;
    let at = end_line(at)?;
    Ok((SegTree::of(alloc, segs.as_slice())?, at))
}
