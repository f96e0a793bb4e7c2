//! The computation over trees.

ghost use Rattle.std.specs.Prelude.{◌≡◌, ◌≤◌, ◌<◌, ◌+◌, IfSome, MatchOption, length, map};
ghost use Rattle.machine_semantics.specs.Trees.{size, size_of};
ghost use Rattle.image_format.specs.Stands.{item_in, tree_in};
ghost use Rattle.loader_code.specs.TreesTold.{EndsAt, known_of, told};
ghost use Rattle.valid_image.specs.Found.{found, founds, line};
ghost use Rattle.valid_image_law.specs.Held.{hold};

use crate::instructions::instr_at;
use crate::known::{CodeContext, CodeCost, RoutineCost};
use crate::steps::{called, exited, forked, instr_found, repeated, waited};
use image_format::{SegBytes, SegItem};
use machine_isa::Instr;

/// So many addresses on, where that is at most the limit.
pub fn past(at: usize, count: usize, limit: usize) -> Option<usize>
    requires { at ≤ limit }
    ensures { MatchOption result (limit < at + count) (λ end. (end ≡ at + count) × (end ≤ limit)) }
{
    if count <= limit - at {
        Some(at + count)
    } else {
        None
    }
}

/// The address behind a segment that starts at an address, where it is at most the limit.
#[cycle(ends)]
fn item_end(item: &SegItem<'_>, at: usize, limit: usize) -> Option<usize>
    requires { at ≤ limit }
    ensures { MatchOption result (limit < at + size_of (item_in item.now))
        (λ end. (end ≡ at + size_of (item_in item.now)) × (end ≤ limit)) }
{
    match item {
        SegItem::Line(count) => past(at, *count as usize, limit),
        SegItem::Fork(first, second) => {
            let middle = tree_end(*first, at, limit)?;
            let end = tree_end(*second, middle, limit)?;
            past(end, 2, limit)
        }
        SegItem::Rep(_, body) | SegItem::Stay(_, body) => {
            let end = tree_end(*body, at, limit)?;
            past(end, 2, limit)
        }
        SegItem::Wait => past(at, 2, limit),
        SegItem::Call(_) | SegItem::Exit => past(at, 1, limit),
    }
}

/// The address behind a tree, likewise.
#[cycle(ends)]
pub fn tree_end(tree: SegBytes<'_>, at: usize, limit: usize) -> Option<usize>
    requires { at ≤ limit }
    ensures { MatchOption result (limit < at + size (tree_in tree.entry))
        (λ end. (end ≡ at + size (tree_in tree.entry)) × (end ≤ limit)) }
{
    let mut end = at;
    let mut rest = tree;
    while let Some((item, after)) = rest.split_first() {
        end = item_end(&item, end, limit)?;
        rest = after;
    }
    Some(end)
}

/// What a Line comes to: so many plain instructions.
pub fn line_found(code: &[Instr], count: u32, at: usize, height: usize) -> Option<CodeCost>
    requires low { height ≤ at }
    requires within { at ≤ length code.now }
    ensures value { told result ≡ hold (line code.now count at height) }
    ensures ends { IfSome result (EndsAt code.now (at + count)) }
{
    let mut so_far = CodeCost::nothing(at, height);
    for _k in 0..count {
        let next = instr_found(code, so_far.next, so_far.height)?;
        so_far = so_far.then(&next);
    }
    Some(so_far)
}

/// What a segment comes to.
#[cycle(trees)]
fn item_found(
    code: &[Instr],
    known: &[RoutineCost],
    around: CodeContext,
    item: &SegItem<'_>,
    at: usize,
    height: usize,
) -> Option<CodeCost>
    requires low { height ≤ at }
    ensures value { told result ≡ hold (found code.now
        (map known_of known.now) around.out around.held (item_in item.now) at height) }
    ensures ends { IfSome result (EndsAt code.now (at + size_of (item_in item.now))) }
{
    let first = instr_at(code, at)?;
    let next = at + 1;
    match item {
        SegItem::Line(count) => {
            if *count == 0 {
                return None;
            }
            line_found(code, *count, at, height)
        }
        SegItem::Fork(one, other) => {
            let below = height.checked_sub(1)?;
            let one = tree_found(code, known, around, *one, next, below)?;
            let jump = instr_at(code, one.next)?;
            let other = tree_found(code, known, around, *other, one.next + 1, below)?;
            forked(first, jump, &one, &other)
        }
        SegItem::Rep(turns, body) => {
            let end = tree_end(*body, next, code.len())?;
            let inside = CodeContext {
                out: Some(end + 1),
                held: around.held,
            };
            let turn = tree_found(code, known, inside, *body, next, 0)?;
            let last = instr_at(code, turn.next)?;
            repeated(*turns, first, last, next, height, &turn)
        }
        SegItem::Call(routine) => called(known, *routine, first, next, height),
        SegItem::Stay(_, _) => None,
        SegItem::Wait => {
            let second = instr_at(code, next)?;
            waited(around.held, first, second, next + 1, height)
        }
        SegItem::Exit => exited(around.out, first, next, height),
    }
}

/// What segments side by side come to.
#[cycle(trees)]
pub fn tree_found(
    code: &[Instr],
    known: &[RoutineCost],
    around: CodeContext,
    tree: SegBytes<'_>,
    at: usize,
    height: usize,
) -> Option<CodeCost>
    requires low { height ≤ at }
    requires within { at ≤ length code.now }
    ensures value { told result ≡ hold (founds code.now
        (map known_of known.now) around.out around.held (tree_in tree.entry) at height) }
    ensures ends { IfSome result (EndsAt code.now (at + size (tree_in tree.entry))) }
{
    let mut so_far = CodeCost::nothing(at, height);
    let mut rest = tree;
    while let Some((item, after)) = rest.split_first() {
        let next = item_found(code, known, around, &item, so_far.next, so_far.height)?;
        so_far = so_far.then(&next);
        rest = after;
    }
    Some(so_far)
}
