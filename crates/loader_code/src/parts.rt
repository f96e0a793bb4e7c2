//! The computation over whole parts: the code of a routine, the body and the handler of a process.

ghost use Rattle.std.specs.Prelude.{◌≡◌, ◌≤◌, ◌+◌, ◌-◌, ◌&&◌, ◌<◌, ◌*◌, IfSome, IsTrue, MatchOption, Some, None, length, map, nat_eq, slice_get};
ghost use Rattle.image_format.specs.TreeBytes.{tree_bytes};
ghost use Rattle.image.specs.Raw.{routine_of};
ghost use Rattle.machine_semantics.specs.Trees.{Cons, Nil, Stay, size};
ghost use Rattle.image_format.specs.Stands.{tree_in};
ghost use Rattle.loader_code.specs.TreesTold.{EndsAt, Reaches, found_of, known_of, told, told_part, IsHeld};
ghost use Rattle.loader_code.specs.Steps.{stays_in};
ghost use Rattle.loader_code.specs.Whole.{monitor_in as stays_of, stay_in};
ghost use Rattle.base.specs.Capped.{cap};
ghost use Rattle.valid_image.specs.Found.{entry, guard, is_end as ends, is_enter as enters, is_leave as leaves, tree_found as part_tree};
ghost use Rattle.valid_image.specs.Tables.{found_or_nothing, monitor_of as owner_of, part_found as defined_part, routine_found as defined_routine};
ghost use Rattle.valid_image_law.specs.Held.{hold};

use crate::instructions::{instr_at, results};
use crate::known::{CodeContext, CodeCost, PartCost, RoutineCost};
use crate::seams::{is_end, is_enter, is_leave, is_return};
use crate::tree_cost::tree_found;
use base::{Cost, cap_add};
use image::RawRoutine;
use image_format::{SegBytes, SegItem, SegTree};
use machine_isa::Instr;

/// ENTER, what is done inside, and LEAVE, of the monitor that the Stay and the owner name.
pub fn stayed(
    owner: u16,
    monitor: u16,
    enter: Instr,
    leave: Instr,
    inside: &CodeCost,
) -> Option<PartCost>
    requires held { IsHeld inside.now }
    requires room { inside.now.next + 1 ≤ usize.MAX }
    ensures value { told_part result ≡ hold (guard
        (nat_eq monitor owner && (enters owner (Some enter) && leaves owner (Some leave)))
        (stays_in (Some (found_of inside.now)))) }
    ensures ends { IfSome result (λ f. Reaches (inside.now.next + 1) inside.now.height f.found) }
    ensures stay { IfSome result (λ f. f.stay ≡ cap (inside.now.cost.run + 3)) }
{
    if monitor != owner
        || !is_enter(Some(enter), owner as usize)
        || !is_leave(Some(leave), owner as usize)
    {
        return None;
    }
    Some(PartCost {
        found: CodeCost {
            next: inside.next + 1,
            height: inside.height,
            cost: Cost {
                run: cap_add(inside.cost.run, 8),
                susp: inside.cost.susp,
                waits: inside.cost.waits,
            },
            depth: inside.depth,
        },
        stay: cap_add(inside.cost.run, 3),
    })
}

/// The body of a Stay.
fn stay_found(
    code: &[Instr],
    known: &[RoutineCost],
    owner: u16,
    monitor: u16,
    body: SegBytes<'_>,
    at: usize,
) -> Option<PartCost>
    requires { at ≤ length code.now }
    ensures value { told_part result ≡ hold (entry code.now (map known_of known.now) owner
        (Cons (Stay monitor (tree_in body.entry)) Nil) at) }
    ensures ends { IfSome result (λ f. EndsAt code.now
        (at + size (tree_in body.entry) + 2) f.found) }
    ensures stay { IfSome result (λ f. f.stay ≡
        cap ((found_or_nothing (entry code.now (map known_of known.now) owner
        (Cons (Stay monitor (tree_in body.entry)) Nil) at)).cost.run - 5)) }
{
    let enter = instr_at(code, at)?;
    let around = CodeContext {
        out: None,
        held: Some(owner),
    };
    let inside = tree_found(code, known, around, body, at + 1, 0)?;
    let leave = instr_at(code, inside.next)?;
    stayed(owner, monitor, enter, leave, &inside)
}

/// The monitor and the body of a tree that is one Stay.
pub fn only_stay(tree: SegBytes<'_>) -> Option<(u16, SegBytes<'_>)>
    ensures { MatchOption result (stays_of (tree_in tree.entry) ≡ None)
        (λ x. tree_in tree.entry ≡ Cons (Stay x.0 (tree_in x.1)) Nil) }
{
    let (item, rest) = tree.split_first()?;
    if rest.split_first().is_some() {
        return None;
    }
    match item {
        SegItem::Stay(monitor, body) => Some((monitor, body)),
        _ => None,
    }
}

/// The code of an entry, which is one Stay.
pub fn entry_found(
    code: &[Instr],
    known: &[RoutineCost],
    owner: u16,
    tree: SegBytes<'_>,
    at: usize,
) -> Option<PartCost>
    requires { at ≤ length code.now }
    ensures value { told_part result ≡ hold (entry code.now (map known_of known.now) owner
        (tree_in tree.entry) at) }
    ensures ends { IfSome result (λ f. EndsAt code.now (at + size (tree_in tree.entry)) f.found) }
    ensures stay { IfSome result (λ f. f.stay ≡
        cap ((found_or_nothing (entry code.now (map known_of known.now) owner
        (tree_in tree.entry) at)).cost.run - 5)) }
{
    let (monitor, body) = only_stay(tree)?;
    stay_found(code, known, owner, monitor, body, at)
}

/// The code of a part: that of an entry where a monitor is named.
pub fn part_tree_found(
    code: &[Instr],
    known: &[RoutineCost],
    monitor: Option<u16>,
    tree: SegBytes<'_>,
    at: usize,
) -> Option<PartCost>
    requires { at ≤ length code.now }
    ensures value { told_part result ≡ hold (part_tree code.now (map known_of known.now) monitor
        (tree_in tree.entry) at) }
    ensures ends { IfSome result (λ f. EndsAt code.now (at + size (tree_in tree.entry)) f.found) }
    ensures stay { IfSome result (λ f. f.stay ≡
        cap (stay_in monitor (part_tree code.now (map known_of known.now) monitor
        (tree_in tree.entry) at))) }
{
    match monitor {
        Some(owner) => entry_found(code, known, owner, tree, at),
        None => {
            let around = CodeContext {
                out: None,
                held: None,
            };
            let found = tree_found(code, known, around, tree, at, 0)?;
            Some(PartCost { found, stay: 0 })
        }
    }
}

/// Whether a tree has more bytes than any tree of code of this length: at most five for each
/// instruction, besides its count.
fn is_too_long(code: &[Instr], tree: &SegTree) -> bool
    ensures { IsTrue result → 5 * length code.now + 4 < length (tree_bytes tree.now) }
{
    tree.bytes().len().saturating_sub(4) / 5 > code.len()
}

/// The monitor of an entry.
fn monitor_of(routine: &RawRoutine) -> Option<u16>
    ensures { result ≡ owner_of (routine_of routine.now) }
{
    if routine.kind == 2 {
        Some(routine.owner)
    } else {
        None
    }
}

/// The code of a routine up to its RET or RETV.
pub fn routine_found(
    code: &[Instr],
    known: &[RoutineCost],
    routine: &RawRoutine,
) -> Option<PartCost>
    requires { routine.now.start ≤ length code.now }
    ensures value { told_part result ≡ hold (defined_routine code.now (map known_of known.now)
        (routine_of routine.now)) }
    ensures ends { IfSome result (λ f. EndsAt code.now
        (routine.now.start + size routine.now.tree) f.found) }
    ensures within { IfSome result (λ f. f.found.next < length code.now) }
    ensures stay { IfSome result (λ f. f.stay ≡
        cap (stay_in (owner_of (routine_of routine.now))
        (defined_routine code.now (map known_of known.now) (routine_of routine.now)))) }
{
    if is_too_long(code, &routine.tree) {
        return None;
    }
    let part = part_tree_found(
        code,
        known,
        monitor_of(routine),
        routine.tree.view(),
        routine.start as usize,
    )?;
    let last = instr_at(code, part.found.next)?;
    if !is_return(Some(last), routine.result) || part.found.height != results(routine.result) {
        return None;
    }
    Some(part)
}

/// The code of the body or the handler of a process up to its END.
pub fn part_found(
    code: &[Instr],
    known: &[RoutineCost],
    tree: &SegTree,
    at: usize,
) -> Option<CodeCost>
    requires { at ≤ length code.now }
    ensures value { told result ≡ hold (defined_part code.now (map known_of known.now)
        tree.now at) }
    ensures ends { IfSome result (EndsAt code.now (at + size tree.now)) }
    ensures within { IfSome result (λ f. f.next < length code.now) }
{
    if is_too_long(code, tree) {
        return None;
    }
    let PartCost { found, .. } = part_tree_found(code, known, None, tree.view(), at)?;
    let last = instr_at(code, found.next)?;
    if !is_end(Some(last)) || found.height != 0 {
        return None;
    }
    Some(found)
}
