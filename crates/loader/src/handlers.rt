//! Handlers.

ghost use Rattle.std.specs.Prelude.{◌≡◌, IfOk, map, nat_eq, slice_get};
ghost use Rattle.image.specs.Raw.{image_of, process_of};
ghost use Rattle.image_format.specs.Stands.{item_in, tree_in};
ghost use Rattle.valid_image.specs.Shape.{handler_fault as defined_fault};
ghost use Rattle.valid_image.specs.Tables.{handler_start, seg_waits as segment_waits, tree_waits as trees_wait, waits_at as row_waits};
ghost use Rattle.loader_code.specs.Told.{told as shown};
ghost use Rattle.loader.specs.Waits.{AreWaits, bare};
ghost use Rattle.loader.specs.Handlers.{is_right};

use image::{RawImage, RawProcess};
use image_format::{SegBytes, SegItem};
use loader_code::{FaultNumbers, tree_end};
use out_of_memory::OutOfMemory;
use std::alloc::Global;
use syntax_tree::List;

/// Whether a routine reaches a WAIT; none does that is not in the table.
fn waits_at(waits: &[bool], routine: usize) -> bool
    ensures { result ≡ row_waits (map bare waits.now) routine }
{
    match waits.get(routine) {
        Some(waits) => *waits,
        None => false,
    }
}

/// Whether a segment reaches a WAIT, by itself or through the routines that it calls.
#[cycle(waits)]
fn item_waits(waits: &[bool], item: &SegItem<'_>) -> bool
    ensures { result ≡ segment_waits (map bare waits.now) (item_in item.now) }
{
    match item {
        SegItem::Line(_) | SegItem::Exit => false,
        SegItem::Wait => true,
        SegItem::Call(routine) => waits_at(waits, *routine as usize),
        SegItem::Rep(_, body) | SegItem::Stay(_, body) => tree_waits(waits, *body),
        SegItem::Fork(first, second) => tree_waits(waits, *first) || tree_waits(waits, *second),
    }
}

/// Whether a tree does.
#[cycle(waits)]
pub fn tree_waits(waits: &[bool], tree: SegBytes<'_>) -> bool
    ensures { result ≡ trees_wait (map bare waits.now) (tree_in tree.entry) }
{
    let mut rest = tree;
    while let Some((item, after)) = rest.split_first() {
        if item_waits(waits, &item) {
            return true;
        }
        rest = after;
    }
    false
}

/// Which routines reach a WAIT, from below: each by those before it.
pub fn waits_table(alloc: Global, raw: &RawImage) -> Result<List<bool>, OutOfMemory>
    ensures { IfOk result (λ waits. AreWaits raw.now waits) }
{
    let mut waits = List::new(alloc);
    for routine in raw.routines.as_slice() {
        let next = tree_waits(waits.as_slice(), routine.tree.view());
        waits.push(next)?;
    }
    Ok(waits)
}

/// Whether the handler of a process is declared right behind the END of its body.
fn follows_body(process: &RawProcess) -> bool
    ensures { result ≡ nat_eq process.now.handler (handler_start (process_of process.now)) }
{
    if process.handler < process.start {
        return false;
    }
    match tree_end(
        process.body.view(),
        process.start as usize,
        process.handler as usize,
    ) {
        Some(end) => process.handler as usize == end + 1,
        None => false,
    }
}

/// Whether a handler, where there is one, is where it belongs and reaches no WAIT.
fn is_handler(waits: &[bool], process: &RawProcess) -> bool
    ensures { result ≡ is_right (map bare waits.now) (process_of process.now)
        process.now.handler_tree }
{
    match &process.handler_tree {
        None => true,
        Some(tree) => follows_body(process) && !tree_waits(waits, tree.view()),
    }
}

/// The first process whose handler does not stand right behind the END of its body, or reaches a
/// WAIT.
pub fn handler_fault(raw: &RawImage, waits: &[bool]) -> Option<FaultNumbers>
    requires { AreWaits raw.now waits.now }
    ensures { shown result ≡ defined_fault (image_of raw.now) }
{
    for (k, process) in raw.processes.as_slice().iter().enumerate() {
        if !is_handler(waits, process) {
            return Some(FaultNumbers { a: k as u64, b: 0 });
        }
    }
    None
}
