//! Segment trees at the end of a buffer. After an error the buffer may hold a part of one.
//!
//! How deep a tree may nest is never met: each level puts four bytes before the next, and a buffer
//! has fewer than 2^64.

ghost use Rattle.std.specs.Prelude.{◌≡◌, ◌≤◌, ◌+◌, ◌*◌, ◌^◌, ◌++◌, true, OnOk, length};
ghost use Rattle.image_format.specs.View.{view, views};
ghost use Rattle.image_format.specs.TreeBytes.{InnerRowsFit, RowsFit, seg_bytes, tree_bytes};
ghost use Rattle.image_format.specs.TreeFormat.{seg_is, widest, within_limits};
ghost use Rattle.image_format.specs.Whole.{any_tree};

use crate::{Seg, put_u8, put_u16, put_u32};
use out_of_memory::OutOfMemory;

/// Puts a segment: its tag, its numbers and its trees, which nest at most so deep.
#[cycle(trees)]
fn put_seg(out: &mut Vec<u8>, depth: u64, seg: &Seg) -> Result<(), OutOfMemory>
    requires rows { InnerRowsFit (view seg.now) }
    requires room { 2 ^ 64 ≤ 4 * depth + length out.now.items }
    ensures written { OnOk result (out.new.items ≡ out.old.items ++ seg_bytes (view seg.now)) }
    ensures fits { OnOk result (seg_is (within_limits widest) (any_tree depth) (view seg.now) ≡
        true) }
{
    match seg {
        Seg::Line(count) => {
            put_u8(out, 1)?;
            put_u32(out, *count)?;
        }
        Seg::Fork(arms) => {
            put_u8(out, 2)?;
            put_tree(out, depth, arms.get().first.as_slice())?;
            put_tree(out, depth, arms.get().second.as_slice())?;
        }
        Seg::Rep(turns) => {
            put_u8(out, 3)?;
            put_u32(out, turns.get().count)?;
            put_tree(out, depth, turns.get().body.as_slice())?;
        }
        Seg::Call(routine) => {
            put_u8(out, 4)?;
            put_u16(out, *routine)?;
        }
        Seg::Stay(inside) => {
            put_u8(out, 5)?;
            put_u16(out, inside.get().monitor)?;
            put_tree(out, depth, inside.get().body.as_slice())?;
        }
        Seg::Wait => put_u8(out, 6)?,
        Seg::Exit => put_u8(out, 7)?,
    }
    Ok(())
}

/// Puts a tree: the number of its segments, and each of them.
#[cycle(trees)]
pub(crate) fn put_tree(out: &mut Vec<u8>, depth: u64, tree: &[Seg]) -> Result<(), OutOfMemory>
    requires rows { RowsFit (views tree.now) }
    requires room { 2 ^ 64 ≤ 4 * depth + length out.now.items }
    ensures written { OnOk result (out.new.items ≡ out.old.items ++ tree_bytes (views tree.now)) }
    ensures fits { OnOk result ((any_tree depth).is (views tree.now) ≡ true) }
{
    let _bytes = out.len();
    let below = depth - 1;
    put_u32(out, tree.len() as u32)?;
    for seg in tree {
        put_seg(out, below, seg)?;
    }
    Ok(())
}
