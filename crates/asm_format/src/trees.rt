//! The lines of segment trees.

ghost use Rattle.std.specs.Prelude.{◌≡◌, ◌++◌, OnOk};
ghost use Rattle.image_format.specs.View.{view, views};
ghost use Rattle.asm_format.specs.TreeText.{seg_text, segs_text, tree_line};

use crate::numbers::put_field;
use image_format::{Seg, SegTree};
use out_of_memory::OutOfMemory;
use std::alloc::Global;
use syntax_tree::Text;

/// Puts a segment: its name, its number and its trees between parentheses.
#[cycle(trees)]
fn put_seg(text: &mut Text, seg: &Seg) -> Result<(), OutOfMemory>
    ensures { OnOk result (text.new ≡ text.old ++ seg_text (view seg.now)) }
{
    match seg {
        Seg::Line(count) => put_field(text, b" line ", *count)?,
        Seg::Fork(arms) => {
            text.extend(b" fork (")?;
            put_segs(text, arms.get().first.as_slice())?;
            text.extend(b" ) (")?;
            put_segs(text, arms.get().second.as_slice())?;
            text.extend(b" )")?;
        }
        Seg::Rep(turns) => {
            put_field(text, b" rep ", turns.get().count)?;
            text.extend(b" (")?;
            put_segs(text, turns.get().body.as_slice())?;
            text.extend(b" )")?;
        }
        Seg::Call(routine) => put_field(text, b" call ", u32::from(*routine))?,
        Seg::Stay(inside) => {
            put_field(text, b" stay ", u32::from(inside.get().monitor))?;
            text.extend(b" (")?;
            put_segs(text, inside.get().body.as_slice())?;
            text.extend(b" )")?;
        }
        Seg::Wait => text.extend(b" wait")?,
        Seg::Exit => text.extend(b" exit")?,
    }
    Ok(())
}

/// Puts segments one after the other.
#[cycle(trees)]
fn put_segs(text: &mut Text, segs: &[Seg]) -> Result<(), OutOfMemory>
    ensures { OnOk result (text.new ≡ text.old ++ segs_text (views segs.now)) }
{
    for seg in segs {
        put_seg(text, seg)?;
    }
    Ok(())
}

/// Puts the line of a tree. Its segments are taken apart first, and go with the line.
pub fn put_tree(alloc: Global, text: &mut Text, tree: &SegTree) -> Result<(), OutOfMemory>
    ensures { OnOk result (text.new ≡ text.old ++ tree_line tree.now) }
{
    let segs = tree.segs(alloc)?;
    text.extend(b"tree")?;
    put_segs(text, segs.as_slice())?;
    text.extend(b"\n")?;
    Ok(())
}
