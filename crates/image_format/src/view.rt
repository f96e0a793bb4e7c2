//! Trees and segments as views of bytes.

ghost use Rattle.std.specs.Prelude.{IsOk};
ghost use Rattle.image_format.specs.Rows.{row_read};

use crate::Limits;

/// Segments one after the other, as the bytes tell them.
#[derive(Clone, Copy)]
pub struct SegBytes<'a> {
    /// Within what its numbers are.
    pub(crate) limits: Limits,
    /// How deep inner trees nest at most.
    pub(crate) depth: u64,
    /// How many segments stand side by side.
    pub(crate) count: u32,
    /// The bytes from the first of them on.
    pub(crate) bytes: &'a [u8],
    ghost are_read: { IsOk (row_read limits depth count bytes.now) },
}

/// A segment, with a view of each inner tree.
#[derive(Clone, Copy)]
pub enum SegItem<'a> {
    /// So many instructions that go on to the next one, with no call and no monitor left or
    /// entered.
    Line(u32),
    /// A choice: JZ to the second tree, the first tree, JMP behind the second, the second tree.
    Fork(SegBytes<'a>, SegBytes<'a>),
    /// So many turns of a tree: REPS, the tree, REP to its start.
    Rep(u32, SegBytes<'a>),
    /// The call of a routine.
    Call(u16),
    /// The body of an entry: ENTER of a monitor, the tree, LEAVE of it.
    Stay(u16, SegBytes<'a>),
    /// WAIT, and REENT of the condition's monitor.
    Wait,
    /// EXIT to the end of the innermost turn.
    Exit,
}
