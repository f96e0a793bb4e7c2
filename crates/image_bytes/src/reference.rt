//! References to routines and processes.

ghost use Rattle.std.specs.Prelude.{IsOk};
ghost use Rattle.image_bytes.specs.Fields.{tree_fields, trees_fields};

use crate::numbers::HandlerNumbers;

/// A routine as it stands in the bytes of an image. Its kind is 0 for one of the program, 1 for one
/// of a process, 2 for an entry of a monitor; the owner is the number of that process or monitor.
/// `run`, `susp` and `stay` are in ticks, `locals` in words, `start` is the address of its first
/// instruction.
#[derive(Clone, Copy)]
pub struct RoutineRef<'a> {
    pub kind: u8,
    pub owner: u16,
    pub params: u16,
    pub locals: u32,
    pub result: bool,
    pub start: u32,
    pub run: u32,
    pub susp: u32,
    pub waits: u32,
    pub stay: u32,
    /// The bytes from its tree on.
    pub(crate) trees: &'a [u8],
    ghost are_read: { IsOk (tree_fields.read trees.now) },
}

/// A process as it stands in the bytes of an image. Its kind is 0 for a periodic one, 1 for one that
/// an event releases. Ranks go from 1, which is the highest. `frame`, `deadline`, `first`, `run`,
/// `susp`, `block` and `bound` are in ticks; an activation has to end within its deadline, at most
/// the frame. `words` are its data words; `start` and `handler` are addresses.
#[derive(Clone, Copy)]
pub struct ProcessRef<'a> {
    pub kind: u8,
    pub frame: u32,
    pub deadline: u32,
    pub first: u32,
    pub event: u16,
    pub rank: u16,
    pub run: u32,
    pub susp: u32,
    pub waits: u32,
    pub block: u32,
    pub bound: u32,
    pub words: u32,
    pub stack: u32,
    pub locals: u32,
    pub start: u32,
    pub handler: u32,
    pub(crate) numbers: HandlerNumbers<'a>,
    /// The bytes from its trees on.
    pub(crate) trees: &'a [u8],
    ghost are_read: { IsOk ((trees_fields numbers.count).read trees.now) },
}
