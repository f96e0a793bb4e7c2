//! An image as it stands in a file: its names, its declared numbers and its code.

ghost use Rattle.std.specs.Prelude.{◌≡◌};

use crate::names::ImageNames;
use image_format::SegTree;
use machine_isa::Instr;
use syntax_tree::{List, Name};

/// A monitor: its words are those from `base` on, in the one area of all monitors. The ceiling is
/// the highest rank that enters it, or 65535 where no process does.
#[derive(Drop)]
pub struct RawMonitor {
    pub base: u32,
    pub words: u32,
    pub ceiling: u16,
}

/// A routine. Its kind is 0 for one of the program, 1 for one of a process, 2 for an entry of a
/// monitor; the owner is the number of that process or monitor. `run`, `susp` and `stay` are in
/// ticks, `locals` in words, `start` is the address of its first instruction.
#[derive(Drop)]
pub struct RawRoutine {
    pub kind: u8,
    pub owner: u16,
    pub params: u16,
    pub locals: u32,
    pub result: bool,
    pub start: u32,
    pub run: u32,
    pub susp: u32,
    pub waits: u32,
    pub stay: u32,
    pub tree: SegTree,
}

/// A process. Its kind is 0 for a periodic one, 1 for one that an event releases. Ranks go from 1,
/// which is the highest. `frame`, `deadline`, `first`, `run`, `susp`, `block` and `bound` are in
/// ticks; an activation has to end within its deadline, at most the frame. `words` are its data
/// words; `start` and `handler` are addresses; `numbers` are those that its handler takes, and
/// `handler_tree` is there exactly where these are.
#[derive(Drop)]
pub struct RawProcess {
    pub kind: u8,
    pub frame: u32,
    pub deadline: u32,
    pub first: u32,
    pub event: u16,
    pub rank: u16,
    pub run: u32,
    pub susp: u32,
    pub waits: u32,
    pub block: u32,
    pub bound: u32,
    pub words: u32,
    pub stack: u32,
    pub locals: u32,
    pub start: u32,
    pub handler: u32,
    pub numbers: List<u16>,
    pub body: SegTree,
    pub handler_tree: Option<SegTree>,
}

/// An image. Monitors, routines and processes stand in the order of their numbers, from 0. The
/// overhead is the ticks of one dispatch.
#[derive(Drop)]
pub struct RawImage {
    pub overhead: u16,
    pub program: Name,
    pub names: ImageNames,
    pub monitors: List<RawMonitor>,
    pub routines: List<RawRoutine>,
    pub processes: List<RawProcess>,
    pub code: List<Instr>,
}

impl RawImage {
    /// The names of its parts.
    pub fn names(&self) -> &ImageNames
        ensures { result.now ≡ self.now.names }
    {
        &self.names
    }
}
