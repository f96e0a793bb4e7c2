//! The code of a program, with what it consists of.

use image_format::Segs;
use machine_isa::Instr;
use syntax_tree::List;

/// A part of the code: from the address of its first instruction to the one behind its last, with
/// its segment tree.
///
/// The tree leaves out what ends the part: the return of a routine, or END.
#[derive(Debug, Drop)]
pub struct Part {
    pub start: usize,
    pub end: usize,
    pub tree: Segs,
}

/// The body of a process and its handler, if it has one.
#[derive(Drop)]
pub struct ProcessParts {
    pub body: Part,
    pub handler: Option<Part>,
}

/// The code of a program: all routines and entries in the order of their numbers, then all
/// processes in the order of the text.
#[derive(Drop)]
pub struct Code {
    pub instrs: List<Instr>,
    pub routines: List<Part>,
    pub processes: List<ProcessParts>,
}
