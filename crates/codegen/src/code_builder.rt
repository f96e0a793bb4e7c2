//! What the generator has made so far.

ghost use Rattle.std.specs.Prelude.{◌≡◌, ◌<◌, ◌+◌, ◌^◌, [], pos, length, OnOk, IfOk};
ghost use Rattle.machine_isa.specs.declared.instr.Instr.TheVariants as i;
ghost use Rattle.codegen_spec.specs.Parts.{opened, part_of};
ghost use Rattle.codegen_spec.specs.Made.{aim as aim_of, aim_one as aim_one_of, aimed, aims, begun, closed, counted, joined, line_of, patched, push as pushed};

use crate::errors::tri;
use codegen_spec::Part;
use image_format::{Seg, Segs};
use machine_isa::Instr;
use out_of_memory::OutOfMemory;
use std::alloc::Global;
use std::marker::Model;

/// The code so far, the segments that are closed, where the line began that is still open, and the
/// word of the frame for the next loop. 128 bits tell the word: each loop has instructions of its
/// own, and a part begins at a word far below 2^127.
#[derive(Drop)]
pub struct CodeBuilder {
    pub alloc: Global,
    pub code: Vec<Instr>,
    pub segs: Segs,
    pub from: usize,
    pub word: u128,
}

impl Model for CodeBuilder {
    ghost use Rattle.codegen_spec.specs.Made.{Out as Made};
    ghost use Rattle.std.specs.Coded.{codes};
    ghost use Rattle.image_format.specs.contracts.seg.Seg as seg;

    ghost Value = { Made };

    ghost coded = { Prim.hlevel (codes, seg.the_row.coded) };

    ghost view = { λ o. record { code = o.code.items; segs = o.segs; from = o.from; word = o.word } };

    ghost use Rattle.std.specs.Prelude.{◌≤◌, ◌+◌, ◌^◌, length};

    ghost invariant = { λ o. o.word ≤ 2 ^ 127 + length o.code.items };
}

impl CodeBuilder {
    pub fn new(alloc: Global, word: u128) -> CodeBuilder
        requires { word < 2 ^ 127 }
        ensures { result ≡ record { code = []; segs = []; from = 0; word = word } }
    {
        CodeBuilder {
            alloc,
            code: Vec::new(alloc),
            segs: Segs::new(alloc),
            from: 0,
            word,
        }
    }

    /// One more instruction of the open line.
    pub fn push(&mut self, instr: Instr) -> Result<(), OutOfMemory>
        ensures { OnOk result (self.new ≡ pushed self.old instr) }
    {
        self.code.push(instr)?;
        Ok(())
    }

    pub fn patch(&mut self, at: usize, instr: Instr)
        ensures { self.new ≡ patched self.old at instr }
    {
        codegen_branches::patch(&mut self.code, at, instr);
    }

    /// The word for a loop's variable is taken, which has an instruction of its own.
    pub fn count(&mut self)
        requires { self.old.word < 2 ^ 127 + length self.old.code }
        ensures { self.new ≡ counted self.old }
    {
        self.word += 1;
    }

    /// Takes the segments, with the open line; a part of the code with segments of its own begins.
    pub fn take(&mut self) -> Result<Segs, OutOfMemory>
        ensures out { OnOk result (self.new ≡ begun self.old) }
        ensures segs { IfOk result (λ segs. segs ≡ closed self.old) }
    {
        let mut segs = std::mem::replace(&mut self.segs, Segs::new(self.alloc));
        let count = self.code.len().saturating_sub(self.from);
        if count > 0 {
            tri!(segs.push(Seg::Line(u32::try_from(count).unwrap_or(u32::MAX))));
        }
        self.from = self.code.len();
        Ok(segs)
    }

    /// A part of the code with segments of its own begins.
    pub fn begin(&mut self)
        ensures { self.new ≡ begun self.old }
    {
        self.segs = Segs::new(self.alloc);
        self.from = self.code.len();
    }

    /// A segment behind those that were taken, where the code stands now.
    pub fn join(&mut self, before: Segs, seg: Seg) -> Result<(), OutOfMemory>
        ensures { OnOk result (self.new ≡ joined self.old before seg) }
    {
        self.segs = before;
        self.from = self.code.len();
        self.segs.push(seg)
    }

    /// The address of the next instruction.
    pub fn address(&self) -> usize
        ensures { result ≡ length self.now.code }
    {
        self.code.len()
    }

    /// The instructions so far.
    pub fn as_slice(&self) -> &[Instr]
        ensures { result.now ≡ self.now.code }
    {
        self.code.as_slice()
    }

    /// A part of the program begins; its first loop has its variable at this word of the frame.
    pub fn begin_part(&mut self, word: u128)
        requires { word < 2 ^ 127 }
        ensures { self.new ≡ opened word self.old.code }
    {
        self.begin();
        self.word = word;
    }

    /// A part of the program ends, which began at an address; its last instruction stands outside
    /// its tree.
    pub fn end_part(&mut self, start: usize, last: Instr) -> Result<Part, OutOfMemory>
        ensures out { OnOk result (self.new ≡ pushed (begun self.old) last) }
        ensures part { IfOk result (λ part. part ≡ part_of start self.old (pushed self.old last)) }
    {
        let tree = tri!(self.take());
        tri!(self.push(last));
        Ok(Part {
            start,
            end: self.address(),
            tree,
        })
    }
}
