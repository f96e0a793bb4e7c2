//! The code of a whole program.

ghost use Rattle.std.specs.Prelude.{◌≡◌, ◌<◌, ◌^◌, OnOk, IfOk};
ghost use Rattle.syntax_tree.specs.Placed.{placed_process, placed_routine, plain_process, plain_routine};
ghost use Rattle.source_semantics.specs.Names.{processes as processes_of};
ghost use Rattle.code_spec.specs.Numbering.{numbered};
ghost use Rattle.codegen_spec.specs.Parts.{nothing_made, process_made, processes_made, program_made, routine_made, texts_made};

use crate::CodeBuilder;
use crate::errors::tri;
use crate::part::{handler, return_from, text};
use codegen_spec::{Code, Lookup, Lookups, Part, ProcessParts};
use machine_isa::Instr;
use out_of_memory::OutOfMemory;
use std::alloc::Global;
use std::marker::Model;
use syntax_tree::{List, Process, Routine};

/// What is made so far of a program. Contracts see it as the code that it is.
#[derive(Drop)]
struct Maker {
    out: CodeBuilder,
    routines: List<Part>,
    processes: List<ProcessParts>,
}

impl Model for Maker {
    ghost use Rattle.std.specs.Coded.{codes};
    ghost use Rattle.image_format.specs.contracts.seg.Seg as seg;
    ghost use Rattle.codegen_spec.specs.declared.code.Code.{Code as Made};

    ghost Value = { Made };

    ghost coded = { Prim.hlevel (codes, seg.the_row.coded) };

    ghost view = { λ m. record { instrs = m.out.code; routines = m.routines; processes = m.processes } };
}

/// The instructions as a list.
fn listed(alloc: Global, code: &[Instr]) -> Result<List<Instr>, OutOfMemory>
    ensures { IfOk result (λ list. list ≡ code.now) }
{
    let mut list = List::new(alloc);
    for instr in code {
        tri!(list.push(*instr));
    }
    Ok(list)
}

impl Maker {
    fn new(alloc: Global) -> Maker
        ensures { result ≡ nothing_made }
    {
        Maker {
            out: CodeBuilder::new(alloc, 0),
            routines: List::new(alloc),
            processes: List::new(alloc),
        }
    }

    /// One routine more, whose parameters and variables take so many words.
    fn routine<L: Lookup>(
        &mut self,
        names: &L,
        words: u128,
        routine: &Routine,
    ) -> Result<(), OutOfMemory>
        requires { words < 2 ^ 127 }
        ensures { OnOk result (self.new ≡ routine_made (L.program names.now)
            (L.scope names.now) words (plain_routine (placed_routine routine.now)) self.old) }
    {
        let start = self.out.address();
        self.out.begin_part(words);
        tri!(text(&mut self.out, names, routine));
        let part = tri!(self.out.end_part(start, return_from(routine)));
        self.routines.push(part)
    }

    /// One process more.
    fn process<L: Lookup>(&mut self, names: &L, process: &Process) -> Result<(), OutOfMemory>
        ensures { OnOk result (self.new ≡ process_made (L.program names.now) (L.scope names.now)
            (plain_process (placed_process process.now)) self.old) }
    {
        let start = self.out.address();
        self.out.begin_part(0);
        tri!(self.out.statements(names, process.body.as_slice()));
        let body = tri!(self.out.end_part(start, Instr::End));
        let handler = tri!(handler(&mut self.out, names, &process.handler));
        self.processes.push(ProcessParts { body, handler })
    }

    /// All routines, by number.
    fn routines<P: Lookups>(&mut self, program: &P) -> Result<(), OutOfMemory>
        ensures { OnOk result (self.new ≡ texts_made (P.program program.now)
            (numbered (P.program program.now)) self.old) }
    {
        for number in 0..program.routines() {
            tri!(self.routine(
                program.routine_names(number),
                program.words(number),
                program.routine(number),
            ));
        }
        Ok(())
    }

    /// All processes, in the order of the text.
    fn processes<P: Lookups>(&mut self, program: &P) -> Result<(), OutOfMemory>
        ensures { OnOk result (self.new ≡ processes_made (P.program program.now) 0
            (processes_of (P.program program.now)) self.old) }
    {
        for number in 0..program.processes() {
            tri!(self.process(program.process_names(number), program.process(number)));
        }
        Ok(())
    }

    /// All texts: the routines, and then the processes.
    fn texts<P: Lookups>(&mut self, program: &P) -> Result<(), OutOfMemory>
        ensures { let g = P.program program.now in
            OnOk result (self.new ≡ processes_made g 0 (processes_of g) (texts_made g (numbered g)
            self.old)) }
    {
        tri!(self.routines(program));
        self.processes(program)
    }

    fn finish(self, alloc: Global) -> Result<Code, OutOfMemory>
        ensures { IfOk result (λ code. code ≡ self) }
    {
        let instrs = tri!(listed(alloc, self.out.as_slice()));
        Ok(Code {
            instrs,
            routines: self.routines,
            processes: self.processes,
        })
    }
}

/// The code of a program: all routines and entries by number, then all processes in the order of
/// the text, each with its addresses and trees. It fails only where memory is wanting.
pub fn generate<P: Lookups>(alloc: Global, program: &P) -> Result<Code, OutOfMemory>
    ensures { IfOk result (λ code. code ≡ program_made (P.program program.now)) }
{
    let mut maker = Maker::new(alloc);
    tri!(maker.texts(program));
    maker.finish(alloc)
}
