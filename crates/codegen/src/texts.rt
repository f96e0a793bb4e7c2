//! The code of a program, and what its texts cost, from the program alone.
//!
//! Promised: where there is memory, `generate` makes just the code that `codegen_spec` says of the
//! program (`program_made`), and `measure` gives just the measures that `code_cost` says of it
//! (`measures_of`). `ProgramTexts` makes the texts once, for both.
//!
//! All texts of a program with their names.

ghost use Rattle.std.specs.Prelude.{◌≡◌, IfOk, OnOk, length};
ghost use Rattle.syntax_tree.specs.Placed.{placed, plain};
ghost use Rattle.source_semantics.specs.Names.{processes as processes_of};
ghost use Rattle.code_spec.specs.Numbering.{numbered};
ghost use Rattle.codegen_spec.specs.Parts.{program_made};
ghost use Rattle.code_cost.specs.Parts.{measures_of};

use code_cost::{Measures, measure_program};
use codegen_spec::Code;
use codegen_texts::{Names, ProgramNames, Texts, TextsBuilder};
use out_of_memory::OutOfMemory;
use std::alloc::Global;
use std::marker::Model;

/// All texts of a program, each with the names that it sees. Contracts see them as the program.
#[derive(Drop)]
pub struct ProgramTexts<'p, 'a> {
    texts: Texts<'a, Names<'p, 'a>>,
}

impl<'p, 'a> Model for ProgramTexts<'p, 'a> {
    ghost use Rattle.std.specs.Coded.{codes};
    ghost use Rattle.syntax_tree.specs.declared.decl.Program.{Program as Tree};
    ghost use Rattle.syntax_tree.specs.contracts.decl.Program as tree;

    ghost Value = { Tree };

    ghost coded = { Prim.hlevel (codes, tree.the_row.coded) };

    ghost view = { λ t. t.texts };
}

/// Takes all routines, by number.
fn routines<'p, 'a>(
    alloc: Global,
    names: &'p ProgramNames<'a>,
    builder: &mut TextsBuilder<'p, 'a, Names<'p, 'a>>,
) -> Result<(), OutOfMemory>
    requires program { builder.old.program ≡ names.now }
    requires first { builder.old.routines ≡ 0 }
    ensures { OnOk result (builder.new ≡ record builder.old
        { routines = length (numbered (plain (placed names.now))) }) }
{
    for text in names.numbering().order().as_slice() {
        let own = Names::of_routine(alloc, names, *text)?;
        builder.routine(alloc, *text, own)?;
    }
    Ok(())
}

/// Takes all processes, in the order of the text.
fn processes<'p, 'a>(
    alloc: Global,
    names: &'p ProgramNames<'a>,
    builder: &mut TextsBuilder<'p, 'a, Names<'p, 'a>>,
) -> Result<(), OutOfMemory>
    requires program { builder.old.program ≡ names.now }
    requires first { builder.old.processes ≡ 0 }
    ensures { OnOk result (builder.new ≡ record builder.old
        { processes = length (processes_of (plain (placed names.now))) }) }
{
    let processes = names.numbering().directory().processes();
    for (number, process) in processes.iter().enumerate() {
        let own = Names::of_process(alloc, names, number, process)?;
        builder.process(process, own)?;
    }
    Ok(())
}

impl<'p, 'a> ProgramTexts<'p, 'a> {
    /// Goes once through the texts of the program.
    pub fn new(
        alloc: Global,
        names: &'p ProgramNames<'a>,
    ) -> Result<ProgramTexts<'p, 'a>, OutOfMemory>
        ensures { IfOk result (λ texts. texts ≡ names.now) }
    {
        let mut builder = TextsBuilder::new(alloc, names.tables());
        routines(alloc, names, &mut builder)?;
        processes(alloc, names, &mut builder)?;
        Ok(ProgramTexts {
            texts: builder.finish(),
        })
    }

    /// The code of the program: what the generator makes of it. Only want of memory refuses.
    pub fn generate(&self, alloc: Global) -> Result<Code, OutOfMemory>
        ensures { IfOk result (λ code. code ≡ program_made (plain (placed self.now))) }
    {
        crate::generate(alloc, &self.texts)
    }

    /// What the texts of the program cost, and how large they are. Only want of memory refuses.
    pub fn measure(&self, alloc: Global) -> Result<Measures, OutOfMemory>
        ensures { IfOk result (λ m. m ≡ measures_of (plain (placed self.now))) }
    {
        measure_program(alloc, &self.texts)
    }
}
