//! Texts that are put together.

ghost use Rattle.std.specs.Prelude.{◌≡◌, ◌<◌, ◌+◌, ◌^◌, IfOk, OnErr, OnOk, Some, length};
ghost use Rattle.syntax_tree.specs.Placed.{placed, placed_process, placed_routine, plain, plain_process, plain_routine};
ghost use Rattle.source_semantics.specs.Names.{processes as processes_of};
ghost use Rattle.code_spec.specs.Layout.{routine_vars_words};
ghost use Rattle.code_spec.specs.Numbering.{numbered};
ghost use Rattle.code_spec.specs.Compiled.{process_scope, routine_scope};
ghost use Rattle.code_names.specs.Texts.{text_of};
ghost use Rattle.codegen_texts.specs.Texts.{next_process, next_routine, program_of};

use crate::text::{ProcessText, RoutineText};
use crate::texts::Texts;
use code_layout::{ConstantValues, Tables, laid_routine};
use code_names::Body;
use codegen_spec::Lookup;
use out_of_memory::OutOfMemory;
use std::alloc::Global;
use std::marker::Model;
use syntax_tree::{Process, Routine};

/// Takes the texts of a program one by one, each with its names: the routines by their numbers, and
/// the processes in the order of the text. Contracts see the program, and how many are taken.
#[derive(Drop)]
pub struct TextsBuilder<'t, 'a, N: Lookup> {
    tables: &'t Tables<'a>,
    routines: Vec<RoutineText<'a, N>>,
    processes: Vec<ProcessText<'a, N>>,
}

impl<'t, 'a, N: Lookup> Model for TextsBuilder<'t, 'a, N> {
    ghost use Rattle.std.specs.Prelude.{length, map};
    ghost use Rattle.std.specs.Coded.{codes};
    ghost use Rattle.syntax_tree.specs.contracts.decl.Program as tree;
    ghost use Rattle.syntax_tree.specs.Placed.{placed, plain};
    ghost use Rattle.codegen_texts.specs.Texts.{AreFirst, Taken, told_process, told_routine};

    ghost Value = { Taken };

    ghost coded = { Prim.hlevel (codes, tree.the_row.coded) };

    ghost view = { λ b. record { program = b.tables.now; routines = length b.routines.items; processes = length b.processes.items } };

    ghost invariant = { λ b. AreFirst (plain (placed b.tables.now)) (map (told_routine N.program N.scope) b.routines.items) (map (told_process N.program N.scope) b.processes.items) };
}

/// The words of a routine's parameters and variables.
fn words(alloc: Global, values: &ConstantValues<'_>, routine: &Routine) -> Result<u128, OutOfMemory>
    ensures exact { IfOk result (λ words. words ≡ routine_vars_words (plain (placed values.now))
        (plain_routine (placed_routine routine.now))) }
    ensures small { IfOk result (λ words. words < 2 ^ 100) }
{
    let laid = laid_routine(alloc, values, routine)?;
    Ok(laid.word)
}

impl<'t, 'a, N: Lookup + Drop> TextsBuilder<'t, 'a, N> {
    /// No text is taken yet.
    pub fn new(alloc: Global, tables: &'t Tables<'a>) -> TextsBuilder<'t, 'a, N>
        ensures { result ≡ record { program = tables.now; routines = 0; processes = 0 } }
    {
        TextsBuilder {
            tables,
            routines: Vec::new(alloc),
            processes: Vec::new(alloc),
        }
    }

    /// Takes the next routine or entry by number, with its names.
    pub fn routine(&mut self, alloc: Global, text: Body<'a>, names: N) -> Result<(), OutOfMemory>
        requires next { next_routine self.old ≡ Some (text_of text) }
        requires program { N.program names ≡ program_of self.old }
        requires scope { N.scope names ≡ routine_scope (program_of self.old) (text_of text) }
        ensures ok { OnOk result (self.new ≡ record self.old { routines = self.old.routines + 1 }) }
        ensures err { OnErr result (self.new ≡ self.old) }
    {
        let words = words(alloc, self.tables.values(), text.routine)?;
        self.routines.push(RoutineText {
            routine: text.routine,
            words,
            names,
        })?;
        Ok(())
    }

    /// Takes the next process in the order of the text, with its names.
    pub fn process(&mut self, process: &'a Process, names: N) -> Result<(), OutOfMemory>
        requires next { next_process self.old ≡ Some (plain_process (placed_process process.now)) }
        requires program { N.program names ≡ program_of self.old }
        requires scope { N.scope names ≡ process_scope (program_of self.old) self.old.processes
            (plain_process (placed_process process.now)) }
        ensures ok { OnOk result (self.new ≡ record self.old {
          processes = self.old.processes +
              1;
        }) }
        ensures err { OnErr result (self.new ≡ self.old) }
    {
        self.processes.push(ProcessText { process, names })?;
        Ok(())
    }

    /// The texts, once all are taken.
    pub fn finish(self) -> Texts<'a, N>
        requires routines { self.routines ≡ length (numbered (program_of self)) }
        requires processes { self.processes ≡ length (processes_of (program_of self)) }
        ensures { result ≡ self.entry.program }
    {
        Texts {
            program: self.tables.numbering().directory().program(),
            routines: self.routines,
            processes: self.processes,
        }
    }
}
