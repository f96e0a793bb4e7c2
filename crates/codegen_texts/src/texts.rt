//! All texts of a program.

ghost use Rattle.std.specs.Prelude.{◌≡◌, ◌<◌, Some, length, slice_get};
ghost use Rattle.syntax_tree.specs.Plain.{Process as PlainProcess};
ghost use Rattle.syntax_tree.specs.Placed.{placed, placed_process, placed_routine, plain, plain_process, plain_routine};
ghost use Rattle.source_semantics.specs.Names.{processes as processes_of};
ghost use Rattle.code_spec.specs.Layout.{routine_vars_words};
ghost use Rattle.code_spec.specs.Numbering.{Text, numbered};
ghost use Rattle.code_spec.specs.Compiled.{process_scope, routine_scope};

use crate::text::{ProcessText, RoutineText};
use codegen_spec::{Lookup, Lookups};
use std::marker::Model;
use syntax_tree::{Process, Program, Routine};

/// The texts of a program, each with the names that it sees: its routines and entries by their
/// numbers, and its processes in the order of the text. Contracts see it as the program.
#[derive(Drop)]
pub struct Texts<'a, N: Lookup> {
    pub(crate) program: &'a Program,
    pub(crate) routines: Vec<RoutineText<'a, N>>,
    pub(crate) processes: Vec<ProcessText<'a, N>>,
}

impl<'a, N: Lookup> Model for Texts<'a, N> {
    ghost use Rattle.std.specs.Prelude.{map};
    ghost use Rattle.std.specs.Coded.{codes};
    ghost use Rattle.syntax_tree.specs.declared.decl.Program.{Program as Tree};
    ghost use Rattle.syntax_tree.specs.contracts.decl.Program as tree;
    ghost use Rattle.syntax_tree.specs.Placed.{placed, plain};
    ghost use Rattle.codegen_texts.specs.Texts.{AreTexts, told_process, told_routine};

    ghost Value = { Tree };

    ghost coded = { Prim.hlevel (codes, tree.the_row.coded) };

    ghost view = { λ t. t.program.now };

    ghost invariant = { λ t.
        AreTexts (plain (placed t.program.now)) (map (told_routine N.program N.scope) t.routines.items)
        (map (told_process N.program N.scope) t.processes.items) };
}

impl<'a, N: Lookup> Texts<'a, N> {
    fn routine_text(&self, number: usize) -> &RoutineText<'a, N>
        requires { number < length (numbered (plain (placed self.now))) }
        ensures routine { (t : Text) → slice_get (numbered (plain (placed self.now))) number ≡
            Some t → plain_routine (placed_routine result.now.routine.now) ≡ t.routine }
        ensures words { (t : Text) → slice_get (numbered (plain (placed self.now))) number ≡
            Some t → result.now.words ≡ routine_vars_words (plain (placed self.now)) t.routine }
        ensures program { N.program result.now.names ≡ plain (placed self.now) }
        ensures scope { (t : Text) → slice_get (numbered (plain (placed self.now))) number ≡
            Some t → N.scope result.now.names ≡ routine_scope (plain (placed self.now)) t }
    {
        &self.routines[number]
    }

    fn process_text(&self, number: usize) -> &ProcessText<'a, N>
        requires { number < length (processes_of (plain (placed self.now))) }
        ensures process { (p : PlainProcess) → slice_get
            (processes_of (plain (placed self.now))) number ≡ Some p →
            plain_process (placed_process result.now.process.now) ≡ p }
        ensures program { N.program result.now.names ≡ plain (placed self.now) }
        ensures scope { (p : PlainProcess) → slice_get (processes_of (plain (placed self.now))) number ≡
            Some p → N.scope result.now.names ≡ process_scope (plain (placed self.now)) number p }
    {
        &self.processes[number]
    }
}

impl<'a, N: Lookup> Lookups for Texts<'a, N> {
    type Names = N;

    ghost program = { λ t. plain (placed t) };

    fn routines(&self) -> usize {
        self.routines.len()
    }

    fn routine(&self, number: usize) -> &Routine {
        self.routine_text(number).routine
    }

    fn words(&self, number: usize) -> u128 {
        self.routine_text(number).words
    }

    fn routine_names(&self, number: usize) -> &N {
        &self.routine_text(number).names
    }

    fn processes(&self) -> usize {
        self.processes.len()
    }

    fn process(&self, number: usize) -> &Process {
        self.process_text(number).process
    }

    fn process_names(&self, number: usize) -> &N {
        &self.process_text(number).names
    }
}
