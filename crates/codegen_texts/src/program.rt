//! What the texts of a program share.

ghost use Rattle.std.specs.Prelude.{◌≡◌, IfOk, pos};
ghost use Rattle.std.specs.Option.{option_copied};
ghost use Rattle.syntax_tree.specs.Plain.{Name as SpecName};
ghost use Rattle.syntax_tree.specs.Placed.{placed, plain};
ghost use Rattle.code_spec.specs.Emits.{condition_of};
ghost use Rattle.code_spec.specs.Layout.{outer_spot};
ghost use Rattle.code_spec.specs.Numbering.{entry_in, routine_in};
ghost use Rattle.codegen_spec.specs.Told.{fit, told_callee, told_spot};
ghost use Rattle.code_names.proofs.NameListTable.{get_some};
ghost use Rattle.code_names.specs.Parts.{all_texts};
ghost use Rattle.code_names.specs.Texts.{owner_of, text_of, text_index};
ghost use Rattle.code_layout.specs.LookupTables.{outer_in};
ghost use Rattle.codegen_texts.specs.Shared.{AreNames, callees_told};

use crate::callees::callees;
use crate::conditions::{Conditions, condition_number, program_conditions};
use crate::outer::{OuterLocations, outer_spots};
use code_layout::{Tables, VarLocations};
use code_names::{Body, Numbering, RoutineOwner};
use codegen_spec::Callee;
use out_of_memory::OutOfMemory;
use std::alloc::Global;
use std::marker::Model;
use syntax_tree::{Name, Program};

/// The names of a program that all its texts share: constants, devices, callees, the variables of
/// processes and monitors, and the conditions.
pub struct ProgramNames<'a> {
    tables: Tables<'a>,
    shared: SharedNames<'a>,
}

impl<'a> Model for ProgramNames<'a> {
    ghost use Rattle.std.specs.Coded.{codes};
    ghost use Rattle.syntax_tree.specs.declared.decl.Program.{Program as Tree};
    ghost use Rattle.syntax_tree.specs.contracts.decl.Program as tree;
    ghost use Rattle.codegen_texts.specs.Shared.{AreNames};

    ghost Value = { Tree };

    ghost coded = { Prim.hlevel (codes, tree.the_row.coded) };

    ghost view = { λ n. n.tables };

    ghost invariant = { λ n. AreNames n.tables n.shared.callees.items n.shared.outer.processes.items n.shared.outer.monitors.items n.shared.conditions.lists.items n.shared.conditions.count };
}

/// By hand, so that whoever lets the names go has one call to prove, and not their parts.
impl Drop for ProgramNames<'_> {
    fn drop(self) {
        let ProgramNames { tables, shared } = self;
        drop(tables);
        drop(shared);
    }
}

/// What the texts of a program share beside its tables.
#[derive(Drop)]
struct SharedNames<'a> {
    callees: Vec<Callee>,
    outer: OuterLocations<'a>,
    conditions: Conditions<'a>,
}

/// What the texts share beside these tables.
fn shared_names<'a>(alloc: Global, tables: &Tables<'a>) -> Result<SharedNames<'a>, OutOfMemory>
    ensures { IfOk result (λ s. AreNames tables.now s.callees.items s.outer.processes.items
        s.outer.monitors.items s.conditions.lists.items s.conditions.count) }
{
    let callees = callees(alloc, tables)?;
    let conditions = program_conditions(alloc, tables)?;
    let outer = outer_spots(alloc, tables)?;
    Ok(SharedNames {
        callees,
        outer,
        conditions,
    })
}

impl<'a> ProgramNames<'a> {
    /// Goes once through the text of the program.
    pub fn new(alloc: Global, program: &'a Program) -> Result<ProgramNames<'a>, OutOfMemory>
        ensures { IfOk result (λ n. n ≡ program.now) }
    {
        let tables = Tables::new(alloc, program)?;
        let shared = shared_names(alloc, &tables)?;
        Ok(ProgramNames { tables, shared })
    }

    /// The constants, devices and routines.
    pub fn tables(&self) -> &Tables<'a>
        ensures { result.now ≡ self.now }
    {
        &self.tables
    }

    /// The routines by number.
    pub fn numbering(&self) -> &Numbering<'a>
        ensures { result.now ≡ self.now }
    {
        self.tables.numbering()
    }

    /// The variables of a process, if there is one of that number.
    fn of_process(&self, number: usize) -> Option<&VarLocations<'a>>
        ensures { (x : SpecName) → outer_in result x ≡
            told_spot (outer_spot (plain (placed self.now)) (owner_of (RoutineOwner.Process number)) x) }
    {
        self.shared.outer.processes.get(number)
    }

    /// The variables of a monitor, if there is one of that number.
    fn of_monitor(&self, number: usize) -> Option<&VarLocations<'a>>
        ensures { (x : SpecName) → outer_in result x ≡
            told_spot (outer_spot (plain (placed self.now)) (owner_of (RoutineOwner.Monitor number)) x) }
    {
        self.shared.outer.monitors.get(number)
    }

    /// The variables that a text of the owner names beside those of its frame.
    pub fn outer(&self, owner: RoutineOwner) -> Option<&VarLocations<'a>>
        ensures { (x : SpecName) → outer_in result x ≡
            told_spot (outer_spot (plain (placed self.now)) (owner_of owner) x) }
    {
        match owner {
            RoutineOwner::Program => None,
            RoutineOwner::Process(number) => self.of_process(number),
            RoutineOwner::Monitor(number) => self.of_monitor(number),
        }
    }

    /// The number of a condition that a text of the monitor of that number names.
    fn condition_in(&self, number: usize, name: &Name) -> i32
        ensures { result ≡ fit (pos (condition_of (plain (placed self.now))
            (owner_of (RoutineOwner.Monitor number)) name.now)) }
    {
        condition_number(&self.shared.conditions, number, name)
    }

    /// The number of a condition that a text of the owner names, which is that of a monitor.
    pub fn condition(&self, owner: RoutineOwner, name: &Name) -> i32
        ensures { result ≡ fit (pos (condition_of (plain (placed self.now))
            (owner_of owner) name.now)) }
    {
        match owner {
            RoutineOwner::Program | RoutineOwner::Process(_) => 0,
            RoutineOwner::Monitor(number) => self.condition_in(number, name),
        }
    }

    /// The callee of the first text of the owner and name of this one.
    fn callee(&self, text: Body<'_>) -> Option<&Callee>
        ensures { option_copied result ≡ get_some (callees_told (plain (placed self.now)))
            (text_index (owner_of text.entry.owner) text.entry.routine.now.name
            (all_texts (plain (placed self.now)))) }
    {
        let texts = self.numbering().directory().texts();
        match texts.index(text.owner, &text.routine.name) {
            Some(index) => self.shared.callees.get(index),
            None => None,
        }
    }

    /// The routine that a call in a text of the owner names; `None` where it names none.
    pub fn routine(&self, owner: RoutineOwner, name: &Name) -> Option<&Callee>
        ensures { option_copied result ≡ told_callee (plain (placed self.now))
            (routine_in (plain (placed self.now)) (owner_of owner) name.now) }
    {
        match self.numbering().directory().routine(owner, name) {
            Some(text) => self.callee(text),
            None => None,
        }
    }

    /// The entry that a call names, of the monitor that it names; `None` where it names none.
    pub fn entry(&self, monitor: &Name, name: &Name) -> Option<&Callee>
        ensures { option_copied result ≡ told_callee (plain (placed self.now))
            (entry_in (plain (placed self.now)) monitor.now name.now) }
    {
        match self.numbering().directory().entry(monitor, name) {
            Some(text) => self.callee(text),
            None => None,
        }
    }
}
