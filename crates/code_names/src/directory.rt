//! What the names in calls mean.

ghost use Rattle.std.specs.Prelude.{◌≡◌, IfOk, option_map, map, OnOk, List, ◌++◌};
ghost use Rattle.std.specs.List.{cons_option};
ghost use Rattle.syntax_tree.specs.Placed.{placed, plain};
ghost use Rattle.source_semantics.specs.Names.{monitors as monitors_in, processes as processes_in, routines as routines_in};
ghost use Rattle.code_spec.specs.Numbering.{Text as SpecText, routine_in, routine_of, entry_in, called_text};
ghost use Rattle.code_spec.specs.Layout.{by_program, by_process};
ghost use Rattle.code_names.specs.Calls.{called_of};
ghost use Rattle.code_names.specs.Texts.{owner_of, text_of, texts_of, text_named};
ghost use Rattle.code_names.specs.Parts.{seen_monitors, seen_processes, all_texts, monitor_of, callees_of};

use crate::NameList;
use crate::calls::{Called, routine_calls};
use crate::parts::{ProgramParts, parts_of};
use crate::text::{Body, RoutineOwner};
use crate::text_list::TextList;
use out_of_memory::OutOfMemory;
use std::alloc::Global;
use std::marker::Model;
use syntax_tree::{Monitor, Name, Process, Program};

/// The routines, monitors and processes of a program, in which those that names mean are found at
/// once.
#[derive(Drop)]
pub struct Directory<'a> {
    program: &'a Program,
    parts: ProgramParts<'a>,
    monitor_names: NameList<'a>,
}

impl<'a> Model for Directory<'a> {
    ghost use Rattle.std.specs.Coded.{codes};
    ghost use Rattle.syntax_tree.specs.declared.decl.Program.{Program as Tree};
    ghost use Rattle.syntax_tree.specs.contracts.decl.Program as tree;
    ghost use Rattle.syntax_tree.specs.Placed.{placed, plain};
    ghost use Rattle.code_names.specs.Parts.{IsDirectory};

    ghost Value = { Tree };

    ghost coded = { Prim.hlevel (codes, tree.the_row.coded) };

    ghost view = { λ d. d.program.now };

    ghost invariant = { λ d. IsDirectory (plain (placed d.program.now)) d.parts.texts d.parts.monitors.items d.parts.processes.items d.monitor_names };
}

/// The names of monitors.
fn monitor_names<'a>(alloc: Global, monitors: &[&'a Monitor]) -> Result<NameList<'a>, OutOfMemory>
    ensures { IfOk result (λ names. names ≡ map (λ m. (monitor_of m).name) monitors.now) }
{
    let mut names = Vec::new(alloc);
    for monitor in monitors {
        names.push(monitor.name.as_bytes())?;
    }
    let list = NameList::new(alloc, names)?;
    Ok(list)
}

impl<'a> Directory<'a> {
    pub fn new(alloc: Global, program: &'a Program) -> Result<Directory<'a>, OutOfMemory>
        ensures { IfOk result (λ d. d ≡ program.now) }
    {
        let parts = parts_of(alloc, program)?;
        let monitor_names = monitor_names(alloc, parts.monitors.as_slice())?;
        Ok(Directory {
            program,
            parts,
            monitor_names,
        })
    }

    pub fn program(&self) -> &'a Program
        ensures { result.now ≡ self.now }
    {
        self.program
    }

    pub fn monitors(&self) -> &[&'a Monitor]
        ensures { seen_monitors result.now ≡ monitors_in (plain (placed self.now)) }
    {
        self.parts.monitors.as_slice()
    }

    pub fn processes(&self) -> &[&'a Process]
        ensures { seen_processes result.now ≡ processes_in (plain (placed self.now)) }
    {
        self.parts.processes.as_slice()
    }

    /// The first routine or entry of that owner and name.
    fn own(&self, owner: RoutineOwner, name: &Name) -> Option<Body<'a>>
        ensures { option_map text_of result ≡
            text_named (owner_of owner) name.now (all_texts (plain (placed self.now))) }
    {
        self.parts.texts.find(owner, name)
    }

    /// The routine of the program of that name.
    fn in_program(&self, name: &Name) -> Option<Body<'a>>
        ensures { option_map text_of result ≡
            routine_of by_program (routines_in (plain (placed self.now))) name.now }
    {
        self.own(RoutineOwner::Program, name)
    }

    /// The routine that a call in a text of a process names: one of the process, else one of the
    /// program.
    fn in_process(&self, number: usize, name: &Name) -> Option<Body<'a>>
        ensures { option_map text_of result ≡
            routine_in (plain (placed self.now)) (by_process number) name.now }
    {
        match self.own(RoutineOwner::Process(number), name) {
            Some(text) => Some(text),
            None => self.in_program(name),
        }
    }

    /// The routine that a call in a text of the owner names: one of the process whose text it is,
    /// else one of the program; `None` where it names none.
    pub fn routine(&self, owner: RoutineOwner, name: &Name) -> Option<Body<'a>>
        ensures { option_map text_of result ≡
            routine_in (plain (placed self.now)) (owner_of owner) name.now }
    {
        match owner {
            RoutineOwner::Program => self.in_program(name),
            RoutineOwner::Process(number) => self.in_process(number, name),
            RoutineOwner::Monitor(_) => self.in_program(name),
        }
    }

    /// The entry that a call names, of the monitor that it names; `None` where it names none.
    pub fn entry(&self, monitor: &Name, name: &Name) -> Option<Body<'a>>
        ensures { option_map text_of result ≡
            entry_in (plain (placed self.now)) monitor.now name.now }
    {
        match self.monitor_names.index(monitor) {
            Some(number) => self.own(RoutineOwner::Monitor(number), name),
            None => None,
        }
    }

    /// What a call in a text of the owner names.
    pub fn called(&self, owner: RoutineOwner, called: &Called<'_>) -> Option<Body<'a>>
        ensures { option_map text_of result ≡
            called_text (plain (placed self.now)) (owner_of owner) (called_of called.now) }
    {
        match called {
            Called::Routine(name) => self.routine(owner, name),
            Called::Entry { monitor, name } => self.entry(monitor, name),
        }
    }

    /// All routines and entries, in the order of the text.
    pub fn texts(&self) -> &TextList<'a>
        ensures { texts_of result.now ≡ all_texts (plain (placed self.now)) }
    {
        &self.parts.texts
    }

    /// What a routine calls, in the order of the calls.
    pub fn callees(&self, alloc: Global, text: Body<'a>) -> Result<Vec<Body<'a>>, OutOfMemory>
        ensures { IfOk result (λ list. texts_of list.items ≡
            callees_of (plain (placed self.now)) (text_of text.entry)) }
    {
        let calls = routine_calls(alloc, text.routine)?;
        let mut list = Vec::new(alloc);
        for called in calls.as_slice() {
            list_callee(&mut list, self.called(text.owner, called))?;
        }
        Ok(list)
    }
}

/// Lists what is called, if something is.
fn list_callee<'a>(list: &mut Vec<Body<'a>>, callee: Option<Body<'a>>) -> Result<(), OutOfMemory>
    ensures { OnOk result ((rest : List SpecText) → texts_of list.new.items ++ rest ≡
        texts_of list.old.items ++ cons_option (option_map text_of callee.entry) rest) }
{
    if let Some(text) = callee {
        list.push(text)?;
    }
    Ok(())
}
