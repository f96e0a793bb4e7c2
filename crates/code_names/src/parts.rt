//! The routines, monitors and processes of a program, in the order of the text.

ghost use Rattle.std.specs.Prelude.{◌≡◌, IfOk, OnOk, List, ◌∷◌, ◌++◌, length, map};
ghost use Rattle.syntax_tree.specs.Plain.{Declaration as SpecDecl};
ghost use Rattle.syntax_tree.specs.Placed.{placed, placed_decl, placed_routine, plain, plain_decl, plain_routine};
ghost use Rattle.source_semantics.specs.Names.{monitors as monitors_in, processes as processes_in};
ghost use Rattle.code_spec.specs.Numbering.{texts_of as owned, texts_from};
ghost use Rattle.code_names.specs.Texts.{owner_of, texts_of};
ghost use Rattle.code_names.specs.Parts.{seen_monitors, seen_processes, monitors_of, processes_of};

use crate::text::{Body, RoutineOwner};
use crate::text_list::TextList;
use out_of_memory::OutOfMemory;
use std::alloc::Global;
use syntax_tree::{Declaration, Monitor, Process, Program, Routine};

/// The routines and entries of a program, its monitors and its processes.
#[derive(Drop)]
pub struct ProgramParts<'a> {
    pub texts: TextList<'a>,
    pub monitors: Vec<&'a Monitor>,
    pub processes: Vec<&'a Process>,
}

/// Lists routines of one owner behind those before.
fn list_all<'a>(
    texts: &mut TextList<'a>,
    owner: RoutineOwner,
    routines: &'a [Routine],
) -> Result<(), OutOfMemory>
    ensures { OnOk result (texts_of texts.new ≡ texts_of texts.old ++
        owned (owner_of owner) (map plain_routine (map placed_routine routines.now))) }
{
    for routine in routines {
        texts.push(Body { owner, routine })?;
    }
    Ok(())
}

/// Lists the parts of a declaration.
fn list_decl<'a>(parts: &mut ProgramParts<'a>, decl: &'a Declaration) -> Result<(), OutOfMemory>
    ensures texts { OnOk result ((rest : List SpecDecl) → texts_of parts.new.texts ++
        texts_from (length parts.new.processes.items) (length parts.new.monitors.items) rest ≡
        texts_of parts.old.texts ++ texts_from (length parts.old.processes.items)
        (length parts.old.monitors.items) (plain_decl (placed_decl decl.now) ∷ rest)) }
    ensures monitors { OnOk result ((rest : List SpecDecl) →
        seen_monitors parts.new.monitors.items ++ monitors_of rest ≡
        seen_monitors parts.old.monitors.items ++
        monitors_of (plain_decl (placed_decl decl.now) ∷ rest)) }
    ensures processes { OnOk result ((rest : List SpecDecl) →
        seen_processes parts.new.processes.items ++ processes_of rest ≡
        seen_processes parts.old.processes.items ++
        processes_of (plain_decl (placed_decl decl.now) ∷ rest)) }
{
    match decl {
        Declaration::Const { .. } | Declaration::Device { .. } | Declaration::Event { .. } => Ok(
            (),
        ),
        Declaration::Routine(routine) => {
            parts.texts.push(Body {
                owner: RoutineOwner::Program,
                routine,
            })?;
            Ok(())
        }
        Declaration::Monitor(monitor) => {
            let owner = RoutineOwner::Monitor(parts.monitors.as_slice().len());
            list_all(&mut parts.texts, owner, monitor.entries.as_slice())?;
            parts.monitors.push(monitor)?;
            Ok(())
        }
        Declaration::Process(process) => {
            let owner = RoutineOwner::Process(parts.processes.as_slice().len());
            list_all(&mut parts.texts, owner, process.routines.as_slice())?;
            parts.processes.push(process)?;
            Ok(())
        }
    }
}

/// All parts of a program.
pub fn parts_of<'a>(alloc: Global, program: &'a Program) -> Result<ProgramParts<'a>, OutOfMemory>
    ensures texts { IfOk result (λ parts. texts_of parts.texts ≡
        texts_from 0 0 (plain (placed program.now)).decls) }
    ensures monitors { IfOk result (λ parts. seen_monitors parts.monitors.items ≡
        monitors_in (plain (placed program.now))) }
    ensures processes { IfOk result (λ parts. seen_processes parts.processes.items ≡
        processes_in (plain (placed program.now))) }
{
    let mut parts = ProgramParts {
        texts: TextList::new(alloc),
        monitors: Vec::new(alloc),
        processes: Vec::new(alloc),
    };
    for decl in program.decls.as_slice() {
        list_decl(&mut parts, decl)?;
    }
    Ok(parts)
}
