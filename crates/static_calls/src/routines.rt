//! The routines and processes of a program.

ghost use Rattle.std.specs.Prelude.{◌≡◌, OnOk, IfOk, List, [], ◌∷◌, ◌++◌, map};
ghost use Rattle.syntax_tree.specs.Placed.{Decl as SpecDecl, placed_routine, placed_decl};
ghost use Rattle.syntax_tree.specs.declared.place.Place.{Place as SpecPlace};
ghost use Rattle.syntax_tree.specs.Parts.{routines as routines_of, processes as processes_of};
ghost use Rattle.static_calls.specs.Tables.{seen_routines, seen_processes};

use out_of_memory::OutOfMemory;
use std::alloc::Global;
use syntax_tree::{Declaration, Process, Routine};

/// Lists routines behind those before.
fn list_all<'a>(list: &mut Vec<&'a Routine>, routines: &'a [Routine]) -> Result<(), OutOfMemory>
    ensures { OnOk result (seen_routines list.new.items ≡ seen_routines list.old.items ++
        map placed_routine routines.now) }
{
    for routine in routines {
        list.push(routine)?;
    }
    Ok(())
}

/// Lists the routines of a declaration.
fn list_decl<'a>(list: &mut Vec<&'a Routine>, decl: &'a Declaration) -> Result<(), OutOfMemory>
    ensures { OnOk result ((rest : List (SpecDecl SpecPlace)) → seen_routines list.new.items ++
        routines_of rest ≡ seen_routines list.old.items ++
        routines_of (placed_decl decl.now ∷ rest)) }
{
    match decl {
        Declaration::Const { .. } | Declaration::Device { .. } | Declaration::Event { .. } => Ok(
            (),
        ),
        Declaration::Routine(routine) => {
            list.push(routine)?;
            Ok(())
        }
        Declaration::Monitor(monitor) => {
            list_all(list, monitor.entries.as_slice())?;
            Ok(())
        }
        Declaration::Process(process) => {
            list_all(list, process.routines.as_slice())?;
            Ok(())
        }
    }
}

/// All routines and entries, in the order of the text.
pub fn routines<'a>(
    alloc: Global,
    decls: &'a [Declaration],
) -> Result<Vec<&'a Routine>, OutOfMemory>
    ensures { IfOk result (λ list. seen_routines list.items ≡
        routines_of (map placed_decl decls.now)) }
{
    let mut list = Vec::new(alloc);
    for decl in decls {
        list_decl(&mut list, decl)?;
    }
    Ok(list)
}

/// Lists the process that a declaration declares, if it does.
fn list_process<'a>(list: &mut Vec<&'a Process>, decl: &'a Declaration) -> Result<(), OutOfMemory>
    ensures { OnOk result ((rest : List (SpecDecl SpecPlace)) → seen_processes list.new.items ++
        processes_of rest ≡ seen_processes list.old.items ++
        processes_of (placed_decl decl.now ∷ rest)) }
{
    if let Declaration::Process(process) = decl {
        list.push(process)?;
    }
    Ok(())
}

/// All processes, in the order of the text.
pub fn processes<'a>(
    alloc: Global,
    decls: &'a [Declaration],
) -> Result<Vec<&'a Process>, OutOfMemory>
    ensures { IfOk result (λ list. seen_processes list.items ≡
        processes_of (map placed_decl decls.now)) }
{
    let mut list = Vec::new(alloc);
    for decl in decls {
        list_process(&mut list, decl)?;
    }
    Ok(list)
}
