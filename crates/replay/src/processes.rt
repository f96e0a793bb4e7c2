//! The processes of a program.

ghost use Rattle.std.specs.Prelude.{◌≡◌, ◌++◌, ◌∷◌, IfOk, List, OnOk, filter_map, map};
ghost use Rattle.syntax_tree.specs.Plain.{Declaration as SpecDecl};
ghost use Rattle.syntax_tree.specs.Placed.{placed_decl, plain_decl};
ghost use Rattle.source_semantics.specs.Names.{process_in};
ghost use Rattle.replay.specs.Parts.{seen_processes};

use out_of_memory::OutOfMemory;
use std::alloc::Global;
use syntax_tree::{Declaration, Process};

/// Lists the process that a declaration declares, if it does.
fn list_process<'a>(list: &mut Vec<&'a Process>, decl: &'a Declaration) -> Result<(), OutOfMemory>
    ensures { OnOk result ((rest : List SpecDecl) → seen_processes list.new.items ++
        filter_map process_in rest ≡ seen_processes list.old.items ++
        filter_map process_in (plain_decl (placed_decl decl.now) ∷ rest)) }
{
    if let Declaration::Process(process) = decl {
        list.push(process)?;
    }
    Ok(())
}

/// The processes that these declarations declare, in the order of the text.
pub fn process_list<'a>(
    alloc: Global,
    decls: &'a [Declaration],
) -> Result<Vec<&'a Process>, OutOfMemory>
    ensures { IfOk result (λ list. seen_processes list.items ≡
        filter_map process_in (map plain_decl (map placed_decl decls.now))) }
{
    let mut list = Vec::new(alloc);
    for decl in decls {
        list_process(&mut list, decl)?;
    }
    Ok(list)
}
