//! Queues before anybody waits.

ghost use Rattle.std.specs.Prelude.{◌≡◌, ◌++◌, ◌∷◌, IfOk, List, OnOk, filter_map, map};
ghost use Rattle.syntax_tree.specs.Plain.{Declaration as SpecDecl, Member as SpecMember};
ghost use Rattle.syntax_tree.specs.Placed.{placed_decl, placed_member, plain_decl, plain_member};
ghost use Rattle.source_semantics.specs.Names.{monitor_in};
ghost use Rattle.replay_state.specs.Queues.{queues_of};
ghost use Rattle.replay.specs.Parts.{member_queues, monitor_queues};

use out_of_memory::OutOfMemory;
use std::alloc::Global;
use syntax_tree::{Declaration, Member};

/// Adds the queue of the condition that the member is, if it is one.
fn add_queue(
    alloc: Global,
    queues: &mut Vec<Vec<usize>>,
    member: &Member,
) -> Result<(), OutOfMemory>
    ensures { OnOk result ((rest : List SpecMember) → queues_of queues.new.items ++
        member_queues rest ≡ queues_of queues.old.items ++
        member_queues (plain_member (placed_member member.now) ∷ rest)) }
{
    if let Member::Condition { .. } = member {
        queues.push(Vec::new(alloc))?;
    }
    Ok(())
}

/// Adds the queues of the conditions of a monitor.
fn add_queues(
    alloc: Global,
    queues: &mut Vec<Vec<usize>>,
    members: &[Member],
) -> Result<(), OutOfMemory>
    ensures { OnOk result (queues_of queues.new.items ≡ queues_of queues.old.items ++
        member_queues (map plain_member (map placed_member members.now))) }
{
    for member in members {
        add_queue(alloc, queues, member)?;
    }
    Ok(())
}

/// Adds the queues of the monitor that a declaration declares, if it does.
fn add_monitor(
    alloc: Global,
    queues: &mut Vec<Vec<usize>>,
    decl: &Declaration,
) -> Result<(), OutOfMemory>
    ensures { OnOk result ((rest : List SpecDecl) → queues_of queues.new.items ++
        monitor_queues (filter_map monitor_in rest) ≡ queues_of queues.old.items ++
        monitor_queues (filter_map monitor_in (plain_decl (placed_decl decl.now) ∷ rest))) }
{
    if let Declaration::Monitor(monitor) = decl {
        add_queues(alloc, queues, monitor.members.as_slice())?;
    }
    Ok(())
}

/// A queue for each condition of the monitors that these declarations declare, all of them empty.
pub fn empty_queues(alloc: Global, decls: &[Declaration]) -> Result<Vec<Vec<usize>>, OutOfMemory>
    ensures { IfOk result (λ queues. queues_of queues.items ≡
        monitor_queues (filter_map monitor_in (map plain_decl (map placed_decl decls.now)))) }
{
    let mut queues = Vec::new(alloc);
    for decl in decls {
        add_monitor(alloc, &mut queues, decl)?;
    }
    Ok(queues)
}
