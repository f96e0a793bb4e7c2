//! Monitors before anybody was inside.

ghost use Rattle.std.specs.Prelude.{◌≡◌, ◌++◌, ◌∷◌, IfOk, List, OnOk, filter_map, map};
ghost use Rattle.syntax_tree.specs.Plain.{Declaration as SpecDecl, Member as SpecMember};
ghost use Rattle.syntax_tree.specs.Placed.{placed, placed_decl, placed_member, placed_monitor, plain, plain_decl, plain_member, plain_monitor};
ghost use Rattle.source_semantics.specs.Names.{monitor_in, variable_in};
ghost use Rattle.source_semantics.specs.Store.{fresh};
ghost use Rattle.source_semantics.specs.Config.{free_hold as hold_at_start};
ghost use Rattle.replay_state.specs.View.{hold_of, holds_of, vars_of};

use out_of_memory::OutOfMemory;
use replay_calls::add_fresh;
use replay_state::{MonitorState, Slot};
use static_declarations::Declarations;
use std::alloc::Global;
use std::slice;
use syntax_tree::{Declaration, Member, Monitor};

/// Adds the variable that the member is, if it is one.
fn add_variable<'a>(
    alloc: Global,
    declarations: &Declarations<'_>,
    vars: &mut Vec<Slot<'a>>,
    member: &'a Member,
) -> Result<(), OutOfMemory>
    ensures { OnOk result ((rest : List SpecMember) → vars_of vars.new.items ++
        map (fresh (plain (placed declarations.now))) (filter_map variable_in rest) ≡
        vars_of vars.old.items ++ map (fresh (plain (placed declarations.now)))
        (filter_map variable_in (plain_member (placed_member member.now) ∷ rest))) }
{
    if let Member::Var(var) = member {
        add_fresh(alloc, declarations, vars, slice::from_ref(var))?;
    }
    Ok(())
}

/// The variables of a monitor with these members, all of them 0 or false.
fn member_variables<'a>(
    alloc: Global,
    declarations: &Declarations<'_>,
    members: &'a [Member],
) -> Result<Vec<Slot<'a>>, OutOfMemory>
    ensures { IfOk result (λ vars. vars_of vars.items ≡
        map (fresh (plain (placed declarations.now)))
        (filter_map variable_in (map plain_member (map placed_member members.now)))) }
{
    let mut vars = Vec::new(alloc);
    for member in members {
        add_variable(alloc, declarations, &mut vars, member)?;
    }
    Ok(vars)
}

/// A free monitor, its variables being 0 or false.
fn free_hold<'a>(
    alloc: Global,
    declarations: &Declarations<'_>,
    monitor: &'a Monitor,
) -> Result<MonitorState<'a>, OutOfMemory>
    ensures { IfOk result (λ hold. hold_of hold ≡ hold_at_start (plain (placed declarations.now))
        (plain_monitor (placed_monitor monitor.now))) }
{
    let vars = member_variables(alloc, declarations, monitor.members.as_slice())?;
    Ok(MonitorState {
        vars,
        occupant: None,
    })
}

/// Adds the monitor that a declaration declares, if it does.
fn add_hold<'a>(
    alloc: Global,
    declarations: &Declarations<'_>,
    holds: &mut Vec<MonitorState<'a>>,
    decl: &'a Declaration,
) -> Result<(), OutOfMemory>
    ensures { OnOk result ((rest : List SpecDecl) → holds_of holds.new.items ++
        map (hold_at_start (plain (placed declarations.now))) (filter_map monitor_in rest) ≡
        holds_of holds.old.items ++ map (hold_at_start (plain (placed declarations.now)))
        (filter_map monitor_in (plain_decl (placed_decl decl.now) ∷ rest))) }
{
    if let Declaration::Monitor(monitor) = decl {
        let hold = free_hold(alloc, declarations, monitor)?;
        holds.push(hold)?;
    }
    Ok(())
}

/// The monitors that these declarations declare, in the order of the text, all of them free.
pub fn free_holds<'a>(
    alloc: Global,
    declarations: &Declarations<'_>,
    decls: &'a [Declaration],
) -> Result<Vec<MonitorState<'a>>, OutOfMemory>
    ensures { IfOk result (λ holds. holds_of holds.items ≡
        map (hold_at_start (plain (placed declarations.now)))
        (filter_map monitor_in (map plain_decl (map placed_decl decls.now)))) }
{
    let mut holds = Vec::new(alloc);
    for decl in decls {
        add_hold(alloc, declarations, &mut holds, decl)?;
    }
    Ok(holds)
}
