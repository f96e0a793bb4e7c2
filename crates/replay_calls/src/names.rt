//! What names of routines stand for.

ghost use Rattle.std.specs.Prelude.{◌≡◌, filter_map, map, option_map};
ghost use Rattle.syntax_tree.specs.Placed.{placed, placed_decl, placed_monitor, placed_process, placed_routine, plain, plain_decl, plain_monitor, plain_process, plain_routine};
ghost use Rattle.source_semantics.specs.Names.{monitor_in, named, routine_in};
ghost use Rattle.source_semantics.specs.Run.{entry_name, entry_named as named_entry, routine_named as named_routine};
ghost use Rattle.replay_state.specs.View.{home_of};
ghost use Rattle.replay_calls.specs.Lookups.{found_of};
ghost use Rattle.replay_calls.specs.Seen as running;

use crate::numbers::monitor_number;
use crate::{EvalContext, ResolvedRoutine, equal};
use replay_state::CallOwner;
use syntax_tree::{Declaration, Monitor, Name, Routine};

/// The same home.
pub fn home_in(home: crate::RoutineHome) -> CallOwner
    ensures { home_of result ≡ running.home_of home }
{
    match home {
        crate::RoutineHome::Program => CallOwner::Program,
        crate::RoutineHome::Process => CallOwner::Process,
        crate::RoutineHome::Monitor(mon) => CallOwner::Monitor(mon),
    }
}

/// The first routine of that name.
fn among<'a>(name: &Name, routines: &'a [Routine]) -> Option<&'a Routine>
    ensures { option_map (λ r. plain_routine (placed_routine r.now)) result ≡
        named entry_name name.now (map plain_routine (map placed_routine routines.now)) }
{
    for routine in routines {
        if equal(&routine.name, name) {
            return Some(routine);
        }
    }
    None
}

/// The first routine of that name that is declared.
fn declared<'a>(name: &Name, decls: &'a [Declaration]) -> Option<&'a Routine>
    ensures { option_map (λ r. plain_routine (placed_routine r.now)) result ≡
        named entry_name name.now (filter_map routine_in
        (map plain_decl (map placed_decl decls.now))) }
{
    for decl in decls {
        if let Declaration::Routine(routine) = decl {
            if equal(&routine.name, name) {
                return Some(routine);
            }
        }
    }
    None
}

/// The routine of that name, of the process or of the program.
pub fn routine_named<'a>(scope: &EvalContext<'a>, name: &Name) -> Option<ResolvedRoutine<'a>>
    ensures { option_map found_of result ≡ named_routine (plain (placed scope.now.declarations.now))
        (plain_process (placed_process scope.now.process.now)) name.now }
{
    if let Some(routine) = among(name, scope.process.routines.as_slice()) {
        return Some(ResolvedRoutine {
            home: crate::RoutineHome::Process,
            routine,
        });
    }
    let routine = declared(name, scope.declarations.program().decls.as_slice())?;
    Some(ResolvedRoutine {
        home: crate::RoutineHome::Program,
        routine,
    })
}

/// The first monitor of that name.
fn monitor_named<'a>(name: &Name, decls: &'a [Declaration]) -> Option<&'a Monitor>
    ensures { option_map (λ m. plain_monitor (placed_monitor m.now)) result ≡
        named (λ k. k.name) name.now (filter_map monitor_in
        (map plain_decl (map placed_decl decls.now))) }
{
    for decl in decls {
        if let Declaration::Monitor(monitor) = decl {
            if equal(&monitor.name, name) {
                return Some(monitor);
            }
        }
    }
    None
}

/// The entry of that name, of the monitor of that name.
pub fn entry_named<'a>(
    scope: &EvalContext<'a>,
    mon: &Name,
    entry: &Name,
) -> Option<ResolvedRoutine<'a>>
    ensures { option_map found_of result ≡
        named_entry (plain (placed scope.now.declarations.now)) mon.now entry.now }
{
    let decls = scope.declarations.program().decls.as_slice();
    let number = monitor_number(mon, decls);
    match monitor_named(mon, decls) {
        None => None,
        Some(monitor) => match among(entry, monitor.entries.as_slice()) {
            None => None,
            Some(routine) => Some(ResolvedRoutine {
                home: crate::RoutineHome::Monitor(number),
                routine,
            }),
        },
    }
}
