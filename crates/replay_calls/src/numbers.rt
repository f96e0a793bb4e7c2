//! Numbers of devices, monitors and conditions.

ghost use Rattle.std.specs.Prelude.{◌≡◌, filter_map, map};
ghost use Rattle.syntax_tree.specs.Placed.{placed_decl, plain_decl};
ghost use Rattle.source_semantics.specs.Names.{device_in, monitor_in, place_of};
ghost use Rattle.source_semantics.specs.Run.{condition_here as condition_at};
ghost use Rattle.replay_calls.specs.Reach.{site_of};

use crate::{EvalContext, equal};
use replay_state::CallOwner;
use syntax_tree::{Declaration, Name};

/// The number of the device of that name.
pub fn device_number(name: &Name, decls: &[Declaration]) -> usize
    ensures { result ≡ place_of name.now
        (filter_map device_in (map plain_decl (map placed_decl decls.now))) }
{
    let mut number = 0;
    for decl in decls {
        if let Declaration::Device { name: own, .. } = decl {
            if equal(own, name) {
                return number;
            }
            number += 1;
        }
    }
    number
}

/// The number of the monitor of that name.
pub fn monitor_number(name: &Name, decls: &[Declaration]) -> usize
    ensures { result ≡ place_of name.now (map (λ m. m.name)
        (filter_map monitor_in (map plain_decl (map placed_decl decls.now)))) }
{
    let mut number = 0;
    for decl in decls {
        if let Declaration::Monitor(monitor) = decl {
            if equal(&monitor.name, name) {
                return number;
            }
            number += 1;
        }
    }
    number
}

/// The number of the condition of that name in the monitor whose text this is.
pub fn condition_here(scope: &EvalContext<'_>, home: CallOwner, depth: usize, name: &Name) -> usize
    ensures { result ≡ condition_at (site_of scope.now home depth) name.now }
{
    match home {
        CallOwner::Program | CallOwner::Process => 0,
        CallOwner::Monitor(mon) => scope.conditions.number(mon, name),
    }
}
