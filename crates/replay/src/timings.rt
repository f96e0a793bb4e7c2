//! How processes are released.

ghost use Rattle.std.specs.Prelude.{◌≡◌, IfOk, filter_map, map};
ghost use Rattle.syntax_tree.specs.Placed.{optional, placed, placed_activation, placed_constant, placed_decl, plain, plain_activation, plain_constant, plain_decl};
ghost use Rattle.source_semantics.specs.Names.{event_in, place_of};
ghost use Rattle.source_semantics.specs.Starts.{first_of};
ghost use Rattle.replay_due_events.specs.Timings.{timing_of};
ghost use Rattle.replay.specs.Parts.{seen_processes};

use out_of_memory::OutOfMemory;
use replay_calls::equal;
use replay_due_events::Timing;
use replay_state::count;
use static_declarations::Declarations;
use std::alloc::Global;
use syntax_tree::{Constant, Declaration, Name, Process, Trigger};

/// The number of the event of that name.
fn event_number(name: &Name, decls: &[Declaration]) -> usize
    ensures { result ≡ place_of name.now
        (filter_map event_in (map plain_decl (map placed_decl decls.now))) }
{
    let mut number = 0;
    for decl in decls {
        if let Declaration::Event { name: own, .. } = decl {
            if equal(own, name) {
                return number;
            }
            number += 1;
        }
    }
    number
}

/// The tick of the first release, 0 where none is told.
fn first_release(declarations: &Declarations<'_>, told: &Option<Constant>) -> u32
    ensures { result ≡ first_of (plain (placed declarations.now))
        (optional plain_constant (optional placed_constant told.now)) }
{
    match told {
        None => 0,
        Some(constant) => count(declarations, constant),
    }
}

/// How an activation is released.
fn activation_timing(declarations: &Declarations<'_>, activation: &Trigger) -> Timing
    ensures { result ≡ timing_of (plain (placed declarations.now))
        (plain_activation (placed_activation activation.now)) }
{
    match activation {
        Trigger::Periodic { frame, first, .. } => Timing::Periodic {
            frame: count(declarations, frame),
            first: first_release(declarations, first),
        },
        Trigger::AtEvent { event, .. } => Timing::AtEvent {
            event: event_number(event, declarations.program().decls.as_slice()),
        },
    }
}

/// How the processes are released, in their order.
pub fn process_timings(
    alloc: Global,
    declarations: &Declarations<'_>,
    processes: &[&Process],
) -> Result<Vec<Timing>, OutOfMemory>
    ensures { IfOk result (λ list. list.items ≡
        map (λ p. timing_of (plain (placed declarations.now)) p.activation)
        (seen_processes processes.now)) }
{
    let mut list = Vec::new(alloc);
    for process in processes {
        let timing = activation_timing(declarations, &process.activation);
        list.push(timing)?;
    }
    Ok(list)
}
