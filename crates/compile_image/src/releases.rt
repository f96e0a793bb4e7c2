//! When processes are released.

ghost use Rattle.std.specs.Prelude.{◌≡◌, ◌≤◌, length};
ghost use Rattle.syntax_tree.specs.Placed.{optional, placed, placed_activation, placed_constant, plain, plain_activation, plain_constant};
ghost use Rattle.source_semantics.specs.Names.{deadline_or, place_of};
ghost use Rattle.source_semantics.specs.Starts.{first_of};
ghost use Rattle.compile_image.specs.Told.{release_told};

use crate::count;
use code_layout::{ConstantValues, number};
use code_names::NameList;
use syntax_tree::{Constant, Name, Trigger};

/// When a process is released: kind 0 every `frame` ticks from `first` on, kind 1 at an event, and
/// within how many ticks an activation has to end.
#[derive(Clone, Copy)]
pub struct ReleaseFields {
    pub kind: u8,
    pub frame: u32,
    pub deadline: u32,
    pub first: u32,
    pub event: u16,
}

/// The deadline, which is the frame where none is told.
fn deadline(values: &ConstantValues<'_>, frame: u32, told: &Option<Constant>) -> u32
    ensures { result ≡ deadline_or (plain (placed values.now)) frame
        (optional plain_constant (optional placed_constant told.now)) }
{
    match told {
        None => frame,
        Some(constant) => count(values, constant),
    }
}

/// The tick of the first release, 0 where none is told.
fn first(values: &ConstantValues<'_>, told: &Option<Constant>) -> u32
    ensures { result ≡ first_of (plain (placed values.now))
        (optional plain_constant (optional placed_constant told.now)) }
{
    match told {
        None => 0,
        Some(constant) => count(values, constant),
    }
}

/// The number of an event among the events of a program.
fn event_number(events: &NameList<'_>, event: &Name) -> u16
    requires { length events.now ≤ 64 }
    ensures { result ≡ place_of event.now events.now }
{
    let place = number(events, event);
    place as u16
}

/// When a process is released, where these are the events of the program.
pub fn released(
    values: &ConstantValues<'_>,
    events: &NameList<'_>,
    activation: &Trigger,
) -> ReleaseFields
    requires { length events.now ≤ 64 }
    ensures { result ≡ release_told (plain (placed values.now)) events.now
        (plain_activation (placed_activation activation.now)) }
{
    match activation {
        Trigger::Periodic {
            frame,
            deadline: told,
            first: start,
        } => {
            let frame = count(values, frame);
            ReleaseFields {
                kind: 0,
                frame,
                deadline: deadline(values, frame, told),
                first: first(values, start),
                event: 0,
            }
        }
        Trigger::AtEvent {
            event,
            frame,
            deadline: told,
            ..
        } => {
            let frame = count(values, frame);
            ReleaseFields {
                kind: 1,
                frame,
                deadline: deadline(values, frame, told),
                first: 0,
                event: event_number(events, event),
            }
        }
    }
}
