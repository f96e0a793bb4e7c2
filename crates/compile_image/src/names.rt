//! All names.

ghost use Rattle.std.specs.Prelude.{◌≡◌, ◌≤◌, IfOk, filter_map, length, map};
ghost use Rattle.syntax_tree.specs.Placed.{placed, plain};
ghost use Rattle.source_semantics.specs.Names.{event_in, monitors as monitors_in, processes as processes_in};
ghost use Rattle.built_image.specs.Named.{named_conditions, named_event, names_of};

use crate::declared::{device_names, event_names};
use crate::errors::tri;
use crate::events::released_by_events;
use crate::lists::{condition_names, monitor_names, process_names};
use code_layout::ConstantValues;
use code_names::Directory;
use image::{DeviceName, EventName, ImageNames};
use out_of_memory::OutOfMemory;
use std::alloc::Global;
use syntax_tree::{List, Program};

/// The events with the frames of the processes that they release.
fn all_events(
    alloc: Global,
    program: &Program,
    directory: &Directory<'_>,
) -> Result<List<EventName>, OutOfMemory>
    requires { directory.now ≡ program.now }
    ensures { IfOk result (λ events. events ≡
        map (λ e. named_event (plain (placed program.now)) e)
        (filter_map event_in (plain (placed program.now)).decls)) }
{
    let values = tri!(ConstantValues::new(alloc, program));
    let released = tri!(released_by_events(alloc, &values, directory.processes()));
    event_names(alloc, &released, program.decls.as_slice())
}

/// The names of processes, monitors and conditions, with these devices and events.
fn with_parts(
    alloc: Global,
    directory: &Directory<'_>,
    devices: List<DeviceName>,
    events: List<EventName>,
) -> Result<ImageNames, OutOfMemory>
    requires { length (monitors_in (plain (placed directory.now))) ≤ 64 }
    ensures processes { IfOk result (λ names. names.processes ≡
        map (λ p. p.name) (processes_in (plain (placed directory.now)))) }
    ensures monitors { IfOk result (λ names. names.monitors ≡
        map (λ m. m.name) (monitors_in (plain (placed directory.now)))) }
    ensures conditions { IfOk result (λ names. names.conditions ≡
        named_conditions 0 (monitors_in (plain (placed directory.now)))) }
    ensures devices { IfOk result (λ names. names.devices ≡ devices) }
    ensures events { IfOk result (λ names. names.events ≡ events) }
{
    let all = directory.monitors();
    let processes = tri!(process_names(alloc, directory.processes()));
    let monitors = tri!(monitor_names(alloc, all));
    let conditions = tri!(condition_names(alloc, all));
    Ok(ImageNames {
        processes,
        monitors,
        conditions,
        devices,
        events,
    })
}

/// All names, where these are the parts of the program.
fn names_of_parts(
    alloc: Global,
    program: &Program,
    directory: &Directory<'_>,
) -> Result<ImageNames, OutOfMemory>
    requires directory { directory.now ≡ program.now }
    requires few { length (monitors_in (plain (placed program.now))) ≤ 64 }
    ensures { IfOk result (λ names. names ≡ names_of (plain (placed program.now))) }
{
    let events = tri!(all_events(alloc, program, directory));
    let devices = tri!(device_names(alloc, program.decls.as_slice()));
    let names = tri!(with_parts(alloc, directory, devices, events));
    Ok(names)
}

/// The names of a program's parts, as an image has them, each list in the order of the text. There
/// must be at most 64 monitors, so that the number of each fits its field. It takes time in
/// proportion to the text, and fails only where memory is wanting.
pub fn image_names(alloc: Global, program: &Program) -> Result<ImageNames, OutOfMemory>
    requires few { length (monitors_in (plain (placed program.now))) ≤ 64 }
    ensures { IfOk result (λ names. names ≡ names_of (plain (placed program.now))) }
{
    let directory = tri!(Directory::new(alloc, program));
    names_of_parts(alloc, program, &directory)
}
