//! The names of devices and events.

ghost use Rattle.std.specs.Prelude.{◌≡◌, ◌++◌, ◌∷◌, IfOk, OnOk, List, filter_map, map};
ghost use Rattle.syntax_tree.specs.Plain.{Declaration as SpecDecl};
ghost use Rattle.syntax_tree.specs.Placed.{placed_decl, plain_decl};
ghost use Rattle.built_image.specs.Named.{named_device};
ghost use Rattle.compile_image.specs.Released.{events_found};

use crate::errors::tri;
use crate::events::Released;
use crate::lists::copied;
use image::{DeviceName, EventName};
use out_of_memory::OutOfMemory;
use std::alloc::Global;
use syntax_tree::{Declaration, List};

/// Lists what is declared, if it is a device.
fn list_device(
    alloc: Global,
    devices: &mut List<DeviceName>,
    decl: &Declaration,
) -> Result<(), OutOfMemory>
    ensures { OnOk result ((rest : List SpecDecl) → devices.new ++ filter_map named_device rest ≡
        devices.old ++ filter_map named_device (plain_decl (placed_decl decl.now) ∷ rest)) }
{
    if let Declaration::Device { name, is_out, .. } = decl {
        let name = tri!(copied(alloc, name));
        tri!(devices.push(DeviceName { name, out: *is_out }));
    }
    Ok(())
}

/// The devices with their directions.
pub fn device_names(alloc: Global, decls: &[Declaration]) -> Result<List<DeviceName>, OutOfMemory>
    ensures { IfOk result (λ devices. devices ≡
        filter_map named_device (map plain_decl (map placed_decl decls.now))) }
{
    let mut devices = List::new(alloc);
    for decl in decls {
        tri!(list_device(alloc, &mut devices, decl));
    }
    Ok(devices)
}

/// Lists what is declared, if it is an event, with its frame.
fn list_event(
    alloc: Global,
    released: &Released<'_>,
    events: &mut List<EventName>,
    decl: &Declaration,
) -> Result<(), OutOfMemory>
    ensures { OnOk result ((rest : List SpecDecl) → events.new ++
        events_found released.now.frames released.now.events rest ≡ events.old ++
        events_found released.now.frames released.now.events
        (plain_decl (placed_decl decl.now) ∷ rest)) }
{
    if let Declaration::Event { name, .. } = decl {
        let frame = released.frame(name);
        let name = tri!(copied(alloc, name));
        tri!(events.push(EventName { name, frame }));
    }
    Ok(())
}

/// The events with the frames of the processes that they release.
pub fn event_names(
    alloc: Global,
    released: &Released<'_>,
    decls: &[Declaration],
) -> Result<List<EventName>, OutOfMemory>
    ensures { IfOk result (λ events. events ≡
        events_found released.now.frames released.now.events
        (map plain_decl (map placed_decl decls.now))) }
{
    let mut events = List::new(alloc);
    for decl in decls {
        tri!(list_event(alloc, released, &mut events, decl));
    }
    Ok(events)
}
