//! A whole image as bytes.

ghost use Rattle.std.specs.Prelude.{◌≡◌, ◌++◌, ◌<◌, ◌^◌, All, length, map, IfOk, OnOk};
ghost use Rattle.std.specs.List.{flat_map};
ghost use Rattle.image.specs.Bytes.{Second, bytes_of, condition_bytes, counts_bytes, device_bytes, event_bytes, head_bytes, monitors_bytes, names_bytes, processes_bytes, routine_bytes, version_bytes};
ghost use Rattle.image.specs.InRange.{AreCounted, AreNamed, IsInRange, IsProcessInRange, IsShort};
ghost use Rattle.image.specs.Raw.{image_of, monitor_of, named_of, process_of, routine_of};
ghost use Rattle.machine_isa.specs.Bytes.{instr_bytes};

use crate::names::{ConditionName, DeviceName, EventName};
use crate::numbers::put_name;
use crate::parts::{put_condition, put_device, put_event, put_monitor, put_process, put_routine};
use crate::raw::{RawImage, RawMonitor, RawProcess, RawRoutine};
use image_format::{put_u16, put_u32};
use machine_isa::{Instr, write_instr};
use out_of_memory::OutOfMemory;
use std::alloc::Global;
use syntax_tree::Name;

/// Puts how many parts of each kind there are.
fn put_counts(out: &mut Vec<u8>, image: &RawImage) -> Result<(), OutOfMemory>
    requires { AreCounted image.now.names (image_of image.now) }
    ensures { OnOk result (out.new.items ≡ out.old.items ++
        counts_bytes image.now.names (image_of image.now)) }
{
    put_u16(out, image.processes.len() as u16)?;
    put_u16(out, image.monitors.len() as u16)?;
    put_u16(out, image.names.conditions.len() as u16)?;
    put_u16(out, image.names.devices.len() as u16)?;
    put_u16(out, image.names.events.len() as u16)?;
    put_u16(out, image.routines.len() as u16)?;
    put_u32(out, image.code.len() as u32)?;
    Ok(())
}

/// Puts the number of the version, and the overhead.
fn put_version(out: &mut Vec<u8>, overhead: u16) -> Result<(), OutOfMemory>
    ensures { OnOk result (out.new.items ≡ out.old.items ++ version_bytes Second overhead) }
{
    put_u16(out, 2)?;
    put_u16(out, overhead)?;
    Ok(())
}

/// Puts the letters, the version, the overhead, the counts and the program's name.
fn put_head(out: &mut Vec<u8>, image: &RawImage) -> Result<(), OutOfMemory>
    requires counts { AreCounted image.now.names (image_of image.now) }
    requires program { IsShort image.now.program }
    ensures { OnOk result (out.new.items ≡ out.old.items ++
        head_bytes Second (named_of image.now)) }
{
    out.extend_from_slice(b"RTEU")?;
    put_version(out, image.overhead)?;
    put_counts(out, image)?;
    put_name(out, &image.program)?;
    Ok(())
}

/// Puts the devices.
fn put_devices(out: &mut Vec<u8>, devices: &[DeviceName]) -> Result<(), OutOfMemory>
    requires { All (λ d. IsShort d.name) devices.now }
    ensures { OnOk result (out.new.items ≡ out.old.items ++ flat_map device_bytes devices.now) }
{
    for device in devices {
        put_device(out, device)?;
    }
    Ok(())
}

/// Puts the events.
fn put_events(out: &mut Vec<u8>, events: &[EventName]) -> Result<(), OutOfMemory>
    requires { All (λ e. IsShort e.name) events.now }
    ensures { OnOk result (out.new.items ≡ out.old.items ++ flat_map event_bytes events.now) }
{
    for event in events {
        put_event(out, event)?;
    }
    Ok(())
}

/// Puts the conditions.
fn put_conditions(out: &mut Vec<u8>, conditions: &[ConditionName]) -> Result<(), OutOfMemory>
    requires { All (λ c. IsShort c.name) conditions.now }
    ensures { OnOk result (out.new.items ≡ out.old.items ++
        flat_map condition_bytes conditions.now) }
{
    for condition in conditions {
        put_condition(out, condition)?;
    }
    Ok(())
}

/// Puts each monitor after its name.
fn put_monitors(
    out: &mut Vec<u8>,
    names: &[Name],
    monitors: &[RawMonitor],
) -> Result<(), OutOfMemory>
    requires each { length names.now ≡ length monitors.now }
    requires short { All IsShort names.now }
    ensures { OnOk result (out.new.items ≡ out.old.items ++
        monitors_bytes names.now (map monitor_of monitors.now)) }
{
    for (at, monitor) in monitors.iter().enumerate() {
        put_monitor(out, &names[at], monitor)?;
    }
    Ok(())
}

/// Puts the routines.
fn put_routines(out: &mut Vec<u8>, routines: &[RawRoutine]) -> Result<(), OutOfMemory>
    ensures { OnOk result (out.new.items ≡ out.old.items ++
        flat_map routine_bytes (map routine_of routines.now)) }
{
    for routine in routines {
        put_routine(out, routine)?;
    }
    Ok(())
}

/// Puts each process after its name.
fn put_processes(
    out: &mut Vec<u8>,
    names: &[Name],
    processes: &[RawProcess],
) -> Result<(), OutOfMemory>
    requires each { length names.now ≡ length processes.now }
    requires short { All IsShort names.now }
    requires in_range { All IsProcessInRange (map process_of processes.now) }
    ensures { OnOk result (out.new.items ≡ out.old.items ++
        processes_bytes Second names.now (map process_of processes.now)) }
{
    for (at, process) in processes.iter().enumerate() {
        put_process(out, &names[at], process)?;
    }
    Ok(())
}

/// Puts the instructions.
fn put_code(out: &mut Vec<u8>, code: &[Instr]) -> Result<(), OutOfMemory>
    ensures { OnOk result (out.new.items ≡ out.old.items ++ flat_map instr_bytes code.now) }
{
    for instr in code {
        out.extend_from_slice(&write_instr(instr))?;
    }
    Ok(())
}

/// Puts the devices, the events, the monitors and the conditions.
fn put_named(out: &mut Vec<u8>, image: &RawImage) -> Result<(), OutOfMemory>
    requires { AreNamed image.now.names (image_of image.now) }
    ensures { OnOk result (out.new.items ≡ out.old.items ++
        names_bytes image.now.names (map monitor_of image.now.monitors)) }
{
    let names = &image.names;
    put_devices(out, names.devices.as_slice())?;
    put_events(out, names.events.as_slice())?;
    put_monitors(out, names.monitors.as_slice(), image.monitors.as_slice())?;
    put_conditions(out, names.conditions.as_slice())?;
    Ok(())
}

/// The bytes of an image, version 2, as a file holds them, all numbers with the highest byte first.
/// The counts must fit their fields, and each process and monitor have a name. An error says that
/// memory is short.
pub fn write_image(alloc: Global, image: &RawImage) -> Result<Vec<u8>, OutOfMemory>
    requires { IsInRange (named_of image.now) }
    ensures { IfOk result (λ bytes. bytes.items ≡ bytes_of Second (named_of image.now)) }
{
    let mut out = Vec::new(alloc);
    put_head(&mut out, image)?;
    put_named(&mut out, image)?;
    put_routines(&mut out, image.routines.as_slice())?;
    put_processes(
        &mut out,
        image.names.processes.as_slice(),
        image.processes.as_slice(),
    )?;
    put_code(&mut out, image.code.as_slice())?;
    Ok(out)
}
