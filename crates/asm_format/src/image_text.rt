//! The text of a whole image.

ghost use Rattle.std.specs.Prelude.{◌≡◌, ◌++◌, IfOk, OnOk, length, map};
ghost use Rattle.std.specs.List.{flat_map};
ghost use Rattle.image.specs.Raw.{monitor_of, named_of, process_of, routine_of};
ghost use Rattle.asm_format.specs.Mnemonics.{instr_line};
ghost use Rattle.asm_format.specs.Text.{condition_line, device_line, event_line, monitors_text, names_text, processes_text, routine_lines, text_of};

use crate::instr::put_instr;
use crate::names::{put_condition, put_device, put_event, put_head, put_monitor};
use crate::process::put_process;
use crate::routine::put_routine;
use image::{ConditionName, DeviceName, EventName, RawImage, RawMonitor, RawProcess, RawRoutine};
use machine_isa::Instr;
use out_of_memory::OutOfMemory;
use std::alloc::Global;
use syntax_tree::{Name, Text};

/// Puts the lines of the devices.
fn put_devices(text: &mut Text, devices: &[DeviceName]) -> Result<(), OutOfMemory>
    ensures { OnOk result (text.new ≡ text.old ++ flat_map device_line devices.now) }
{
    for device in devices {
        put_device(text, device)?;
    }
    Ok(())
}

/// Puts the lines of the events.
fn put_events(text: &mut Text, events: &[EventName]) -> Result<(), OutOfMemory>
    ensures { OnOk result (text.new ≡ text.old ++ flat_map (λ e. event_line e.name) events.now) }
{
    for event in events {
        put_event(text, &event.name)?;
    }
    Ok(())
}

/// Puts the lines of the monitors, each with its name.
fn put_monitors(text: &mut Text, names: &[Name], monitors: &[RawMonitor]) -> Result<(), OutOfMemory>
    requires { length names.now ≡ length monitors.now }
    ensures { OnOk result (text.new ≡ text.old ++
        monitors_text names.now (map monitor_of monitors.now)) }
{
    for (at, monitor) in monitors.iter().enumerate() {
        put_monitor(text, &names[at], monitor)?;
    }
    Ok(())
}

/// Puts the lines of the conditions.
fn put_conditions(text: &mut Text, conditions: &[ConditionName]) -> Result<(), OutOfMemory>
    ensures { OnOk result (text.new ≡ text.old ++ flat_map condition_line conditions.now) }
{
    for condition in conditions {
        put_condition(text, condition)?;
    }
    Ok(())
}

/// Puts the lines of the routines and their trees.
fn put_routines(alloc: Global, text: &mut Text, routines: &[RawRoutine]) -> Result<(), OutOfMemory>
    ensures { OnOk result (text.new ≡ text.old ++
        flat_map routine_lines (map routine_of routines.now)) }
{
    for routine in routines {
        put_routine(alloc, text, routine)?;
    }
    Ok(())
}

/// Puts the lines of the processes and their trees, each with its name.
fn put_processes(
    alloc: Global,
    text: &mut Text,
    names: &[Name],
    processes: &[RawProcess],
) -> Result<(), OutOfMemory>
    requires { length names.now ≡ length processes.now }
    ensures { OnOk result (text.new ≡ text.old ++
        processes_text names.now (map process_of processes.now)) }
{
    for (at, process) in processes.iter().enumerate() {
        put_process(alloc, text, &names[at], process)?;
    }
    Ok(())
}

/// Puts the lines of the instructions.
fn put_code(text: &mut Text, code: &[Instr]) -> Result<(), OutOfMemory>
    ensures { OnOk result (text.new ≡ text.old ++ flat_map instr_line code.now) }
{
    for instr in code {
        put_instr(text, instr)?;
    }
    Ok(())
}

/// Puts the lines of the devices, the events, the monitors and the conditions.
fn put_named(text: &mut Text, image: &RawImage) -> Result<(), OutOfMemory>
    requires { length image.now.names.monitors ≡ length image.now.monitors }
    ensures { OnOk result (text.new ≡ text.old ++
        names_text image.now.names (map monitor_of image.now.monitors)) }
{
    let names = &image.names;
    put_devices(text, names.devices.as_slice())?;
    put_events(text, names.events.as_slice())?;
    put_monitors(text, names.monitors.as_slice(), image.monitors.as_slice())?;
    put_conditions(text, names.conditions.as_slice())?;
    Ok(())
}

/// The text of an image, line by line. Each process and each monitor has a name. An error says that
/// memory is short.
pub fn dis(alloc: Global, image: &RawImage) -> Result<Text, OutOfMemory>
    requires monitors { length image.now.names.monitors ≡ length image.now.monitors }
    requires processes { length image.now.names.processes ≡ length image.now.processes }
    ensures { IfOk result (λ text. text ≡ text_of (named_of image.now)) }
{
    let mut text = Text::new(alloc);
    put_head(&mut text, &image.program, image.overhead)?;
    put_named(&mut text, image)?;
    put_routines(alloc, &mut text, image.routines.as_slice())?;
    put_processes(
        alloc,
        &mut text,
        image.names.processes.as_slice(),
        image.processes.as_slice(),
    )?;
    put_code(&mut text, image.code.as_slice())?;
    text.extend(b"end\n")?;
    Ok(text)
}
