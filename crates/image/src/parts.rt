//! The parts of an image at the end of a buffer. After an error the buffer may hold a piece of one.

ghost use Rattle.std.specs.Prelude.{◌≡◌, ◌++◌, ◌<◌, ◌^◌, length, OnOk};
ghost use Rattle.image.specs.Bytes.{Second, condition_bytes, cost_bytes, device_bytes, event_bytes, handler_bytes, monitor_bytes, numbers_bytes, owner_bytes, process_bytes, release_bytes, room_bytes, routine_bytes, time_bytes};
ghost use Rattle.image.specs.InRange.{IsProcessInRange, IsShort};
ghost use Rattle.image.specs.Raw.{monitor_of, process_of, routine_of};
ghost use Rattle.image_format.specs.TreeBytes.{tree_bytes};

use crate::names::{ConditionName, DeviceName, EventName};
use crate::numbers::{put_flag, put_name};
use crate::raw::{RawMonitor, RawProcess, RawRoutine};
use image_format::{SegTree, put_u8, put_u16, put_u32};
use out_of_memory::OutOfMemory;
use syntax_tree::Name;

/// Puts a device.
pub fn put_device(out: &mut Vec<u8>, device: &DeviceName) -> Result<(), OutOfMemory>
    requires { IsShort device.now.name }
    ensures { OnOk result (out.new.items ≡ out.old.items ++ device_bytes device.now) }
{
    put_name(out, &device.name)?;
    put_flag(out, device.out)?;
    Ok(())
}

/// Puts an event.
pub fn put_event(out: &mut Vec<u8>, event: &EventName) -> Result<(), OutOfMemory>
    requires { IsShort event.now.name }
    ensures { OnOk result (out.new.items ≡ out.old.items ++ event_bytes event.now) }
{
    put_name(out, &event.name)?;
    Ok(())
}

/// Puts a condition.
pub fn put_condition(out: &mut Vec<u8>, condition: &ConditionName) -> Result<(), OutOfMemory>
    requires { IsShort condition.now.name }
    ensures { OnOk result (out.new.items ≡ out.old.items ++ condition_bytes condition.now) }
{
    put_name(out, &condition.name)?;
    put_u16(out, condition.mon)?;
    Ok(())
}

/// Puts a monitor after its name.
pub fn put_monitor(out: &mut Vec<u8>, name: &Name, monitor: &RawMonitor) -> Result<(), OutOfMemory>
    requires { IsShort name.now }
    ensures { OnOk result (out.new.items ≡ out.old.items ++
        monitor_bytes name.now (monitor_of monitor.now)) }
{
    put_name(out, name)?;
    put_u32(out, monitor.base)?;
    put_u32(out, monitor.words)?;
    put_u16(out, monitor.ceiling)?;
    Ok(())
}

/// Puts whose a routine is, its parameters and locals, and whether it has a result.
fn put_owner(out: &mut Vec<u8>, routine: &RawRoutine) -> Result<(), OutOfMemory>
    ensures { OnOk result (out.new.items ≡ out.old.items ++ owner_bytes (routine_of routine.now)) }
{
    put_u8(out, routine.kind)?;
    put_u16(out, routine.owner)?;
    put_u16(out, routine.params)?;
    put_u32(out, routine.locals)?;
    put_flag(out, routine.result)?;
    Ok(())
}

/// Puts where the code of a routine stands, and what it takes of time.
fn put_cost(out: &mut Vec<u8>, routine: &RawRoutine) -> Result<(), OutOfMemory>
    ensures { OnOk result (out.new.items ≡ out.old.items ++ cost_bytes (routine_of routine.now)) }
{
    put_u32(out, routine.start)?;
    put_u32(out, routine.run)?;
    put_u32(out, routine.susp)?;
    put_u32(out, routine.waits)?;
    put_u32(out, routine.stay)?;
    Ok(())
}

/// Puts a tree.
fn put_tree(out: &mut Vec<u8>, tree: &SegTree) -> Result<(), OutOfMemory>
    ensures { OnOk result (out.new.items ≡ out.old.items ++ tree_bytes tree.now) }
{
    out.extend_from_slice(tree.bytes())?;
    Ok(())
}

/// Puts a routine.
pub fn put_routine(out: &mut Vec<u8>, routine: &RawRoutine) -> Result<(), OutOfMemory>
    ensures { OnOk result (out.new.items ≡ out.old.items ++
        routine_bytes (routine_of routine.now)) }
{
    put_owner(out, routine)?;
    put_cost(out, routine)?;
    put_tree(out, &routine.tree)?;
    Ok(())
}

/// Puts when a process is released, within what it has to end, and its rank.
fn put_release(out: &mut Vec<u8>, process: &RawProcess) -> Result<(), OutOfMemory>
    ensures { OnOk result (out.new.items ≡ out.old.items ++
        release_bytes Second (process_of process.now)) }
{
    put_u8(out, process.kind)?;
    put_u32(out, process.frame)?;
    put_u32(out, process.deadline)?;
    put_u32(out, process.first)?;
    put_u16(out, process.event)?;
    put_u16(out, process.rank)?;
    Ok(())
}

/// Puts what a process takes of time.
fn put_time(out: &mut Vec<u8>, process: &RawProcess) -> Result<(), OutOfMemory>
    ensures { OnOk result (out.new.items ≡ out.old.items ++ time_bytes (process_of process.now)) }
{
    put_u32(out, process.run)?;
    put_u32(out, process.susp)?;
    put_u32(out, process.waits)?;
    put_u32(out, process.block)?;
    put_u32(out, process.bound)?;
    Ok(())
}

/// Puts what a process takes of memory, and where its code stands.
fn put_room(out: &mut Vec<u8>, process: &RawProcess) -> Result<(), OutOfMemory>
    ensures { OnOk result (out.new.items ≡ out.old.items ++ room_bytes (process_of process.now)) }
{
    put_u32(out, process.words)?;
    put_u32(out, process.stack)?;
    put_u32(out, process.locals)?;
    put_u32(out, process.start)?;
    put_u32(out, process.handler)?;
    Ok(())
}

/// Puts how many numbers a handler takes, and these numbers.
fn put_numbers(out: &mut Vec<u8>, numbers: &[u16]) -> Result<(), OutOfMemory>
    requires { length numbers.now < 2 ^ 16 }
    ensures { OnOk result (out.new.items ≡ out.old.items ++ numbers_bytes numbers.now) }
{
    put_u16(out, numbers.len() as u16)?;
    for number in numbers {
        put_u16(out, *number)?;
    }
    Ok(())
}

/// Puts the tree of the handler of a process that has one.
fn put_handler(out: &mut Vec<u8>, process: &RawProcess) -> Result<(), OutOfMemory>
    ensures { OnOk result (out.new.items ≡ out.old.items ++
        handler_bytes process.now.numbers (process_of process.now).handler_tree) }
{
    match &process.handler_tree {
        Some(tree) if !process.numbers.is_empty() => put_tree(out, tree)?,
        _ => {}
    }
    Ok(())
}

/// Puts a process after its name.
pub fn put_process(out: &mut Vec<u8>, name: &Name, process: &RawProcess) -> Result<(), OutOfMemory>
    requires named { IsShort name.now }
    requires in_range { IsProcessInRange (process_of process.now) }
    ensures { OnOk result (out.new.items ≡ out.old.items ++
        process_bytes Second name.now (process_of process.now)) }
{
    put_name(out, name)?;
    put_release(out, process)?;
    put_time(out, process)?;
    put_room(out, process)?;
    put_numbers(out, process.numbers.as_slice())?;
    put_tree(out, &process.body)?;
    put_handler(out, process)?;
    Ok(())
}
