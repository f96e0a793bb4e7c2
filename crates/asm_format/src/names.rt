//! The lines of devices, events, monitors and conditions.

ghost use Rattle.std.specs.Prelude.{◌≡◌, ◌++◌, OnOk};
ghost use Rattle.image.specs.Raw.{monitor_of};
ghost use Rattle.asm_format.specs.Text.{ceiling_text, condition_line, device_line, direction, event_line, head_line, monitor_line};

use crate::numbers::put_field;
use image::{ConditionName, DeviceName, RawMonitor};
use out_of_memory::OutOfMemory;
use syntax_tree::{Name, Text};

/// Puts the line of the program's name and the overhead.
pub fn put_head(text: &mut Text, program: &Name, overhead: u16) -> Result<(), OutOfMemory>
    ensures { OnOk result (text.new ≡ text.old ++ head_line program.now overhead) }
{
    text.extend(b"image ")?;
    text.extend(program.as_bytes())?;
    put_field(text, b" overhead ", u32::from(overhead))?;
    text.extend(b"\n")?;
    Ok(())
}

/// The word of a direction, to the end of the line.
fn direction_of(out: bool) -> &'static [u8]
    ensures { result.now ≡ direction out }
{
    if out { b" out\n" } else { b" in\n" }
}

/// Puts the line of a device.
pub fn put_device(text: &mut Text, device: &DeviceName) -> Result<(), OutOfMemory>
    ensures { OnOk result (text.new ≡ text.old ++ device_line device.now) }
{
    text.extend(b"device ")?;
    text.extend(device.name.as_bytes())?;
    text.extend(direction_of(device.out))?;
    Ok(())
}

/// Puts the line of an event.
pub fn put_event(text: &mut Text, name: &Name) -> Result<(), OutOfMemory>
    ensures { OnOk result (text.new ≡ text.old ++ event_line name.now) }
{
    text.extend(b"event ")?;
    text.extend(name.as_bytes())?;
    text.extend(b"\n")?;
    Ok(())
}

/// Puts a ceiling, or that there is none.
fn put_ceiling(text: &mut Text, ceiling: u16) -> Result<(), OutOfMemory>
    ensures { OnOk result (text.new ≡ text.old ++ ceiling_text ceiling) }
{
    if ceiling == 65_535 {
        text.extend(b"none")?;
    } else {
        put_field(text, b"", u32::from(ceiling))?;
    }
    Ok(())
}

/// Puts the line of a monitor.
pub fn put_monitor(text: &mut Text, name: &Name, monitor: &RawMonitor) -> Result<(), OutOfMemory>
    ensures { OnOk result (text.new ≡ text.old ++ monitor_line name.now (monitor_of monitor.now)) }
{
    text.extend(b"monitor ")?;
    text.extend(name.as_bytes())?;
    put_field(text, b" base ", monitor.base)?;
    put_field(text, b" words ", monitor.words)?;
    text.extend(b" ceiling ")?;
    put_ceiling(text, monitor.ceiling)?;
    text.extend(b"\n")?;
    Ok(())
}

/// Puts the line of a condition.
pub fn put_condition(text: &mut Text, condition: &ConditionName) -> Result<(), OutOfMemory>
    ensures { OnOk result (text.new ≡ text.old ++ condition_line condition.now) }
{
    text.extend(b"condition ")?;
    text.extend(condition.name.as_bytes())?;
    put_field(text, b" ", u32::from(condition.mon))?;
    text.extend(b"\n")?;
    Ok(())
}
