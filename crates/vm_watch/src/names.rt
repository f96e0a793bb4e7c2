//! Names in lines.

ghost use Rattle.std.specs.Prelude.{◌≡◌, ◌++◌, [], OnOk, Some, slice_get, unwrap_or};
ghost use Rattle.event_log.specs.Line.{condition_name, monitor_name, process_name, qualified};

use image::{ConditionName, ImageNames};
use out_of_memory::OutOfMemory;
use syntax_tree::{Name, Text};

/// The name of a number, or no bytes where it has none.
fn name_of(names: &[Name], number: usize) -> &[u8]
    ensures { result.now ≡ unwrap_or (slice_get names.now number) [] }
{
    match names.get(number) {
        Some(name) => name.as_bytes(),
        None => b"",
    }
}

/// The name of a process.
pub(crate) fn process_of(names: &ImageNames, number: usize) -> &[u8]
    ensures { result.now ≡ process_name names.now number }
{
    name_of(names.processes.as_slice(), number)
}

/// The name of a monitor.
pub(crate) fn monitor_of(names: &ImageNames, number: usize) -> &[u8]
    ensures { result.now ≡ monitor_name names.now number }
{
    name_of(names.monitors.as_slice(), number)
}

/// Puts a condition: the name of its monitor, and its own.
fn put_qualified(
    text: &mut Text,
    names: &ImageNames,
    condition: &ConditionName,
) -> Result<(), OutOfMemory>
    ensures { OnOk result (text.new ≡ text.old ++ qualified names.now (Some condition.now)) }
{
    text.extend(monitor_of(names, condition.mon as usize))?;
    text.extend(b" ")?;
    text.extend(condition.name.as_bytes())?;
    Ok(())
}

/// Puts the name of a condition after that of its monitor.
pub(crate) fn put_condition(
    text: &mut Text,
    names: &ImageNames,
    number: usize,
) -> Result<(), OutOfMemory>
    ensures { OnOk result (text.new ≡ text.old ++ condition_name names.now number) }
{
    match names.conditions.as_slice().get(number) {
        Some(condition) => put_qualified(text, names, condition),
        None => Ok(()),
    }
}
