//! Numbers of names.

ghost use Rattle.std.specs.Prelude.{◌≡◌, ◌≤◌, ◌<◌, ◌^◌, ◌++◌, ℕ, [], ◌∷◌, length, slice_get, unwrap_or, IfOk, OnOk};
ghost use Rattle.event_log.specs.Line.{device_name, monitor_name};
ghost use Rattle.image.specs.NameMaps.{number_in};
ghost use Rattle.event_log.specs.Finding.{AreConditionNames, AreNumbers};

use image::{ConditionName, ImageNames};
use indexmap::IndexMap;
use out_of_memory::OutOfMemory;
use std::alloc::Global;
use syntax_tree::{List, Name};

/// Numbers by name.
pub type NumbersByName<'a> = IndexMap<&'a [u8], u16>;

/// The number of a name.
pub fn find(numbers: &NumbersByName<'_>, name: &[u8]) -> Option<u16>
    ensures { result ≡ number_in numbers.now.entries name.now }
{
    numbers.get(name).copied()
}

/// The numbers of these names; of two that are the same, that of the later.
pub fn numbers_of<'a>(alloc: Global, list: &'a [Name]) -> Result<NumbersByName<'a>, OutOfMemory>
    requires { length list.now ≤ 2 ^ 16 }
    ensures { IfOk result (λ numbers.
        AreNumbers numbers.entries (length list.now) (λ k. unwrap_or (slice_get list.now k) [])) }
{
    let mut numbers = NumbersByName::new(alloc);
    for (k, name) in list.iter().enumerate() {
        numbers.insert(name.as_bytes(), k as u16)?;
    }
    Ok(numbers)
}

/// The numbers of the devices.
pub fn device_numbers<'a>(
    alloc: Global,
    names: &'a ImageNames,
) -> Result<NumbersByName<'a>, OutOfMemory>
    requires { length names.now.devices ≤ 2 ^ 16 }
    ensures { IfOk result (λ numbers.
        AreNumbers numbers.entries (length names.now.devices) (device_name names.now)) }
{
    let devices = names.devices.as_slice();
    let mut numbers = NumbersByName::new(alloc);
    for (k, device) in devices.iter().enumerate() {
        numbers.insert(device.name.as_bytes(), k as u16)?;
    }
    Ok(numbers)
}

/// The name of a monitor; nothing where there is none of this number.
fn monitor_of(names: &ImageNames, number: u16) -> &[u8]
    ensures { result.now ≡ monitor_name names.now number }
{
    match names.monitors.get(usize::from(number)) {
        None => b"",
        Some(name) => name.as_bytes(),
    }
}

/// The name of a condition behind that of its monitor.
fn qualified_name(alloc: Global, monitor: &[u8], name: &[u8]) -> Result<Name, OutOfMemory>
    ensures { IfOk result (λ text. text ≡ monitor.now ++ 32 ∷ name.now) }
{
    let mut text = Vec::new(alloc);
    text.extend_from_slice(monitor)?;
    text.push(b' ')?;
    text.extend_from_slice(name)?;
    Name::new(alloc, text.as_slice())
}

/// The names of the conditions as lines tell them, behind those of their monitors.
pub fn condition_names(alloc: Global, names: &ImageNames) -> Result<List<Name>, OutOfMemory>
    ensures { IfOk result (AreConditionNames names.now) }
{
    let mut texts = List::new(alloc);
    for condition in names.conditions.as_slice() {
        let monitor = monitor_of(names, condition.mon);
        texts.push(qualified_name(alloc, monitor, condition.name.as_bytes())?)?;
    }
    Ok(texts)
}
