//! Numbers of devices and events by their names.

ghost use Rattle.std.specs.Prelude.{◌≡◌, ◌≤◌, ◌^◌, length, IfOk, OnOk};
ghost use Rattle.image.specs.NameMaps.{number_in};
ghost use Rattle.script.specs.Reading.{AddsDevice, AddsNumber, AreNumbers};
ghost use Rattle.script.specs.Scripts.{in_device, event_number};

use image::{DeviceName, ImageNames};
use indexmap::IndexMap;
use out_of_memory::OutOfMemory;
use std::alloc::Global;
use text_fields::is_same;

/// Numbers by name.
pub type SymbolNumbers<'a> = IndexMap<&'a [u8], u16>;

/// So many names are compared before the map is asked.
const FEW: usize = 4;

/// The number of a name. The first name is compared before others are looked at.
#[inline(always)]
pub fn find(numbers: &SymbolNumbers<'_>, name: &[u8]) -> Option<u16>
    ensures { result ≡ number_in numbers.now.entries name.now }
{
    if let Some((key, number)) = numbers.get_index(0) {
        if is_same(key, name) {
            return Some(*number);
        }
    }
    find_later(numbers, name)
}

/// The same, where the first name is another.
#[inline(never)]
fn find_later(numbers: &SymbolNumbers<'_>, name: &[u8]) -> Option<u16>
    ensures { result ≡ number_in numbers.now.entries name.now }
{
    for at in 1..FEW {
        if let Some((key, number)) = numbers.get_index(at) {
            if is_same(key, name) {
                return Some(*number);
            }
        }
    }
    numbers.get(name).copied()
}

/// Gives the name a number, unless it has one.
fn add<'a>(numbers: &mut SymbolNumbers<'a>, name: &'a [u8], number: u16) -> Result<(), OutOfMemory>
    ensures { OnOk result (AddsNumber numbers.old.entries numbers.new.entries name.now number) }
{
    if find(numbers, name).is_some() {
        return Ok(());
    }
    numbers.insert(name, number)?;
    Ok(())
}

/// Gives the name of an in device a number, unless it has one.
fn add_device<'a>(
    numbers: &mut SymbolNumbers<'a>,
    device: &'a DeviceName,
    number: u16,
) -> Result<(), OutOfMemory>
    ensures { OnOk result
        (AddsDevice numbers.old.entries numbers.new.entries device.now number) }
{
    if device.out {
        return Ok(());
    }
    add(numbers, device.name.as_bytes(), number)
}

/// The numbers of the in devices.
pub fn device_numbers<'a>(
    alloc: Global,
    names: &'a ImageNames,
) -> Result<SymbolNumbers<'a>, OutOfMemory>
    requires { length names.now.devices ≤ 2 ^ 16 }
    ensures { IfOk result (λ numbers. AreNumbers numbers.entries (in_device names.now)) }
{
    let devices = names.devices.as_slice();
    let mut numbers = SymbolNumbers::new(alloc);
    for (k, device) in devices.iter().enumerate() {
        add_device(&mut numbers, device, k as u16)?;
    }
    Ok(numbers)
}

/// The numbers of the events.
pub fn event_numbers<'a>(
    alloc: Global,
    names: &'a ImageNames,
) -> Result<SymbolNumbers<'a>, OutOfMemory>
    requires { length names.now.events ≤ 2 ^ 16 }
    ensures { IfOk result (λ numbers. AreNumbers numbers.entries (event_number names.now)) }
{
    let events = names.events.as_slice();
    let mut numbers = SymbolNumbers::new(alloc);
    for (k, event) in events.iter().enumerate() {
        add(&mut numbers, event.name.as_bytes(), k as u16)?;
    }
    Ok(numbers)
}
