//! Places after names.

ghost use Rattle.std.specs.Prelude.{◌≡◌, ◌+◌, length};
ghost use Rattle.std.specs.List.{flat_map};
ghost use Rattle.image_format.specs.Numbers.{name_bytes};
ghost use Rattle.image.specs.Bytes.{condition_bytes, device_bytes, event_bytes};
ghost use Rattle.image_bytes.specs.Placing.{HasEnd};

use image::{ConditionName, DeviceName, EventName};
use syntax_tree::Name;

/// The place after a name.
pub(crate) fn after_name(start: usize, name: &Name) -> usize
    requires { HasEnd start (name_bytes name.now) }
    ensures { result ≡ start + length (name_bytes name.now) }
{
    start + 1 + name.as_bytes().len()
}

/// The place after the devices, each of which has one byte more than its name.
pub(crate) fn after_devices(start: usize, devices: &[DeviceName]) -> usize
    requires { HasEnd start (flat_map device_bytes devices.now) }
    ensures { result ≡ start + length (flat_map device_bytes devices.now) }
{
    let mut at = start;
    for device in devices {
        at = after_name(at, &device.name) + 1;
    }
    at
}

/// The place after the events.
pub(crate) fn after_events(start: usize, events: &[EventName]) -> usize
    requires { HasEnd start (flat_map event_bytes events.now) }
    ensures { result ≡ start + length (flat_map event_bytes events.now) }
{
    let mut at = start;
    for event in events {
        at = after_name(at, &event.name);
    }
    at
}

/// The place after the conditions, each of which has two bytes more than its name.
pub(crate) fn after_conditions(start: usize, conditions: &[ConditionName]) -> usize
    requires { HasEnd start (flat_map condition_bytes conditions.now) }
    ensures { result ≡ start + length (flat_map condition_bytes conditions.now) }
{
    let mut at = start;
    for condition in conditions {
        at = after_name(at, &condition.name) + 2;
    }
    at
}
