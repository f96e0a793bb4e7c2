//! The devices, the events, the monitors and the conditions of a text.

ghost use Rattle.std.specs.Prelude.{◌≡◌, ◌++◌, ◌∷◌, [], codes, length, map, IfOk, OnOk};
ghost use Rattle.std.specs.List.{zip};
ghost use Rattle.image.specs.Raw.{monitor_of};
ghost use Rattle.image_reader.specs.File.{with_monitors};
ghost use Rattle.text_fields.specs.Front.{Gives, begins, front};
ghost use Rattle.asm_lines.specs.Names.{condition_read, device_read, event_read, monitor_read};
ghost use Rattle.assembler.specs.Sections.{conditions_read, devices_read, events_read, monitors_read, no_more};

use asm_lines::{condition_line, device_line, event_line, monitor_line};
use image::{ConditionName, DeviceName};
use image_reader::NamedMonitors;
use out_of_memory::OutOfMemory;
use std::alloc::Global;
use syntax_tree::{List, Name};
use text_fields::{FieldError, FieldFault, LineCursor, begins_with, refusal};

/// How many devices there are at most.
const MOST_DEVICES: usize = 64;
/// How many events there are at most.
const MOST_EVENTS: usize = 64;
/// How many monitors there are at most.
const MOST_MONITORS: usize = 64;
/// How many conditions there are at most.
const MOST_CONDITIONS: usize = 256;

/// Takes a name, so that no later part may have it.
pub fn take(alloc: Global, taken: &mut List<Name>, name: &Name) -> Result<(), OutOfMemory>
    ensures { OnOk result (taken.new ≡ taken.old ++ name.now ∷ []) }
{
    let copy = Name::new(alloc, name.as_bytes())?;
    taken.push(copy)?;
    Ok(())
}

/// No more devices stand here.
fn no_device<'a>(
    alloc: Global,
    at: LineCursor<'a>,
    taken: &[Name],
) -> Result<LineCursor<'a>, FieldError>
    ensures { Gives front result (no_more (begins (codes "device ")) (device_read taken.now)
        (front at.entry)) }
{
    if !begins_with(at.rest, b"device ") {
        return Ok(at);
    }
    device_line(alloc, at, taken)?;
    Err(FieldError::Fault(FieldFault {
        number: refusal::RANGE,
        left: at.start,
    }))
}

/// The devices, whose names are taken.
pub fn devices_at<'a>(
    alloc: Global,
    at: LineCursor<'a>,
    taken: &mut List<Name>,
) -> Result<(List<DeviceName>, LineCursor<'a>), FieldError>
    ensures read { Gives (λ x. (x.0, front x.1)) result (devices_read taken.old (front at.entry)) }
    ensures taken { IfOk result (λ x. taken.new ≡ taken.old ++ map (λ d. d.name) x.0) }
{
    let mut devices = List::new(alloc);
    let mut place = at;
    for _ in 0..MOST_DEVICES {
        if !begins_with(place.rest, b"device ") {
            return Ok((devices, place));
        }
        let (device, after) = device_line(alloc, place, taken.as_slice())?;
        take(alloc, taken, &device.name)?;
        devices.push(device)?;
        place = after;
    }
    let place = no_device(alloc, place, taken.as_slice())?;
    Ok((devices, place))
}

/// No more events stand here.
fn no_event<'a>(
    alloc: Global,
    at: LineCursor<'a>,
    taken: &[Name],
) -> Result<LineCursor<'a>, FieldError>
    ensures { Gives front result (no_more (begins (codes "event ")) (event_read taken.now)
        (front at.entry)) }
{
    if !begins_with(at.rest, b"event ") {
        return Ok(at);
    }
    event_line(alloc, at, taken)?;
    Err(FieldError::Fault(FieldFault {
        number: refusal::RANGE,
        left: at.start,
    }))
}

/// The names of the events, which are taken.
pub fn events_at<'a>(
    alloc: Global,
    at: LineCursor<'a>,
    taken: &mut List<Name>,
) -> Result<(List<Name>, LineCursor<'a>), FieldError>
    ensures read { Gives (λ x. (x.0, front x.1)) result (events_read taken.old (front at.entry)) }
    ensures taken { IfOk result (λ x. taken.new ≡ taken.old ++ x.0) }
{
    let mut events = List::new(alloc);
    let mut place = at;
    for _ in 0..MOST_EVENTS {
        if !begins_with(place.rest, b"event ") {
            return Ok((events, place));
        }
        let (event, after) = event_line(alloc, place, taken.as_slice())?;
        take(alloc, taken, &event)?;
        events.push(event)?;
        place = after;
    }
    let place = no_event(alloc, place, taken.as_slice())?;
    Ok((events, place))
}

/// No more monitors stand here.
fn no_monitor<'a>(
    alloc: Global,
    at: LineCursor<'a>,
    taken: &[Name],
) -> Result<LineCursor<'a>, FieldError>
    ensures { Gives front result (no_more (begins (codes "monitor ")) (monitor_read taken.now)
        (front at.entry)) }
{
    if !begins_with(at.rest, b"monitor ") {
        return Ok(at);
    }
    monitor_line(alloc, at, taken)?;
    Err(FieldError::Fault(FieldFault {
        number: refusal::RANGE,
        left: at.start,
    }))
}

/// The monitors, whose names are taken.
pub fn monitors_at<'a>(
    alloc: Global,
    at: LineCursor<'a>,
    taken: &mut List<Name>,
) -> Result<(NamedMonitors, LineCursor<'a>), FieldError>
    ensures read { Gives (λ x. (zip x.0.names (map monitor_of x.0.things), front x.1)) result
        (monitors_read taken.old (front at.entry)) }
    ensures taken { IfOk result (λ x. taken.new ≡
        with_monitors taken.old (zip x.0.names (map monitor_of x.0.things))) }
    ensures each { IfOk result (λ x. length x.0.names ≡ length x.0.things) }
{
    let mut names = List::new(alloc);
    let mut things = List::new(alloc);
    let mut place = at;
    for _ in 0..MOST_MONITORS {
        if !begins_with(place.rest, b"monitor ") {
            return Ok((NamedMonitors { names, things }, place));
        }
        let ((name, monitor), after) = monitor_line(alloc, place, taken.as_slice())?;
        take(alloc, taken, &name)?;
        names.push(name)?;
        things.push(monitor)?;
        place = after;
    }
    let place = no_monitor(alloc, place, taken.as_slice())?;
    Ok((NamedMonitors { names, things }, place))
}

/// No more conditions stand here.
fn no_condition<'a>(
    alloc: Global,
    at: LineCursor<'a>,
    taken: &[Name],
    monitors: usize,
    earlier: &[ConditionName],
) -> Result<LineCursor<'a>, FieldError>
    ensures { Gives front result (no_more (begins (codes "condition "))
        (condition_read taken.now monitors earlier.now) (front at.entry)) }
{
    if !begins_with(at.rest, b"condition ") {
        return Ok(at);
    }
    condition_line(alloc, at, taken, monitors, earlier)?;
    Err(FieldError::Fault(FieldFault {
        number: refusal::RANGE,
        left: at.start,
    }))
}

/// The conditions of so many monitors.
pub fn conditions_at<'a>(
    alloc: Global,
    at: LineCursor<'a>,
    taken: &[Name],
    monitors: usize,
) -> Result<(List<ConditionName>, LineCursor<'a>), FieldError>
    ensures { Gives (λ x. (x.0, front x.1)) result
        (conditions_read taken.now monitors (front at.entry)) }
{
    let mut conditions = List::new(alloc);
    let mut place = at;
    for _ in 0..MOST_CONDITIONS {
        if !begins_with(place.rest, b"condition ") {
            return Ok((conditions, place));
        }
        let earlier = conditions.as_slice();
        let (condition, after) = condition_line(alloc, place, taken, monitors, earlier)?;
        conditions.push(condition)?;
        place = after;
    }
    let place = no_condition(alloc, place, taken, monitors, conditions.as_slice())?;
    Ok((conditions, place))
}
