//! Finding the places.

ghost use Rattle.std.specs.Prelude.{◌≡◌, ◌<◌, ◌+◌, ◌^◌, IfOk, length};
ghost use Rattle.image.specs.Bytes.{Second, bytes_of};
ghost use Rattle.image.specs.InRange.{IsInRange};
ghost use Rattle.image.specs.Raw.{image_of, named_of};
ghost use Rattle.image_bytes.specs.Places.{AreOf};
ghost use Rattle.image_bytes.specs.Placing.{HasEnd, opening_bytes};
ghost use Rattle.valid_image.specs.Valid.{HasLimits};

use crate::code::code_has_words;
use crate::lists::{monitors_from, processes_from, routines_from};
use crate::names::{after_conditions, after_devices, after_events, after_name};
use crate::places::PartOffsets;
use image::RawImage;
use out_of_memory::OutOfMemory;
use std::alloc::Global;

/// So many bytes stand before the program's name: the letters, the version, the overhead and the
/// counts.
const BEFORE_PROGRAM: usize = 24;

/// The place of the monitors: after the program's name, the devices and the events.
fn after_opening(raw: &RawImage) -> usize
    requires { HasEnd 24 (opening_bytes raw.now) }
    ensures { result ≡ 24 + length (opening_bytes raw.now) }
{
    let devices = after_name(BEFORE_PROGRAM, &raw.program);
    let events = after_devices(devices, raw.names.devices.as_slice());
    after_events(events, raw.names.events.as_slice())
}

/// Where the parts of an image begin in the bytes that are written of it, which are fewer than
/// 2^64. The places follow from the image. An error says that memory is short.
pub fn places_of(alloc: Global, raw: &RawImage) -> Result<PartOffsets, OutOfMemory>
    requires limits { HasLimits (image_of raw.now) }
    requires written { IsInRange (named_of raw.now) }
    requires room { length (bytes_of Second (named_of raw.now)) < 2 ^ 64 }
    ensures { IfOk result (λ places.
        AreOf (bytes_of Second (named_of raw.now)) places (named_of raw.now)) }
{
    let names = &raw.names;
    let opened = after_opening(raw);
    let (monitors, conditions) = monitors_from(
        alloc,
        opened,
        names.monitors.as_slice(),
        raw.monitors.as_slice(),
    )?;
    let called = after_conditions(conditions, names.conditions.as_slice());
    let (routines, released) = routines_from(alloc, called, raw.routines.as_slice())?;
    let (processes, code) = processes_from(
        alloc,
        released,
        names.processes.as_slice(),
        raw.processes.as_slice(),
    )?;
    code_has_words(raw.code.as_slice());
    Ok(PartOffsets {
        monitors,
        routines,
        processes,
        code,
        instructions: raw.code.len() as u32,
    })
}
