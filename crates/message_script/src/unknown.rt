//! Names that are no in device, or no event.

ghost use Rattle.std.specs.Prelude.{◌≡◌, ◌+◌, ◌<◌, ◌^◌, length, map, option_map, IfOk};
ghost use Rattle.message_text.specs.Lines.{return_place};
ghost use Rattle.message_text.specs.Nearest.{nearest as nearest_of};
ghost use Rattle.message_script.specs.Unknown.{events, in_devices, is_out, is_out_device, known};
ghost use Rattle.message_script.specs.Unknown.{no_device, no_such, unknown, unknown_name};
ghost use Rattle.message_script.specs.Unknown.{unknown_sentence};
ghost use Rattle.message_script.specs.Words.{seen};

use crate::telling::{Note, Told, at_byte, at_word};
use crate::words::{Word, is_word, word_at};
use image::{DeviceName, ImageNames};
use message_text::{add_hint, add_quoted, nearest, return_place};
use out_of_memory::OutOfMemory;
use std::alloc::Global;
use syntax_tree::Text;

/// The names of the in devices.
#[tactic(auto, unfolding(crate::specs::Unknown::in_devices))]
fn in_devices<'a>(alloc: Global, names: &'a ImageNames) -> Result<Vec<&'a [u8]>, OutOfMemory>
    ensures { IfOk result (λ all. map (λ name. name.now) all.items ≡ in_devices names.now) }
{
    let devices = names.devices.as_slice();
    let mut all = Vec::new(alloc);
    for device in devices {
        if !device.out {
            all.push(device.name.as_bytes())?;
        }
    }
    Ok(all)
}

/// The names of the events.
#[tactic(auto, unfolding(crate::specs::Unknown::events))]
fn events<'a>(alloc: Global, names: &'a ImageNames) -> Result<Vec<&'a [u8]>, OutOfMemory>
    ensures { IfOk result (λ all. map (λ name. name.now) all.items ≡ events names.now) }
{
    let events = names.events.as_slice();
    let mut all = Vec::new(alloc);
    for event in events {
        all.push(event.name.as_bytes())?;
    }
    Ok(all)
}

/// The names of the in devices, or of the events.
fn known<'a>(
    alloc: Global,
    names: &'a ImageNames,
    is_set: bool,
) -> Result<Vec<&'a [u8]>, OutOfMemory>
    ensures { IfOk result (λ all. map (λ name. name.now) all.items ≡ known names.now is_set) }
{
    if is_set {
        in_devices(alloc, names)
    } else {
        events(alloc, names)
    }
}

/// The nearest of these names, if one is near.
fn nearest_known<'a>(
    alloc: Global,
    names: &'a ImageNames,
    is_set: bool,
    name: &[u8],
) -> Result<Option<&'a [u8]>, OutOfMemory>
    ensures { IfOk result (λ found. option_map (λ it. it.now) found ≡
        nearest_of name.now (known names.now is_set)) }
{
    let all = known(alloc, names, is_set)?;
    nearest(alloc, name, all.as_slice())
}

/// Whether this is an out device of this name.
fn is_out_device(device: &DeviceName, name: &[u8]) -> bool
    ensures { result ≡ is_out_device name.now device.now }
{
    device.name.as_bytes() == name && device.out
}

/// Whether an out device has this name.
#[tactic(auto, unfolding(crate::specs::Unknown::is_out))]
fn is_out(names: &ImageNames, name: &[u8]) -> bool
    ensures { result ≡ is_out names.now name.now }
{
    let devices = names.devices.as_slice();
    devices.iter().any(|device| is_out_device(device, name))
}

/// That a name is no in device.
#[tactic(auto, unfolding(crate::specs::Unknown::no_device))]
fn no_device(is_out: bool) -> &'static [u8]
    ensures { result.now ≡ no_device is_out }
{
    if is_out {
        b" is an `out` device; a script sets `in` devices"
    } else {
        b" is no `in` device"
    }
}

/// That a name is no in device, or no event.
#[tactic(auto, unfolding(crate::specs::Unknown::no_such))]
fn no_such(names: &ImageNames, is_set: bool, name: &[u8]) -> &'static [u8]
    ensures { result.now ≡ no_such names.now is_set name.now }
{
    if is_set {
        no_device(is_out(names, name))
    } else {
        b" is no event"
    }
}

/// What is wrong with a name.
#[tactic(auto, unfolding(crate::specs::Unknown::unknown_sentence))]
fn unknown_sentence(
    alloc: Global,
    names: &ImageNames,
    is_set: bool,
    name: &[u8],
) -> Result<Text, OutOfMemory>
    ensures { IfOk result (λ text. text ≡ unknown_sentence names.now is_set name.now) }
{
    let near = nearest_known(alloc, names, is_set, name)?;
    let mut text = Text::new(alloc);
    add_quoted(&mut text, name)?;
    text.extend(no_such(names, is_set, name))?;
    add_hint(&mut text, near)?;
    Ok(text)
}

/// Tells what is wrong with the name of a device or of an event.
fn unknown_name(
    alloc: Global,
    names: &ImageNames,
    is_set: bool,
    word: Word<'_>,
) -> Result<Told, OutOfMemory>
    requires { word.column + length word.bytes.now < 2 ^ 64 }
    ensures { IfOk result (λ told. told ≡
        unknown_name names.now is_set (seen word.entry) (return_place word.entry.bytes.now)) }
{
    match return_place(word.bytes) {
        Some(place) => {
            let note = Some(Note::LineFeedAlone);
            at_byte(alloc, word.column + place, b"a carriage return", note)
        }
        None => {
            let sentence = unknown_sentence(alloc, names, is_set, word.bytes)?;
            Ok(at_word(word, sentence, None))
        }
    }
}

/// Tells what is wrong with a line whose device or event is not known.
#[tactic(auto, unfolding(crate::specs::Unknown::unknown))]
pub(crate) fn unknown(
    alloc: Global,
    names: &ImageNames,
    line: &[u8],
) -> Result<Option<Told>, OutOfMemory>
    ensures { IfOk result (λ told. told ≡ unknown names.now line.now) }
{
    let is_set = is_word(word_at(line, 1), b"set");
    match word_at(line, 2) {
        None => Ok(None),
        Some(name) => Ok(Some(unknown_name(alloc, names, is_set, name)?)),
    }
}
