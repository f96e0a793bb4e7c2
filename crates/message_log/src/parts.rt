//! What the parts of an image are called.

ghost use Rattle.std.specs.Prelude.{◌≡◌, ◌<◌, ◌++◌, OnOk, Some, length, map, slice_get};
ghost use Rattle.faulty_part.specs.Among.{number_among, share_owner as defined_share};
ghost use Rattle.image.specs.Raw.{named_of, routine_of};
ghost use Rattle.message_log.specs.Image.{called, monitor_called, owner_called, part_called, process_called, routine_called};

use crate::event_line::{monitor_of, process_of};
use faulty_part::FaultyPart;
use image::{ImageNames, RawImage, RawRoutine};
use message_text::{add_number, add_parts};
use out_of_memory::OutOfMemory;
use syntax_tree::Text;

/// Puts a kind and a name.
fn add_called(text: &mut Text, kind: &[u8], name: &[u8]) -> Result<(), OutOfMemory>
    ensures { OnOk result (text.new ≡ text.old ++ called kind.now name.now) }
{
    add_parts(text, &[kind, b" `", name, b"`"])
}

/// Puts a process.
fn add_process(text: &mut Text, names: &ImageNames, number: usize) -> Result<(), OutOfMemory>
    ensures { OnOk result (text.new ≡ text.old ++ process_called names.now number) }
{
    add_called(text, b"process", process_of(names, number))
}

/// Puts a monitor.
fn add_monitor(text: &mut Text, names: &ImageNames, number: usize) -> Result<(), OutOfMemory>
    ensures { OnOk result (text.new ≡ text.old ++ monitor_called names.now number) }
{
    add_called(text, b"monitor", monitor_of(names, number))
}

/// Puts whose routine it is.
fn add_owner(text: &mut Text, names: &ImageNames, routine: &RawRoutine) -> Result<(), OutOfMemory>
    ensures { OnOk result (text.new ≡ text.old ++ owner_called names.now (routine_of routine.now)) }
{
    match routine.kind {
        1 => add_process(text, names, routine.owner as usize),
        2 => add_monitor(text, names, routine.owner as usize),
        _ => text.extend(b"the program"),
    }
}

/// Whether two routines are of one owner.
fn share_owner(routine: &RawRoutine, other: &RawRoutine) -> bool
    ensures { result ≡ defined_share (routine_of routine.now) (routine_of other.now) }
{
    routine.kind == other.kind && (routine.kind == 0 || routine.owner == other.owner)
}

/// The number of a routine among those of its owner.
fn among_owner(routines: &[RawRoutine], number: usize, routine: &RawRoutine) -> usize
    requires { number < length routines.now }
    ensures { result ≡ number_among (map routine_of routines.now) number (routine_of routine.now) }
{
    let mut before = 0;
    for other in 0..number {
        if share_owner(routine, &routines[other]) {
            before += 1;
        }
    }
    before
}

/// Puts a routine by its number among those of its owner.
fn add_numbered(
    text: &mut Text,
    raw: &RawImage,
    number: usize,
    routine: &RawRoutine,
) -> Result<(), OutOfMemory>
    requires { number < length raw.now.routines }
    ensures { OnOk result (text.new ≡ text.old ++
        routine_called (named_of raw.now) number (Some (routine_of routine.now))) }
{
    let among = among_owner(raw.routines.as_slice(), number, routine);
    text.extend(b"routine ")?;
    add_number(text, among)?;
    text.extend(b" of ")?;
    add_owner(text, &raw.names, routine)
}

/// Puts a routine, where there is one of this number.
fn add_routine(text: &mut Text, raw: &RawImage, number: usize) -> Result<(), OutOfMemory>
    ensures { OnOk result (text.new ≡ text.old ++ routine_called (named_of raw.now) number
        (slice_get (named_of raw.now).image.routines number)) }
{
    match raw.routines.as_slice().get(number) {
        None => text.extend(b"the image"),
        Some(routine) => add_numbered(text, raw, number, routine),
    }
}

/// Puts what a part of an image is called.
pub(crate) fn add_part(text: &mut Text, raw: &RawImage, part: FaultyPart) -> Result<(), OutOfMemory>
    ensures { OnOk result (text.new ≡ text.old ++ part_called (named_of raw.now) part) }
{
    match part {
        FaultyPart::Routine(number) => add_routine(text, raw, number),
        FaultyPart::Process(number) => add_process(text, &raw.names, number),
        FaultyPart::Monitor(number) => add_monitor(text, &raw.names, number),
        FaultyPart::Whole => text.extend(b"the image"),
    }
}
