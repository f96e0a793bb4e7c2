//! The line of an event in a log, put behind a text, without its line feed.

ghost use Rattle.std.specs.Prelude.{◌≡◌, ◌++◌, ◌∷◌, [], OnOk, Some, decimal, option_map, slice_get, unwrap_or};
ghost use Rattle.std.specs.Fmt.{signed_decimal};
ghost use Rattle.event_log.specs.Line.{condition_name, device_name, monitor_name, process_name, qualified, truth_text, woken_name};
ghost use Rattle.event_log.specs.Parts.{args_text, spelled, verb_of, verb_text};
ghost use Rattle.replay_reason_spec.specs.Events.{act_of, event_of};
ghost use Rattle.message_log.specs.Refused.{behind};

use image::{ConditionName, DeviceName, ImageNames};
use itoa::Buffer;
use message_text::add_number;
use out_of_memory::OutOfMemory;
use replay_reason_spec::{SourceAct, SourceEvent};
use syntax_tree::{Name, Text};

/// The name of this number, nothing where there is none.
fn name_at(names: &[Name], number: usize) -> &[u8]
    ensures { result.now ≡ unwrap_or (slice_get names.now number) [] }
{
    match names.get(number) {
        None => b"",
        Some(name) => name.as_bytes(),
    }
}

/// The name of a process.
pub(crate) fn process_of(names: &ImageNames, number: usize) -> &[u8]
    ensures { result.now ≡ process_name names.now number }
{
    name_at(names.processes.as_slice(), number)
}

/// The name of a monitor.
pub(crate) fn monitor_of(names: &ImageNames, number: usize) -> &[u8]
    ensures { result.now ≡ monitor_name names.now number }
{
    name_at(names.monitors.as_slice(), number)
}

/// The name of the device of this number, nothing where there is none.
fn device_at(devices: &[DeviceName], number: usize) -> &[u8]
    ensures { result.now ≡
        unwrap_or (option_map (λ device. device.name) (slice_get devices.now number)) [] }
{
    match devices.get(number) {
        None => b"",
        Some(device) => device.name.as_bytes(),
    }
}

/// The name of a device.
fn device_of(names: &ImageNames, number: usize) -> &[u8]
    ensures { result.now ≡ device_name names.now number }
{
    device_at(names.devices.as_slice(), number)
}

/// The name of a process that is taken out of a queue, or a dash.
fn woken_of(names: &ImageNames, woken: Option<usize>) -> &[u8]
    ensures { result.now ≡ woken_name names.now woken }
{
    match woken {
        None => b"-",
        Some(number) => process_of(names, number),
    }
}

/// 1 for yes and 0 for no.
fn truth_of(answer: bool) -> &'static [u8]
    ensures { result.now ≡ truth_text answer }
{
    if answer { b"1" } else { b"0" }
}

/// Puts a blank and a word.
fn add_word(text: &mut Text, word: &[u8]) -> Result<(), OutOfMemory>
    ensures { OnOk result (text.new ≡ text.old ++ 32 ∷ word.now) }
{
    text.extend(b" ")?;
    text.extend(word)
}

/// Puts a blank and a number.
fn add_count(text: &mut Text, number: usize) -> Result<(), OutOfMemory>
    ensures { OnOk result (text.new ≡ text.old ++ 32 ∷ decimal number) }
{
    text.extend(b" ")?;
    add_number(text, number)
}

/// Puts a blank and a value.
fn add_value(text: &mut Text, value: i64) -> Result<(), OutOfMemory>
    ensures { OnOk result (text.new ≡ text.old ++ 32 ∷ signed_decimal value) }
{
    let mut digits = Buffer::new();
    add_word(text, digits.format(value).as_bytes())
}

/// Puts a blank and the name of a condition, after its monitor's.
fn add_qualified(
    text: &mut Text,
    names: &ImageNames,
    condition: &ConditionName,
) -> Result<(), OutOfMemory>
    ensures { OnOk result
        (text.new ≡ text.old ++ 32 ∷ qualified names.now (Some condition.now)) }
{
    add_word(text, monitor_of(names, usize::from(condition.mon)))?;
    add_word(text, condition.name.as_bytes())
}

/// Puts a blank and the name of the condition of this number.
fn add_condition(text: &mut Text, names: &ImageNames, number: usize) -> Result<(), OutOfMemory>
    ensures { OnOk result (text.new ≡ text.old ++ 32 ∷ condition_name names.now number) }
{
    match names.conditions.as_slice().get(number) {
        None => text.extend(b" "),
        Some(condition) => add_qualified(text, names, condition),
    }
}

/// Puts a condition and a word, each behind a blank.
fn add_asked(
    text: &mut Text,
    names: &ImageNames,
    condition: usize,
    word: &[u8],
) -> Result<(), OutOfMemory>
    ensures { OnOk result
        (text.new ≡ text.old ++ 32 ∷ (condition_name names.now condition ++ 32 ∷ word.now)) }
{
    add_condition(text, names, condition)?;
    add_word(text, word)
}

/// Puts a condition and a number, each behind a blank.
fn add_counted(
    text: &mut Text,
    names: &ImageNames,
    condition: usize,
    number: usize,
) -> Result<(), OutOfMemory>
    ensures { OnOk result
        (text.new ≡ text.old ++ 32 ∷ (condition_name names.now condition ++ 32 ∷ decimal number)) }
{
    add_condition(text, names, condition)?;
    add_count(text, number)
}

/// Puts a device and a value, each behind a blank.
fn add_transfer(
    text: &mut Text,
    names: &ImageNames,
    device: usize,
    value: i64,
) -> Result<(), OutOfMemory>
    ensures { OnOk result
        (text.new ≡ text.old ++ 32 ∷ (device_name names.now device ++ 32 ∷ signed_decimal value)) }
{
    add_word(text, device_of(names, device))?;
    add_value(text, value)
}

/// The word of what is done.
fn verb(act: SourceAct) -> &'static [u8]
    ensures { result.now ≡ verb_text (verb_of (act_of act)) }
{
    match act {
        SourceAct::Release => b"release",
        SourceAct::TimeOut { .. } => b"timeout",
        SourceAct::Get { .. } => b"get",
        SourceAct::Put { .. } => b"put",
        SourceAct::Enter { .. } => b"enter",
        SourceAct::Leave { .. } => b"leave",
        SourceAct::Wait { .. } => b"wait",
        SourceAct::Signal { .. } => b"signal",
        SourceAct::Broadcast { .. } => b"broadcast",
        SourceAct::Empty { .. } => b"empty",
        SourceAct::Raise { .. } => b"raise",
        SourceAct::End => b"end",
    }
}

/// Puts what stands behind the word of what is done.
fn add_args(text: &mut Text, names: &ImageNames, act: SourceAct) -> Result<(), OutOfMemory>
    ensures { OnOk result (text.new ≡ text.old ++ behind (args_text names.now (act_of act))) }
{
    match act {
        SourceAct::Release => Ok(()),
        SourceAct::TimeOut { cond, number } => add_counted(text, names, cond, number as usize),
        SourceAct::Get { dev, value } => add_transfer(text, names, dev, value),
        SourceAct::Put { dev, value } => add_transfer(text, names, dev, value),
        SourceAct::Enter { mon } => add_word(text, monitor_of(names, mon)),
        SourceAct::Leave { mon } => add_word(text, monitor_of(names, mon)),
        SourceAct::Wait { cond } => add_condition(text, names, cond),
        SourceAct::Signal { cond, woken } => add_asked(text, names, cond, woken_of(names, woken)),
        SourceAct::Broadcast { cond, count } => add_counted(text, names, cond, count),
        SourceAct::Empty { cond, answer } => add_asked(text, names, cond, truth_of(answer)),
        SourceAct::Raise { number } => add_count(text, number as usize),
        SourceAct::End => Ok(()),
    }
}

/// Puts the line of an event in a log, without its line feed.
pub(crate) fn add_event(
    text: &mut Text,
    names: &ImageNames,
    event: &SourceEvent,
) -> Result<(), OutOfMemory>
    ensures { OnOk result (text.new ≡ text.old ++ spelled names.now (event_of event.now)) }
{
    add_number(text, event.tick as usize)?;
    add_word(text, process_of(names, event.process))?;
    add_word(text, verb(event.act))?;
    add_args(text, names, event.act)
}
