//! Reading a script.

ghost use Rattle.std.specs.Prelude.{◌≡◌, ◌<◌, ◌≤◌, ◌+◌, ◌^◌, ◌⊎◌, [], length, IfOk, IfErr, OnOk};
ghost use Rattle.out_of_memory.specs.Refused.{refused};
ghost use Rattle.script.specs.declared.fault.ScriptFault.TheVariants.{Memory};
ghost use Rattle.script.specs.Scripts.{IsScript, event_number, in_device, longest_text, most_lines};
ghost use Rattle.script.specs.Faults.{IsFault, IsFaultHere, IsFaultOfRest};
ghost use Rattle.script.specs.Reading.{AreNumbers, IsNext, IsPast};

use crate::fault::ScriptFault;
use crate::numbers::{SymbolNumbers, device_numbers, event_numbers};
use crate::past::Past;
use crate::reader::{NextLine, bad, judge_next};
use crate::refusal;
use crate::script::Script;
use image::ImageNames;
use std::alloc::Global;

/// How many bytes a script has at most.
const LONGEST_TEXT: usize = 16_777_216;

/// How many lines a script has at most, with the one that says the end.
const MOST_LINES: usize = 1_000_000;

/// Whether the bytes after the line that says the end are none; else their fault.
fn end_with(
    names: &ImageNames,
    devices: &SymbolNumbers<'_>,
    events: &SymbolNumbers<'_>,
    past: &Past,
    bytes: &[u8],
    number: u32,
) -> Result<(), ScriptFault>
    requires past { IsPast names.now past.now.lines past.now.last past.now.occurred.items }
    requires devices { AreNumbers devices.now.entries (in_device names.now) }
    requires events { AreNumbers events.now.entries (event_number names.now) }
    ensures none { OnOk result (bytes.now ≡ []) }
    ensures fault { IfErr result (λ fault.
        IsFaultOfRest names.now past.now.lines bytes.now number fault) }
{
    if bytes.is_empty() {
        return Ok(());
    }
    match judge_next(names, devices, events, past, bytes, number) {
        Err(fault) => Err(fault),
        Ok(_) => Err(bad(refusal::END, number)),
    }
}

/// What the first line of the bytes means after the lines read so far, if it is not one too many,
/// or its fault.
#[inline(always)]
fn next_within<'a>(
    names: &ImageNames,
    devices: &SymbolNumbers<'_>,
    events: &SymbolNumbers<'_>,
    past: &Past,
    bytes: &'a [u8],
) -> Result<NextLine<'a>, ScriptFault>
    requires some { 0 < length bytes.now }
    requires few { length past.now.lines ≤ most_lines }
    requires past { IsPast names.now past.now.lines past.now.last past.now.occurred.items }
    requires devices { AreNumbers devices.now.entries (in_device names.now) }
    requires events { AreNumbers events.now.entries (event_number names.now) }
    ensures next { IfOk result (λ next. IsNext names.now past.now.lines bytes.now next) }
    ensures few { OnOk result (length past.now.lines + 1 ≤ most_lines) }
    ensures fault { IfErr result (λ fault. IsFaultHere names.now past.now.lines bytes.now fault) }
{
    let number = past.lines.len() as u32 + 1;
    match judge_next(names, devices, events, past, bytes, number) {
        Err(fault) => Err(fault),
        Ok(next) => {
            if past.lines.len() == MOST_LINES {
                return Err(bad(refusal::LONG, number));
            }
            Ok(next)
        }
    }
}

/// Reads a text that is not too long, line by line.
fn read_lines(
    names: &ImageNames,
    devices: &SymbolNumbers<'_>,
    events: &SymbolNumbers<'_>,
    mut past: Past,
    text: &[u8],
) -> Result<Script, ScriptFault>
    requires short { length text.now ≤ longest_text }
    requires none { past.lines ≡ [] }
    requires past { IsPast names.now past.lines past.last past.occurred.items }
    requires devices { AreNumbers devices.now.entries (in_device names.now) }
    requires events { AreNumbers events.now.entries (event_number names.now) }
    ensures script { IfOk result (λ script.
        IsScript names.now text.now script.lines script.end) }
    ensures fault { IfErr result (λ fault. (fault ≡ Memory refused) ⊎
        IsFault names.now text.now fault) }
{
    let mut rest = text;
    while !rest.is_empty() {
        match next_within(names, devices, events, &past, rest) {
            Err(fault) => return Err(fault),
            Ok(NextLine::Line { line, rest: after }) => {
                past.add(names, line)?;
                rest = after;
            }
            Ok(NextLine::End { tick, rest: after }) => {
                let number = past.lines.len() as u32 + 2;
                if let Err(fault) = end_with(names, devices, events, &past, after, number) {
                    return Err(fault);
                }
                return Ok(Script {
                    lines: past.lines,
                    end: tick,
                });
            }
        }
    }
    Err(bad(refusal::END, past.lines.len() as u32 + 1))
}

/// Reads a text that is not too long from its first line on.
fn read_from_start(
    alloc: Global,
    names: &ImageNames,
    devices: &SymbolNumbers<'_>,
    events: &SymbolNumbers<'_>,
    text: &[u8],
) -> Result<Script, ScriptFault>
    requires short { length text.now ≤ longest_text }
    requires devices { AreNumbers devices.now.entries (in_device names.now) }
    requires events { AreNumbers events.now.entries (event_number names.now) }
    ensures script { IfOk result (λ script.
        IsScript names.now text.now script.lines script.end) }
    ensures fault { IfErr result (λ fault. (fault ≡ Memory refused) ⊎
        IsFault names.now text.now fault) }
{
    let past = Past::new(alloc, names)?;
    read_lines(names, devices, events, past, text)
}

/// Reads a text that is not too long, for these numbers of devices.
fn read_for(
    alloc: Global,
    names: &ImageNames,
    devices: &SymbolNumbers<'_>,
    text: &[u8],
) -> Result<Script, ScriptFault>
    requires short { length text.now ≤ longest_text }
    requires devices { AreNumbers devices.now.entries (in_device names.now) }
    requires events { length names.now.events ≤ 2 ^ 16 }
    ensures script { IfOk result (λ script.
        IsScript names.now text.now script.lines script.end) }
    ensures fault { IfErr result (λ fault. (fault ≡ Memory refused) ⊎
        IsFault names.now text.now fault) }
{
    let events = event_numbers(alloc, names)?;
    read_from_start(alloc, names, devices, &events, text)
}

/// The script that the text is, for these names. Devices and events are found by their names.
///
/// It is a script where its lines are those of one that respects the frames, the last says an end
/// above the ticks, and the limits hold: at most 16,777,216 bytes and 1,000,000 lines. Else `Bad`
/// has the fault: S6 on line 0 where the text is too long, or the first line that breaks a rule
/// with the least number of those that it breaks, S4 with its two ticks. `Memory` may stand in
/// place of any answer but S6 on line 0.
pub fn read_script(alloc: Global, text: &[u8], names: &ImageNames) -> Result<Script, ScriptFault>
    requires devices { length names.now.devices ≤ 2 ^ 16 }
    requires events { length names.now.events ≤ 2 ^ 16 }
    ensures script { IfOk result (λ script.
        IsScript names.now text.now script.lines script.end) }
    ensures fault { IfErr result (λ fault. (fault ≡ Memory refused) ⊎
        IsFault names.now text.now fault) }
{
    if text.len() > LONGEST_TEXT {
        return Err(bad(refusal::LONG, 0));
    }
    let devices = device_numbers(alloc, names)?;
    read_for(alloc, names, &devices, text)
}
