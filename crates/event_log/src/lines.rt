//! The log of a run: a line of text for each event.
//!
//! A line has the event's tick, the name of its process, what the process does and with what, with
//! one space between them, and ends with LF. The definition is `line_of` in `specs/Line.antt`, and
//! `write_line` makes exactly that text, without memory, over the line before.
//!
//! The line of an event.

ghost use Rattle.std.specs.Prelude.{◌≡◌, ◌≤◌, ◌<◌, ◌+◌, ◌++◌, ◌∷◌, [], Some, length, codes, decimal};
ghost use Rattle.std.specs.Fmt.{signed_decimal};
ghost use Rattle.event_log.specs.InRange.{ActIsIn, AreIn, AreSound, WokenIsIn};
ghost use Rattle.event_log.specs.Line.{act_text, condition_name, device_name, line_of, monitor_name, process_name, qualified, truth_text, woken_name};

use crate::text::LineBuffer;
use base::{Act, Event};
use image::{ConditionName, ImageNames};

/// The name of a process.
fn process_of(names: &ImageNames, number: u16) -> &[u8]
    requires sound { AreSound names.now }
    requires process { number < length names.now.processes }
    ensures name { result.now ≡ process_name names.now number }
    ensures short { length result.now ≤ 63 }
{
    names.processes.as_slice()[number as usize].as_bytes()
}

/// The name of a monitor.
fn monitor_of(names: &ImageNames, number: u16) -> &[u8]
    requires sound { AreSound names.now }
    requires monitor { number < length names.now.monitors }
    ensures name { result.now ≡ monitor_name names.now number }
    ensures short { length result.now ≤ 63 }
{
    names.monitors.as_slice()[number as usize].as_bytes()
}

/// The name of a device.
fn device_of(names: &ImageNames, number: u16) -> &[u8]
    requires sound { AreSound names.now }
    requires device { number < length names.now.devices }
    ensures name { result.now ≡ device_name names.now number }
    ensures short { length result.now ≤ 63 }
{
    names.devices.as_slice()[number as usize].name.as_bytes()
}

/// A condition, which is told by the name of its monitor and its own.
fn condition_of(names: &ImageNames, number: u16) -> &ConditionName
    requires sound { AreSound names.now }
    requires condition { number < length names.now.conditions }
    ensures name { condition_name names.now number ≡ qualified names.now (Some result.now) }
    ensures placed { result.now.mon < length names.now.monitors }
    ensures short { length result.now.name ≤ 63 }
{
    &names.conditions.as_slice()[number as usize]
}

/// The name of a woken process, or a dash.
fn woken_of(names: &ImageNames, woken: Option<u16>) -> &[u8]
    requires sound { AreSound names.now }
    requires woken { WokenIsIn names.now woken }
    ensures name { result.now ≡ woken_name names.now woken }
    ensures short { length result.now ≤ 63 }
{
    match woken {
        None => b"-",
        Some(number) => process_of(names, number),
    }
}

/// 1 for yes and 0 for no.
fn truth_of(answer: bool) -> &'static [u8]
    ensures text { result.now ≡ truth_text answer }
    ensures short { length result.now ≤ 63 }
{
    if answer { b"1" } else { b"0" }
}

/// Puts what an act does, with the monitor and the name of a condition.
fn put_condition(line: &mut LineBuffer, names: &ImageNames, does: &[u8], number: u16)
    requires sound { AreSound names.now }
    requires condition { number < length names.now.conditions }
    requires does { length does.now ≤ 11 }
    requires room { length line.old ≤ 100 }
    ensures items { line.new ≡ does.now ++ (condition_name names.now number ++ line.old) }
    ensures len { length line.new ≤ length does.now + 127 + length line.old }
{
    let condition = condition_of(names, number);
    line.put(condition.name.as_bytes());
    line.put_byte(b' ');
    line.put(monitor_of(names, condition.mon));
    line.put(does);
}

/// Puts the last word of a line.
#[inline(always)]
fn put_last(line: &mut LineBuffer, word: &[u8])
    requires { length word.now + length line.old ≤ 100 }
    ensures items { line.new ≡ codes " " ++ (word.now ++ line.old) }
    ensures len { length line.new ≡ length word.now + 1 + length line.old }
{
    line.put(word);
    line.put_byte(b' ');
}

/// Puts the last word of a line, a number.
fn put_last_number(line: &mut LineBuffer, number: u16)
    requires { length line.old ≤ 50 }
    ensures items { line.new ≡ codes " " ++ (decimal number ++ line.old) }
    ensures len { length line.new ≤ 6 + length line.old }
{
    line.put_number(u64::from(number));
    line.put_byte(b' ');
}

/// Puts what an act does with a device and a value.
#[inline(always)]
fn put_transfer(line: &mut LineBuffer, names: &ImageNames, does: &[u8], dev: u16, value: i32)
    requires sound { AreSound names.now }
    requires device { dev < length names.now.devices }
    requires does { length does.now ≤ 11 }
    requires room { length line.old ≤ 50 }
    ensures items { line.new ≡
        does.now ++ (device_name names.now dev ++
        (codes " " ++ (signed_decimal value ++ line.old))) }
    ensures len { length line.new ≤ 100 + length line.old }
{
    line.put_signed(value);
    line.put_byte(b' ');
    line.put(device_of(names, dev));
    line.put(does);
}

/// Puts what an act does with a monitor.
#[inline(always)]
fn put_passage(line: &mut LineBuffer, names: &ImageNames, does: &[u8], mon: u16)
    requires sound { AreSound names.now }
    requires monitor { mon < length names.now.monitors }
    requires does { length does.now ≤ 11 }
    requires room { length line.old ≤ 100 }
    ensures items { line.new ≡ does.now ++ (monitor_name names.now mon ++ line.old) }
    ensures len { length line.new ≤ 100 + length line.old }
{
    line.put(monitor_of(names, mon));
    line.put(does);
}

/// Puts what a process does, and with what, before the LF.
fn put_act(line: &mut LineBuffer, names: &ImageNames, act: Act)
    requires sound { AreSound names.now }
    requires act { ActIsIn names.now act }
    requires begun { line.old ≡ codes "\n" }
    ensures items { line.new ≡ act_text names.now act }
    ensures len { length line.new ≤ 200 }
{
    match act {
        Act::Release => line.put(b" release"),
        Act::TimeOut { cond, number } => {
            put_last_number(line, number);
            put_condition(line, names, b" timeout ", cond);
        }
        Act::Get { dev, value } => put_transfer(line, names, b" get ", dev, value),
        Act::Put { dev, value } => put_transfer(line, names, b" put ", dev, value),
        Act::Enter { mon } => put_passage(line, names, b" enter ", mon),
        Act::Leave { mon } => put_passage(line, names, b" leave ", mon),
        Act::Wait { cond } => put_condition(line, names, b" wait ", cond),
        Act::Signal { cond, woken } => {
            put_last(line, woken_of(names, woken));
            put_condition(line, names, b" signal ", cond);
        }
        Act::Broadcast { cond, count } => {
            put_last_number(line, count);
            put_condition(line, names, b" broadcast ", cond);
        }
        Act::Empty { cond, answer } => {
            put_last(line, truth_of(answer));
            put_condition(line, names, b" empty ", cond);
        }
        Act::Raise { number } => {
            put_last_number(line, number);
            line.put(b" raise");
        }
        Act::End => line.put(b" end"),
    }
}

/// Makes the line that of an event in the log, with its LF: at most 273 bytes. The numbers of the
/// event are in range of the names, which have at most 63 bytes, and its tick is below
/// 1,000,000,000. It takes no memory.
pub fn write_line(line: &mut LineBuffer, names: &ImageNames, event: &Event)
    requires { AreIn names.now event.now }
    ensures text { line.new ≡ line_of names.now event.now }
    ensures short { length line.new ≤ 273 }
{
    line.begin();
    put_act(line, names, event.act);
    line.put(process_of(names, event.proc));
    line.put_byte(b' ');
    line.put_tick(event.tick);
}
