//! Scripts and logs, read for the names of a small program.

ghost use Rattle.std.specs.Prelude.{◌≡◌, ◌+◌, ◌≤◌, ◌^◌, IfOk, OnOk, length};
ghost use Rattle.event_log.specs.Finding.{AreFound};
ghost use Rattle.event_log.specs.Logs.{AreFew};
ghost use Rattle.event_log.specs.Reader.{IsReader};

use base::{Act, Event};
use event_log::{LogFault, LogReader, NameIndex, condition_names};
use image::{DeviceName, EventName, ImageNames};
use out_of_memory::OutOfMemory;
use script::{Script, ScriptLine, read_script};
use std::alloc::Global;
use std::fmt::Display;
use std::test::Fail;
use syntax_tree::{List, Name};

fn add_device(
    alloc: Global,
    devices: &mut List<DeviceName>,
    name: &[u8],
    out: bool,
) -> Result<(), OutOfMemory>
    ensures { OnOk result (length devices.new ≡ length devices.old + 1) }
{
    let name = Name::new(alloc, name)?;
    devices.push(DeviceName { name, out })
}

/// An out device and an in device.
fn add_devices(alloc: Global, devices: &mut List<DeviceName>) -> Result<(), OutOfMemory>
    ensures { OnOk result (length devices.new ≡ length devices.old + 2) }
{
    add_device(alloc, devices, b"valve", true)?;
    add_device(alloc, devices, b"gauge", false)
}

/// The event `e`, whose process has frame 15.
fn add_event(alloc: Global, events: &mut List<EventName>) -> Result<(), OutOfMemory>
    ensures { OnOk result (length events.new ≡ length events.old + 1) }
{
    let name = Name::new(alloc, b"e")?;
    events.push(EventName { name, frame: 15 })
}

/// The process `p`.
fn add_process(alloc: Global, processes: &mut List<Name>) -> Result<(), OutOfMemory>
    ensures { OnOk result (length processes.new ≡ length processes.old + 1) }
{
    let name = Name::new(alloc, b"p")?;
    processes.push(name)
}

/// A process that an event releases, an out device and an in device.
fn add_names(alloc: Global, names: &mut ImageNames) -> Result<(), OutOfMemory>
    ensures processes { OnOk result (length names.new.processes ≡ length names.old.processes + 1) }
    ensures monitors { names.new.monitors ≡ names.old.monitors }
    ensures conditions { names.new.conditions ≡ names.old.conditions }
    ensures devices { OnOk result (length names.new.devices ≡ length names.old.devices + 2) }
    ensures events { OnOk result (length names.new.events ≡ length names.old.events + 1) }
{
    add_process(alloc, &mut names.processes)?;
    add_event(alloc, &mut names.events)?;
    add_devices(alloc, &mut names.devices)
}

/// The same alone.
fn some_names(alloc: Global) -> Result<ImageNames, OutOfMemory>
    ensures devices { IfOk result (λ names. length names.devices ≤ 2 ^ 16) }
    ensures events { IfOk result (λ names. length names.events ≤ 2 ^ 16) }
    ensures few { IfOk result AreFew }
{
    let mut names = ImageNames {
        processes: List::new(alloc),
        monitors: List::new(alloc),
        conditions: List::new(alloc),
        devices: List::new(alloc),
        events: List::new(alloc),
    };
    match add_names(alloc, &mut names) {
        Ok(()) => Ok(names),
        Err(fault) => {
            drop(names);
            Err(fault)
        }
    }
}

/// The answer, `ok` or a fault, and the text.
type Row = (&'static str, &'static str);

fn is(said: &str, row: &Row) -> Result<(), Fail> {
    if said == row.0 {
        return Ok(());
    }
    Err(Fail::new(format_args!("{said}: {}", row.1)))
}

fn tells<F: Display + Drop>(alloc: Global, fault: F, row: &Row) -> Result<(), Fail> {
    let said = format!(in alloc; "{fault}")?;
    is(said.as_str(), row)
}

/// Texts and their faults, or none.
const SCRIPTS: &[Row] = &[
    ("ok", "end 0\n"),
    ("ok", "0 event e\n15 event e\nend 30\n"),
    ("ok", "0 set gauge -2147483648\n0 event e\nend 1\n"),
    ("S1 1", "05 event e\nend 30\n"),
    ("S1 1", "0 set gauge -0\nend 30\n"),
    ("S1 1", "0 set gauge 2147483648\nend 30\n"),
    ("S1 1", "1000000000 event e\nend 30\n"),
    ("S1 2", "0 event e\nend 05\n"),
    ("S1 1", "end 5"),
    ("S2 1", "0 set valve 1\nend 5\n"),
    ("S2 1", "0 event ev\nend 5\n"),
    ("S3 2", "30 event e\nend 30\n"),
    ("S3 2", "5 set gauge 1\n4 set gauge 1\nend 30\n"),
    ("S2 2", "5 set gauge 1\n4 set valve 1\nend 30\n"),
    ("S4 2 0 14", "0 event e\n14 event e\nend 30\n"),
    ("S5 1", ""),
    ("S5 2", "0 event e\n"),
    ("S5 2", "end 5\nend 6\n"),
    ("S1 2", "end 5\nend 06\n"),
    ("S3 3", "5 event e\nend 9\n4 set gauge 1\n"),
];

fn reads_script(alloc: Global, names: &ImageNames, row: &Row) -> Result<(), Fail>
    requires devices { length names.now.devices ≤ 2 ^ 16 }
    requires events { length names.now.events ≤ 2 ^ 16 }
{
    match read_script(alloc, row.1.as_bytes(), names).err() {
        None => is("ok", row),
        Some(fault) => tells(alloc, fault, row),
    }
}

fn reads_scripts(alloc: Global, names: &ImageNames, rows: &[Row]) -> Result<(), Fail>
    requires devices { length names.now.devices ≤ 2 ^ 16 }
    requires events { length names.now.events ≤ 2 ^ 16 }
{
    for row in rows {
        reads_script(alloc, names, row)?;
    }
    Ok(())
}

#[test]
fn scripts_and_their_faults(rt: HostRuntime) -> Result<(), Fail> {
    let names = some_names(rt.alloc())?;
    let read = reads_scripts(rt.alloc(), &names, SCRIPTS);
    drop(names);
    read
}

fn has_lines(script: &Script, lines: &[ScriptLine], end: u64) -> Result<(), Fail> {
    if script.lines().as_slice() == lines && script.end() == end {
        return Ok(());
    }
    Err(Fail::new("the script has other lines"))
}

fn is_script(alloc: Global, names: &ImageNames, text: &[u8]) -> Result<(), Fail>
    requires devices { length names.now.devices ≤ 2 ^ 16 }
    requires events { length names.now.events ≤ 2 ^ 16 }
{
    let script = read_script(alloc, text, names)?;
    has_lines(&script, LINES, 30)
}

/// What the test's script says.
const LINES: &[ScriptLine] = &[
    ScriptLine::Set {
        tick: 0,
        dev: 1,
        value: -7,
    },
    ScriptLine::Occur { tick: 3, event: 0 },
];

#[test]
fn the_lines_of_a_script(rt: HostRuntime) -> Result<(), Fail> {
    let names = some_names(rt.alloc())?;
    let read = is_script(rt.alloc(), &names, b"0 set gauge -7\n3 event e\nend 30\n");
    drop(names);
    read
}

/// Logs and their faults, or none.
const LOGS: &[Row] = &[
    ("ok", ""),
    ("ok", "0 p release\n10 p put valve 7\n14 p end\n"),
    ("L1 2", "0 p release\n0 p releases\n"),
    ("L1 1", "00 p release\n"),
    ("L1 1", "0 q release\n"),
    ("L1 1", "0 p put valve -0\n"),
    ("L1 3", "0 p release\n10 p put valve 7\n14 p end"),
];

fn read_lines(index: &NameIndex<'_, '_>, text: &[u8]) -> Result<(), LogFault>
    requires { AreFound index.now }
{
    let mut reader = LogReader::new(index, text)?;
    reader.read_to_end()
}

fn reads_log(alloc: Global, index: &NameIndex<'_, '_>, row: &Row) -> Result<(), Fail>
    requires { AreFound index.now }
{
    match read_lines(index, row.1.as_bytes()).err() {
        None => is("ok", row),
        Some(fault) => tells(alloc, fault, row),
    }
}

fn reads_rows(alloc: Global, index: &NameIndex<'_, '_>, rows: &[Row]) -> Result<(), Fail>
    requires { AreFound index.now }
{
    for row in rows {
        reads_log(alloc, index, row)?;
    }
    Ok(())
}

fn reads_logs(alloc: Global, names: &ImageNames, rows: &[Row]) -> Result<(), Fail>
    requires { AreFew names.now }
{
    let conditions = condition_names(alloc, names)?;
    let index = NameIndex::new(alloc, names, &conditions)?;
    reads_rows(alloc, &index, rows)
}

#[test]
fn logs_and_their_faults(rt: HostRuntime) -> Result<(), Fail> {
    let names = some_names(rt.alloc())?;
    let read = reads_logs(rt.alloc(), &names, LOGS);
    drop(names);
    read
}

fn next_is(reader: &mut LogReader<'_>, want: Option<Event>) -> Result<(), Fail>
    requires { IsReader reader.old }
    ensures { OnOk result (IsReader reader.new) }
{
    if reader.next()? == want {
        return Ok(());
    }
    Err(Fail::new("the log has another event"))
}

fn has_events(index: &NameIndex<'_, '_>, text: &[u8]) -> Result<(), Fail>
    requires { AreFound index.now }
{
    let mut reader = LogReader::new(index, text)?;
    next_is(&mut reader, Some(FIRST))?;
    next_is(&mut reader, Some(SECOND))?;
    next_is(&mut reader, None)
}

fn is_log(alloc: Global, names: &ImageNames, text: &[u8]) -> Result<(), Fail>
    requires { AreFew names.now }
{
    let conditions = condition_names(alloc, names)?;
    let index = NameIndex::new(alloc, names, &conditions)?;
    has_events(&index, text)
}

/// What the test's log tells.
const FIRST: Event = Event {
    tick: 0,
    proc: 0,
    act: Act::Release,
};

const SECOND: Event = Event {
    tick: 9,
    proc: 0,
    act: Act::Get { dev: 1, value: -7 },
};

#[test]
fn the_events_of_a_log(rt: HostRuntime) -> Result<(), Fail> {
    let names = some_names(rt.alloc())?;
    let read = is_log(rt.alloc(), &names, b"0 p release\n9 p get gauge -7\n");
    drop(names);
    read
}
