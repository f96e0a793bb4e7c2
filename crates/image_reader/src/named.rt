//! Monitors and processes that the bytes begin with, each after its name.

ghost use Rattle.std.specs.Prelude.{◌≡◌, ◌==◌, ◌++◌, ◌∷◌, [], if◌then◌else◌, false, length, map, IfOk, OnOk};
ghost use Rattle.std.specs.List.{zip};
ghost use Rattle.image.specs.Raw.{monitor_of, process_of};
ghost use Rattle.image_reader.specs.Versions.{in_version};
ghost use Rattle.image_format.specs.Gives.{Gives};
ghost use Rattle.image_reader.specs.Grammar.{event_of, has, named_monitor_format, named_process_format};
ghost use Rattle.image_reader.specs.File.{monitors_format, processes_format, used_by, with_monitors};

use crate::counts::Counts;
use crate::fault::{tri, tri_fault, tri_memory};
use crate::names::{add_name, name_at};
use crate::parts::monitor_at;
use crate::process::process_at;
use crate::taken::TakenNames;
use image::{RawMonitor, RawProcess};
use image_format::ReadError;
use out_of_memory::OutOfMemory;
use std::alloc::Global;
use syntax_tree::{List, Name};

/// Monitors, each with its name.
#[derive(Drop)]
pub struct NamedMonitors {
    pub names: List<Name>,
    pub things: List<RawMonitor>,
}

/// A monitor after its name.
fn named_monitor_at<'a>(
    alloc: Global,
    bytes: &'a [u8],
    taken: &TakenNames,
) -> Result<((Name, RawMonitor), &'a [u8]), ReadError>
    ensures read { Gives (λ x. ((x.0.0, monitor_of x.0.1), x.1.now)) result
        ((named_monitor_format taken.now).read bytes.now) }
    ensures fresh { IfOk result (λ x. has taken.now x.0.0 ≡ false) }
{
    let (name, rest) = tri!(name_at(alloc, bytes, taken));
    let (monitor, rest) = tri_fault!(monitor_at(rest));
    Ok(((name, monitor), rest))
}

/// Adds a monitor, whose name is taken.
fn add_monitor(
    alloc: Global,
    monitors: &mut NamedMonitors,
    taken: &mut TakenNames,
    name: Name,
    monitor: RawMonitor,
) -> Result<(), OutOfMemory>
    requires { has taken.old name ≡ false }
    ensures names { OnOk result (monitors.new.names ≡ monitors.old.names ++ name ∷ []) }
    ensures things { OnOk result (monitors.new.things ≡ monitors.old.things ++ monitor ∷ []) }
    ensures taken { OnOk result (taken.new ≡ taken.old ++ name ∷ []) }
{
    tri!(monitors.things.push(monitor));
    add_name(alloc, &mut monitors.names, taken, name)
}

/// The monitors, whose names are taken.
pub fn monitors_at<'a>(
    alloc: Global,
    bytes: &'a [u8],
    counts: &Counts,
    taken: &mut TakenNames,
) -> Result<(NamedMonitors, &'a [u8]), ReadError>
    ensures read { Gives (λ x. (zip x.0.names (map monitor_of x.0.things), x.1.now)) result
        ((monitors_format counts.now taken.old).read bytes.now) }
    ensures taken { IfOk result (λ x. taken.new ≡
        with_monitors taken.old (zip x.0.names (map monitor_of x.0.things))) }
    ensures each { IfOk result (λ x. length x.0.names ≡ length x.0.things) }
{
    let mut monitors = NamedMonitors {
        names: List::new(alloc),
        things: List::new(alloc),
    };
    let mut rest = bytes;
    for _ in 0..counts.monitors {
        let ((name, monitor), after) = tri!(named_monitor_at(alloc, rest, taken));
        tri_memory!(add_monitor(alloc, &mut monitors, taken, name, monitor));
        rest = after;
    }
    Ok((monitors, rest))
}

/// A process after its name.
fn named_process_at<'a>(
    alloc: Global,
    bytes: &'a [u8],
    has_deadlines: bool,
    counts: &Counts,
    taken: &TakenNames,
    used: &[u16],
) -> Result<((Name, RawProcess), &'a [u8]), ReadError>
    ensures read { Gives (λ x. ((x.0.0, process_of x.0.1), x.1.now)) result
        ((named_process_format (in_version has_deadlines) counts.now taken.now used.now).read
        bytes.now) }
    ensures fresh { IfOk result (λ x. has taken.now x.0.0 ≡ false) }
{
    let (name, rest) = tri!(name_at(alloc, bytes, taken));
    let (process, rest) = tri!(process_at(alloc, rest, has_deadlines, counts, used));
    Ok(((name, process), rest))
}

/// Notes the event of a process of the kind, where one releases it.
fn use_event(used: &mut List<u16>, kind: u8, event: u16) -> Result<(), OutOfMemory>
    ensures { OnOk result (used.new ≡ used.old ++ (if kind == 0 then [] else event ∷ [])) }
{
    if kind == 0 { Ok(()) } else { used.push(event) }
}

/// Processes, each with its name, and the events that release them.
#[derive(Drop)]
pub struct NamedProcesses {
    pub names: List<Name>,
    pub things: List<RawProcess>,
    pub used: List<u16>,
}

/// Adds a process, whose name is taken and whose event is used.
fn add_process(
    alloc: Global,
    processes: &mut NamedProcesses,
    taken: &mut TakenNames,
    name: Name,
    process: RawProcess,
) -> Result<(), OutOfMemory>
    requires { has taken.old name ≡ false }
    ensures names { OnOk result (processes.new.names ≡ processes.old.names ++ name ∷ []) }
    ensures things { OnOk result (processes.new.things ≡ processes.old.things ++ process ∷ []) }
    ensures used { OnOk result (processes.new.used ≡
        processes.old.used ++ event_of (process_of process)) }
    ensures taken { OnOk result (taken.new ≡ taken.old ++ name ∷ []) }
{
    let kind = process.kind;
    let event = process.event;
    tri!(processes.things.push(process));
    tri!(use_event(&mut processes.used, kind, event));
    add_name(alloc, &mut processes.names, taken, name)
}

/// The processes, whose names are taken.
pub fn processes_at<'a>(
    alloc: Global,
    bytes: &'a [u8],
    has_deadlines: bool,
    counts: &Counts,
    taken: &mut TakenNames,
) -> Result<(NamedProcesses, &'a [u8]), ReadError>
    ensures read { Gives (λ x. (zip x.0.names (map process_of x.0.things), x.1.now)) result
        ((processes_format (in_version has_deadlines) counts.now taken.old).read bytes.now) }
    ensures used { IfOk result (λ x. x.0.used ≡
        used_by (zip x.0.names (map process_of x.0.things))) }
    ensures each { IfOk result (λ x. length x.0.names ≡ length x.0.things) }
{
    let mut processes = NamedProcesses {
        names: List::new(alloc),
        things: List::new(alloc),
        used: List::new(alloc),
    };
    let mut rest = bytes;
    for _ in 0..counts.processes {
        let ((name, process), after) = tri!(named_process_at(
            alloc,
            rest,
            has_deadlines,
            counts,
            taken,
            processes.used.as_slice(),
        ));
        tri_memory!(add_process(alloc, &mut processes, taken, name, process));
        rest = after;
    }
    Ok((processes, rest))
}
