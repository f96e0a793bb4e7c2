//! Whole images.

ghost use Rattle.std.specs.Prelude.{◌≡◌, ◌++◌, ◌∷◌, [], codes, length, map, IfOk, OnOk};
ghost use Rattle.std.specs.List.{zip};
ghost use Rattle.image.specs.Raw.{named_of, process_of, routine_of};
ghost use Rattle.image_reader.specs.Versions.{in_version};
ghost use Rattle.image_format.specs.Format.{both};
ghost use Rattle.image_format.specs.Gives.{Gives, GivesOrFault};
ghost use Rattle.image_reader.specs.File.{all_used, code_format, devices_format, events_format, frame_for as frame_of, framed as framed_events, guarded_format, image_with, magic_format, named_format, over_format, parts_format, version_format, whole_read, with_devices, work_format};
ghost use Rattle.image_reader.specs.Answer.{Tells, parts_of};
ghost use Rattle.image_reader.specs.Held.{guarded_of, parts_with};

use crate::counts::{Counts, counts_at};
use crate::fault::{ImageFault, tri, tri_fault, tri_memory};
use crate::fields::u16_within;
use crate::lists::{conditions_at, devices_at, events_at, instrs_at, routines_at};
use crate::named::{NamedMonitors, NamedProcesses, monitors_at, processes_at};
use crate::names::{bytes_at, name_at};
use crate::taken::TakenNames;
use image::{ConditionName, DeviceName, EventName, ImageNames, RawImage, RawProcess, RawRoutine};
use image_format::{ByteFault, ReadError, refusal, u16_at};
use machine_isa::Instr;
use out_of_memory::OutOfMemory;
use std::alloc::Global;
use syntax_tree::{List, Name};

/// The letters RTEU.
fn magic_at(bytes: &[u8]) -> Result<((), &[u8]), ByteFault>
    ensures { GivesOrFault (λ x. (codes "RTEU", x.1.now)) result (magic_format.read bytes.now) }
{
    let (magic, rest) = tri!(bytes_at(bytes, 4));
    if magic == b"RTEU".as_slice() {
        Ok(((), rest))
    } else {
        Err(ByteFault {
            number: refusal::NO_IMAGE,
            left: bytes.len(),
        })
    }
}

/// Whether the version has the overhead and deadlines.
fn version_at(bytes: &[u8]) -> Result<(bool, &[u8]), ByteFault>
    ensures { GivesOrFault (λ x. (in_version x.0, x.1.now)) result (version_format.read bytes.now) }
{
    let (version, rest) = tri!(u16_at(bytes));
    match version {
        1 => Ok((false, rest)),
        2 => Ok((true, rest)),
        _ => Err(ByteFault {
            number: refusal::NO_IMAGE,
            left: bytes.len(),
        }),
    }
}

/// The overhead, where it stands; else 0.
fn overhead_at(bytes: &[u8], has_deadlines: bool) -> Result<(u16, &[u8]), ByteFault>
    ensures { GivesOrFault (λ x. (x.0, x.1.now)) result
        ((over_format (in_version has_deadlines)).read bytes.now) }
{
    if has_deadlines {
        u16_within(bytes, 0, 1000)
    } else {
        Ok((0, bytes))
    }
}

/// Whether each event is used.
fn are_used(used: &[u16], events: u16) -> bool
    ensures { result ≡ all_used used.now 0 events }
{
    for event in 0..events {
        if !used.contains(&event) {
            return false;
        }
    }
    true
}

/// The code, where each event must be used by a process.
fn code_at<'a>(
    alloc: Global,
    bytes: &'a [u8],
    is_used: bool,
    count: u32,
) -> Result<(List<Instr>, &'a [u8]), ReadError>
    ensures { Gives (λ x. (x.0, x.1.now)) result ((code_format is_used count).read bytes.now) }
{
    if is_used {
        return instrs_at(alloc, bytes, count);
    }
    let number = match (count, bytes) {
        (0, [_, ..]) => refusal::MORE,
        (0, []) => refusal::RANGE,
        (_, []) => refusal::ENDS,
        (_, [_, ..]) => refusal::RANGE,
    };
    Err(ReadError::Fault(ByteFault {
        number,
        left: bytes.len(),
    }))
}

/// The routines, the processes and the code of an image.
#[derive(Drop)]
pub struct Work {
    pub routines: List<RawRoutine>,
    pub processes: NamedProcesses,
    pub code: List<Instr>,
}

fn work_at<'a>(
    alloc: Global,
    bytes: &'a [u8],
    has_deadlines: bool,
    counts: &Counts,
    taken: &mut TakenNames,
) -> Result<(Work, &'a [u8]), ReadError>
    ensures read { Gives (λ x. (
      (
        map routine_of x.0.routines,
        (zip x.0.processes.names (map process_of x.0.processes.things), x.0.code),
      ),
      x.1.now,
    )) result
        ((work_format (in_version has_deadlines) counts.now taken.old).read bytes.now) }
    ensures each { IfOk result (λ x. length x.0.processes.names ≡ length x.0.processes.things) }
{
    let (routines, rest) = tri!(routines_at(alloc, bytes, counts));
    let (processes, rest) = tri!(processes_at(alloc, rest, has_deadlines, counts, taken));
    let is_used = are_used(processes.used.as_slice(), counts.events);
    let (code, rest) = tri!(code_at(alloc, rest, is_used, counts.code));
    Ok((
        Work {
            routines,
            processes,
            code,
        },
        rest,
    ))
}

/// The monitors and the conditions of an image, and all that follows them.
#[derive(Drop)]
pub struct Guarded {
    pub monitors: NamedMonitors,
    pub conditions: List<ConditionName>,
    pub work: Work,
}

fn guarded_at<'a>(
    alloc: Global,
    bytes: &'a [u8],
    has_deadlines: bool,
    counts: &Counts,
    taken: &mut TakenNames,
) -> Result<(Guarded, &'a [u8]), ReadError>
    ensures read { Gives (λ x. (guarded_of x.0, x.1.now)) result
        ((guarded_format (in_version has_deadlines) counts.now taken.old).read bytes.now) }
    ensures each_monitor { IfOk result (λ x. length x.0.monitors.names ≡
        length x.0.monitors.things) }
    ensures each_process { IfOk result (λ x. length x.0.work.processes.names ≡
        length x.0.work.processes.things) }
{
    let (monitors, rest) = tri!(monitors_at(alloc, bytes, counts, taken));
    let (conditions, rest) = tri!(conditions_at(alloc, rest, counts, taken));
    let (work, rest) = tri!(work_at(alloc, rest, has_deadlines, counts, taken));
    Ok((
        Guarded {
            monitors,
            conditions,
            work,
        },
        rest,
    ))
}

/// The devices and the events of an image, and all that follows them.
#[derive(Drop)]
pub struct Named {
    pub devices: List<DeviceName>,
    pub events: List<Name>,
    pub guarded: Guarded,
}

fn named_after<'a>(
    alloc: Global,
    bytes: &'a [u8],
    has_deadlines: bool,
    counts: &Counts,
    taken: &mut TakenNames,
) -> Result<(Named, &'a [u8]), ReadError>
    ensures read { Gives (λ x. ((x.0.devices, (x.0.events, guarded_of x.0.guarded)), x.1.now))
        result ((both (devices_format counts.now taken.old) (λ devices. both
        (events_format counts.now (with_devices taken.old devices)) (λ events.
        guarded_format (in_version has_deadlines) counts.now
        (with_devices taken.old devices ++ events)))).read bytes.now) }
    ensures each_monitor { IfOk result (λ x. length x.0.guarded.monitors.names ≡
        length x.0.guarded.monitors.things) }
    ensures each_process { IfOk result (λ x. length x.0.guarded.work.processes.names ≡
        length x.0.guarded.work.processes.things) }
{
    let (devices, rest) = tri!(devices_at(alloc, bytes, counts, taken));
    let (events, rest) = tri!(events_at(alloc, rest, counts, taken));
    let (guarded, rest) = tri!(guarded_at(alloc, rest, has_deadlines, counts, taken));
    Ok((
        Named {
            devices,
            events,
            guarded,
        },
        rest,
    ))
}

/// All after the name of the program, which is taken.
fn named_at<'a>(
    alloc: Global,
    bytes: &'a [u8],
    has_deadlines: bool,
    counts: &Counts,
    program: &Name,
) -> Result<(Named, &'a [u8]), ReadError>
    ensures read { Gives (λ x. ((x.0.devices, (x.0.events, guarded_of x.0.guarded)), x.1.now))
        result ((named_format (in_version has_deadlines) counts.now program.now).read bytes.now) }
    ensures each_monitor { IfOk result (λ x. length x.0.guarded.monitors.names ≡
        length x.0.guarded.monitors.things) }
    ensures each_process { IfOk result (λ x. length x.0.guarded.work.processes.names ≡
        length x.0.guarded.work.processes.things) }
{
    let mut taken = TakenNames::new(alloc);
    tri_memory!(taken.take(alloc, program));
    named_after(alloc, bytes, has_deadlines, counts, &mut taken)
}

/// The frame of the process that an event releases.
fn frame_for(event: usize, processes: &[RawProcess]) -> u32
    ensures { result ≡ frame_of event (map process_of processes.now) }
{
    for process in processes {
        if process.kind != 0 && usize::from(process.event) == event {
            return process.frame;
        }
    }
    0
}

/// Adds an event with its frame.
fn add_event(
    alloc: Global,
    framed: &mut List<EventName>,
    event: &Name,
    frame: u32,
) -> Result<(), OutOfMemory>
    ensures { OnOk result (framed.new ≡
        framed.old ++ record { name = event.now; frame = frame } ∷ []) }
{
    let name = tri!(Name::new(alloc, event.as_bytes()));
    framed.push(EventName { name, frame })
}

/// Each event with its frame.
fn framed(
    alloc: Global,
    events: &[Name],
    processes: &[RawProcess],
) -> Result<List<EventName>, OutOfMemory>
    ensures { IfOk result (λ framed. framed ≡
        framed_events 0 events.now (map process_of processes.now)) }
{
    let mut framed = List::new(alloc);
    for (at, event) in events.iter().enumerate() {
        tri!(add_event(alloc, &mut framed, event, frame_for(at, processes)));
    }
    Ok(framed)
}

/// The image of these parts and these events.
fn with_events(overhead: u16, program: Name, named: Named, events: List<EventName>) -> RawImage
    ensures overhead { result.overhead ≡ overhead }
    ensures program { result.program ≡ program }
    ensures devices { result.names.devices ≡ named.devices }
    ensures events { result.names.events ≡ events }
    ensures monitor_names { result.names.monitors ≡ named.guarded.monitors.names }
    ensures monitors { result.monitors ≡ named.guarded.monitors.things }
    ensures conditions { result.names.conditions ≡ named.guarded.conditions }
    ensures routines { result.routines ≡ named.guarded.work.routines }
    ensures process_names { result.names.processes ≡ named.guarded.work.processes.names }
    ensures processes { result.processes ≡ named.guarded.work.processes.things }
    ensures code { result.code ≡ named.guarded.work.code }
{
    let Named {
        devices,
        guarded,
        ..
    } = named;
    let Guarded {
        monitors,
        conditions,
        work,
    } = guarded;
    let Work {
        routines,
        processes,
        code,
    } = work;
    RawImage {
        overhead,
        program,
        names: ImageNames {
            processes: processes.names,
            monitors: monitors.names,
            conditions,
            devices,
            events,
        },
        monitors: monitors.things,
        routines,
        processes: processes.things,
        code,
    }
}

/// The image of these parts, with each event's frame that of the first process that it releases, or
/// 0 where it releases none. Each monitor and each process is to have its name. An error is that
/// memory is short.
pub fn assemble(
    alloc: Global,
    overhead: u16,
    program: Name,
    named: Named,
) -> Result<RawImage, OutOfMemory>
    requires each_monitor { length named.guarded.monitors.names ≡
        length named.guarded.monitors.things }
    requires each_process { length named.guarded.work.processes.names ≡
        length named.guarded.work.processes.things }
    ensures parts { IfOk result (λ raw. parts_of raw ≡
        parts_with overhead program named.devices named.events (guarded_of named.guarded)) }
    ensures image { IfOk result (λ raw. named_of raw ≡ image_with (parts_of raw)) }
{
    let processes = named.guarded.work.processes.things.as_slice();
    match framed(alloc, named.events.as_slice(), processes) {
        Ok(events) => Ok(with_events(overhead, program, named, events)),
        Err(error) => Err(error),
    }
}

/// All after the version.
fn parts_at(
    alloc: Global,
    bytes: &[u8],
    has_deadlines: bool,
) -> Result<(RawImage, &[u8]), ReadError>
    ensures read { Gives (λ x. (parts_of x.0, x.1.now)) result
        ((parts_format (in_version has_deadlines)).read bytes.now) }
    ensures image { IfOk result (λ x. named_of x.0 ≡ image_with (parts_of x.0)) }
{
    let (overhead, rest) = tri_fault!(overhead_at(bytes, has_deadlines));
    let (counts, rest) = tri_fault!(counts_at(rest));
    let (program, rest) = tri!(name_at(alloc, rest, &TakenNames::new(alloc)));
    let (named, rest) = tri!(named_at(alloc, rest, has_deadlines, &counts, &program));
    let image = tri_memory!(assemble(alloc, overhead, program, named));
    Ok((image, rest))
}

/// The image that the bytes are, with whether they have deadlines.
fn whole_at(alloc: Global, bytes: &[u8]) -> Result<(bool, RawImage), ReadError>
    ensures read { Gives (λ x. ((in_version x.0, parts_of x.1), [])) result (whole_read bytes.now) }
    ensures image { IfOk result (λ x. named_of x.1 ≡ image_with (parts_of x.1)) }
{
    let (_, rest) = tri_fault!(magic_at(bytes));
    let (has_deadlines, rest) = tri_fault!(version_at(rest));
    let (image, rest) = tri!(parts_at(alloc, rest, has_deadlines));
    if rest.len() == 0 {
        Ok((has_deadlines, image))
    } else {
        Err(ReadError::Fault(ByteFault {
            number: refusal::MORE,
            left: rest.len(),
        }))
    }
}

/// How many bytes an image has at most.
const LONGEST: usize = 8_388_608;

/// The image that the bytes are, in either version. A refusal tells the first fault of the bytes:
/// its number, from 1 to 9, and its offset, as the formats of `specs/File.antt` say, or that memory
/// is short. Trees nest at most 130 deep, so the call recurses at most so deep.
#[tactic(auto, unfolding(crate::specs::File::read_file))]
pub fn read_image(alloc: Global, bytes: &[u8]) -> Result<RawImage, ImageFault>
    ensures { Tells bytes.now result }
{
    if LONGEST < bytes.len() {
        return Err(ImageFault::Bad {
            number: refusal::LONG,
            offset: LONGEST as u32,
        });
    }
    match whole_at(alloc, bytes) {
        Ok((_has_deadlines, image)) => Ok(image),
        Err(ReadError::Memory(error)) => Err(ImageFault::Memory(error)),
        Err(ReadError::Fault(fault)) => Err(ImageFault::Bad {
            number: fault.number,
            offset: bytes.len().saturating_sub(fault.left) as u32,
        }),
    }
}
