//! Whole texts.

ghost use Rattle.std.specs.Prelude.{◌≡◌, ◌≤◌, ◌<◌, ◌^◌, ◌&&◌, length, map, nat_lt, IfOk};
ghost use Rattle.std.specs.List.{zip};
ghost use Rattle.image.specs.Raw.{monitor_of, named_of, process_of};
ghost use Rattle.image_reader.specs.Answer.{parts_of};
ghost use Rattle.image_reader.specs.File.{all_used, image_with, used_by};
ghost use Rattle.text_fields.specs.Front.{Gives, front};
ghost use Rattle.assembler.specs.Answer.{Tells};
ghost use Rattle.image_reader.specs.Held as held;
ghost use Rattle.assembler.specs.Sections.{guarded_read, is_complete as complete_test, line_at, named_read, owners_in, text_read, work_read};

use crate::code::{are_used, code_at, finish};
use crate::fault::{AssemblyFault, LONG_TEXT};
use crate::names::{conditions_at, devices_at, events_at, monitors_at, take};
use crate::work::{processes_at, routines_at};
use asm_lines::head_line;
use image::RawImage;
use image_reader::{Guarded, Named, NamedMonitors, NamedProcesses, Work, assemble};
use std::alloc::Global;
use syntax_tree::{List, Name};
use text_fields::{FieldError, LineCursor, begins_with, cut_at};

/// Whether there are processes, and each of so many events is used.
fn serve_all(processes: usize, used: &[u16], events: usize) -> bool
    ensures { result ≡ (nat_lt 0 processes && all_used used.now 0 events) }
{
    0 < processes && are_used(used, events)
}

/// Whether there is a process, and each of so many events is of one.
fn is_complete(processes: &NamedProcesses, events: usize) -> bool
    requires each { length processes.now.names ≡ length processes.now.things }
    requires used { processes.now.used ≡
        used_by (zip processes.now.names (map process_of processes.now.things)) }
    ensures { result ≡ complete_test events
        (zip processes.now.names (map process_of processes.now.things)) }
{
    serve_all(processes.names.len(), processes.used.as_slice(), events)
}

#[tactic(auto, unfolding(crate::specs::Sections::work_read))]
fn work_at<'a>(
    alloc: Global,
    at: LineCursor<'a>,
    owners: usize,
    monitors: usize,
    events: usize,
    taken: &mut List<Name>,
) -> Result<(Work, LineCursor<'a>), FieldError>
    ensures read { Gives (λ x. (held.work_of x.0, front x.1)) result
        (work_read owners monitors events taken.old (front at.entry)) }
    ensures each { IfOk result (λ x. length x.0.processes.names ≡ length x.0.processes.things) }
{
    let (routines, at) = routines_at(alloc, at, owners, monitors)?;
    let (processes, at) = processes_at(alloc, at, monitors, events, taken)?;
    let complete = is_complete(&processes, events);
    let (code, at) = code_at(alloc, at, complete)?;
    let work = Work {
        routines,
        processes,
        code,
    };
    Ok((work, at))
}

/// How many monitors these are.
fn count_of(monitors: &NamedMonitors) -> usize
    requires { length monitors.now.names ≡ length monitors.now.things }
    ensures { result ≡ length (zip monitors.now.names (map monitor_of monitors.now.things)) }
{
    monitors.names.len()
}

#[tactic(auto, unfolding(crate::specs::Sections::guarded_read))]
fn guarded_at<'a>(
    alloc: Global,
    at: LineCursor<'a>,
    owners: usize,
    events: usize,
    taken: &mut List<Name>,
) -> Result<(Guarded, LineCursor<'a>), FieldError>
    ensures read { Gives (λ x. (held.guarded_of x.0, front x.1)) result
        (guarded_read owners events taken.old (front at.entry)) }
    ensures each_monitor { IfOk result (λ x. length x.0.monitors.names ≡
        length x.0.monitors.things) }
    ensures each_process { IfOk result (λ x. length x.0.work.processes.names ≡
        length x.0.work.processes.things) }
{
    let (monitors, at) = monitors_at(alloc, at, taken)?;
    let count = count_of(&monitors);
    let (conditions, at) = conditions_at(alloc, at, taken.as_slice(), count)?;
    let (work, at) = work_at(alloc, at, owners, count, events, taken)?;
    let guarded = Guarded {
        monitors,
        conditions,
        work,
    };
    Ok((guarded, at))
}

#[tactic(auto, unfolding(crate::specs::Sections::named_read))]
fn named_at<'a>(
    alloc: Global,
    at: LineCursor<'a>,
    owners: usize,
    program: &Name,
) -> Result<(Named, LineCursor<'a>), FieldError>
    ensures read { Gives (λ x. (held.named_of x.0, front x.1)) result
        (named_read owners program.now (front at.entry)) }
    ensures each_monitor { IfOk result (λ x. length x.0.guarded.monitors.names ≡
        length x.0.guarded.monitors.things) }
    ensures each_process { IfOk result (λ x. length x.0.guarded.work.processes.names ≡
        length x.0.guarded.work.processes.things) }
{
    let mut taken = List::new(alloc);
    take(alloc, &mut taken, program)?;
    let (devices, at) = devices_at(alloc, at, &mut taken)?;
    let (events, at) = events_at(alloc, at, &mut taken)?;
    let count = events.len();
    let (guarded, at) = guarded_at(alloc, at, owners, count, &mut taken)?;
    let named = Named {
        devices,
        events,
        guarded,
    };
    Ok((named, at))
}

/// How many lines begin as that of a process does.
fn owners_of(text: &[u8]) -> usize
    ensures { result ≡ owners_in text.now }
{
    let mut count = 0;
    let mut rest = text;
    while let Some(cut) = cut_at(rest, b'\n') {
        count += usize::from(begins_with(cut.before, b"process "));
        rest = cut.after;
    }
    count + usize::from(begins_with(rest, b"process "))
}

/// The image that the text tells.
#[tactic(auto, unfolding(crate::specs::Sections::text_read))]
fn image_at(alloc: Global, text: &[u8]) -> Result<RawImage, FieldError>
    requires { length text.now < 2 ^ 32 }
    ensures read { Gives parts_of result (text_read text.now) }
    ensures image { IfOk result (λ raw. named_of raw ≡ image_with (parts_of raw)) }
{
    let ((program, overhead), at) = head_line(alloc, LineCursor::begin(text))?;
    let owners = owners_of(text);
    let (named, at) = named_at(alloc, at, owners, &program)?;
    finish(at)?;
    Ok(assemble(alloc, overhead, program, named)?)
}

/// The line from which on so many bytes are left, counted from 1.
fn line_of(text: &[u8], left: usize) -> u32
    requires { length text.now ≤ 8388608 }
    ensures { result ≡ line_at text.now left }
{
    let (before, _line) = text.split_at(text.len().saturating_sub(left));
    before.iter().filter(|byte| **byte == b'\n').count() as u32 + 1
}

/// How many bytes a text has at most.
const LONGEST: usize = 8_388_608;

/// The image whose text this is.
///
/// A refusal tells the first faulty line and the least number of its faults: 1 where the line has
/// no form of its place, 2 where a number, a name or a list of it is out of its range, where it is
/// one more than there may be of its kind, and where it follows the processes and there is none, or
/// an event of none. A line that is missing at the end counts too. Fault 3, with line 0, comes
/// exactly where the text has more than 8,388,608 bytes. `Memory` may stand in place of any other
/// answer.
pub fn asm(alloc: Global, text: &[u8]) -> Result<RawImage, AssemblyFault>
    ensures { Tells text.now result }
{
    if LONGEST < text.len() {
        return Err(AssemblyFault::Bad {
            number: LONG_TEXT,
            line: 0,
        });
    }
    match image_at(alloc, text) {
        Ok(image) => Ok(image),
        Err(FieldError::Memory(error)) => Err(AssemblyFault::Memory(error)),
        Err(FieldError::Fault(fault)) => Err(AssemblyFault::Bad {
            number: fault.number,
            line: line_of(text, fault.left),
        }),
    }
}
