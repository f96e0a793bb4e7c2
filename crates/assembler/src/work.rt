//! The routines and the processes of a text.

ghost use Rattle.std.specs.Prelude.{◌≡◌, ◌++◌, codes, length, map, IfOk, OnOk};
ghost use Rattle.std.specs.List.{zip};
ghost use Rattle.image.specs.Raw.{process_of, routine_of};
ghost use Rattle.image_reader.specs.Grammar.{event_of};
ghost use Rattle.image_reader.specs.File.{used_by};
ghost use Rattle.text_fields.specs.Front.{Gives, begins, front};
ghost use Rattle.asm_lines.specs.Processes.{process_line_read};
ghost use Rattle.asm_lines.specs.Routines.{routine_line_read};
ghost use Rattle.assembler.specs.Sections.{no_more, processes_read, routines_read};

use crate::names::take;
use asm_lines::{process_at, process_line, routine_at, routine_line};
use image::{RawProcess, RawRoutine};
use image_reader::NamedProcesses;
use out_of_memory::OutOfMemory;
use std::alloc::Global;
use syntax_tree::{List, Name};
use text_fields::{FieldError, FieldFault, LineCursor, begins_with, refusal};

/// How many routines there are at most.
const MOST_ROUTINES: usize = 512;
/// How many processes there are at most.
const MOST_PROCESSES: usize = 64;

/// No more routines stand here.
fn no_routine(
    at: LineCursor<'_>,
    owners: usize,
    monitors: usize,
) -> Result<LineCursor<'_>, FieldError>
    ensures { Gives front result (no_more (begins (codes "routine "))
        (routine_line_read owners monitors) (front at.entry)) }
{
    if !begins_with(at.rest, b"routine ") {
        return Ok(at);
    }
    routine_line(at, owners, monitors)?;
    Err(FieldError::Fault(FieldFault {
        number: refusal::RANGE,
        left: at.start,
    }))
}

/// The routines, where so many processes and monitors may own them.
pub fn routines_at(
    alloc: Global,
    at: LineCursor<'_>,
    owners: usize,
    monitors: usize,
) -> Result<(List<RawRoutine>, LineCursor<'_>), FieldError>
    ensures { Gives (λ x. (map routine_of x.0, front x.1)) result
        (routines_read owners monitors (front at.entry)) }
{
    let mut routines = List::new(alloc);
    let mut place = at;
    for _ in 0..MOST_ROUTINES {
        if !begins_with(place.rest, b"routine ") {
            return Ok((routines, place));
        }
        let (routine, after) = routine_at(alloc, place, owners, monitors)?;
        routines.push(routine)?;
        place = after;
    }
    let place = no_routine(place, owners, monitors)?;
    Ok((routines, place))
}

/// Notes the event that releases the process, where there is one.
fn use_event(used: &mut List<u16>, process: &RawProcess) -> Result<(), OutOfMemory>
    ensures { OnOk result (used.new ≡ used.old ++ event_of (process_of process.now)) }
{
    if process.kind != 0 {
        used.push(process.event)?;
    }
    Ok(())
}

/// No more processes stand here.
fn no_process<'a>(
    alloc: Global,
    at: LineCursor<'a>,
    events: usize,
    taken: &[Name],
    used: &[u16],
) -> Result<LineCursor<'a>, FieldError>
    ensures { Gives front result (no_more (begins (codes "process "))
        (process_line_read events taken.now used.now) (front at.entry)) }
{
    if !begins_with(at.rest, b"process ") {
        return Ok(at);
    }
    process_line(alloc, at, events, taken, used)?;
    Err(FieldError::Fault(FieldFault {
        number: refusal::RANGE,
        left: at.start,
    }))
}

/// The processes of so many monitors and events, whose names are taken.
pub fn processes_at<'a>(
    alloc: Global,
    at: LineCursor<'a>,
    monitors: usize,
    events: usize,
    taken: &mut List<Name>,
) -> Result<(NamedProcesses, LineCursor<'a>), FieldError>
    ensures read { Gives (λ x. (zip x.0.names (map process_of x.0.things), front x.1)) result
        (processes_read monitors events taken.old (front at.entry)) }
    ensures used { IfOk result (λ x. x.0.used ≡
        used_by (zip x.0.names (map process_of x.0.things))) }
    ensures each { IfOk result (λ x. length x.0.names ≡ length x.0.things) }
{
    let mut names = List::new(alloc);
    let mut things = List::new(alloc);
    let mut used = List::new(alloc);
    let mut place = at;
    for _ in 0..MOST_PROCESSES {
        if !begins_with(place.rest, b"process ") {
            return Ok((
                NamedProcesses {
                    names,
                    things,
                    used,
                },
                place,
            ));
        }
        let ((name, process), after) = process_at(
            alloc,
            place,
            monitors,
            events,
            taken.as_slice(),
            used.as_slice(),
        )?;
        take(alloc, taken, &name)?;
        use_event(&mut used, &process)?;
        names.push(name)?;
        things.push(process)?;
        place = after;
    }
    let place = no_process(alloc, place, events, taken.as_slice(), used.as_slice())?;
    Ok((
        NamedProcesses {
            names,
            things,
            used,
        },
        place,
    ))
}
