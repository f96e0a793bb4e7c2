//! The lines of routines.

ghost use Rattle.std.specs.Prelude.{◌≡◌};
ghost use Rattle.image.specs.Raw.{routine_of};
ghost use Rattle.text_fields.specs.Front.{Gives, front};
ghost use Rattle.asm_lines.specs.Routines.{cost_fields_read, cost_read, owned_read, owner_read, place_read, routine_line_read, routine_read, stay_read};

use crate::trees::tree_line;
use image::RawRoutine;
use std::alloc::Global;
use text_fields::{FieldError, LineCursor, begins_with, end_line, field, note, short_field, skip};

/// The longest time that is told.
const LONGEST_COST: u32 = 1_000_000_001;

/// A time behind these bytes.
pub fn cost<'a>(at: LineCursor<'a>, label: &[u8]) -> Result<(u32, LineCursor<'a>), FieldError>
    ensures { Gives (λ x. (x.0, front x.1)) result (cost_read label.now (front at.entry)) }
{
    field(at, label, 0, LONGEST_COST)
}

/// Whose a routine is: its kind and the number of its owner.
#[derive(Clone, Copy)]
struct Owner {
    kind: u8,
    number: u16,
}

/// The owner of a kind, one of so many, behind these bytes.
fn owned<'a>(
    kind: u8,
    at: LineCursor<'a>,
    label: &[u8],
    count: usize,
) -> Result<(Owner, LineCursor<'a>), FieldError>
    ensures { Gives (λ x. ((x.0.kind, x.0.number), front x.1)) result
        (owned_read kind label.now count (front at.entry)) }
{
    let (number, at) = short_field(at, label, 0, 65_535)?;
    let at = note(at, usize::from(number) < count);
    Ok((Owner { kind, number }, at))
}

/// Whose a routine is, where there are so many processes and monitors.
#[tactic(auto, unfolding(crate::specs::Routines::owner_read))]
fn owner_at(
    at: LineCursor<'_>,
    processes: usize,
    monitors: usize,
) -> Result<(Owner, LineCursor<'_>), FieldError>
    ensures { Gives (λ x. ((x.0.kind, x.0.number), front x.1)) result
        (owner_read processes monitors (front at.entry)) }
{
    if begins_with(at.rest, b"routine process ") {
        return owned(1, at, b"routine process ", processes);
    }
    if begins_with(at.rest, b"routine monitor ") {
        return owned(2, at, b"routine monitor ", monitors);
    }
    let at = skip(at, b"routine program")?;
    Ok((Owner { kind: 0, number: 0 }, at))
}

/// What a routine has of memory, whether it has a result, and where it begins.
#[derive(Clone, Copy)]
struct Room {
    params: u16,
    locals: u32,
    result: bool,
    start: u32,
}

#[tactic(auto, unfolding(crate::specs::Routines::place_read))]
fn room_at(at: LineCursor<'_>) -> Result<(Room, LineCursor<'_>), FieldError>
    ensures { Gives (λ x. ((x.0.params, (x.0.locals, (x.0.result, x.0.start))), front x.1)) result
        (place_read (front at.entry)) }
{
    let (params, at) = short_field(at, b" params ", 0, 65_535)?;
    let (locals, at) = field(at, b" locals ", 0, 4096)?;
    let (gives, at) = field(at, b" result ", 0, 1)?;
    let (start, at) = field(at, b" start ", 0, 4_294_967_295)?;
    let room = Room {
        params,
        locals,
        result: gives == 1,
        start,
    };
    Ok((room, at))
}

/// The stay of a monitor's routine.
#[tactic(auto, unfolding(crate::specs::Routines::stay_read))]
fn stay(at: LineCursor<'_>, kind: u8) -> Result<(u32, LineCursor<'_>), FieldError>
    ensures { Gives (λ x. (x.0, front x.1)) result (stay_read kind (front at.entry)) }
{
    if kind == 2 {
        cost(at, b" stay ")
    } else {
        Ok((0, at))
    }
}

/// What a routine takes of time.
#[derive(Clone, Copy)]
struct Time {
    run: u32,
    susp: u32,
    waits: u32,
    stay: u32,
}

#[tactic(auto, unfolding(crate::specs::Routines::cost_fields_read))]
fn time_at(at: LineCursor<'_>, kind: u8) -> Result<(Time, LineCursor<'_>), FieldError>
    ensures { Gives (λ x. ((x.0.run, (x.0.susp, (x.0.waits, x.0.stay))), front x.1)) result
        (cost_fields_read kind (front at.entry)) }
{
    let (run, at) = cost(at, b" run ")?;
    let (susp, at) = cost(at, b" suspend ")?;
    let (waits, at) = cost(at, b" waits ")?;
    let (stay, at) = stay(at, kind)?;
    let time = Time {
        run,
        susp,
        waits,
        stay,
    };
    Ok((time, at))
}

/// All in the line of a routine.
#[derive(Clone, Copy)]
pub struct RoutineLine {
    owner: Owner,
    room: Room,
    time: Time,
}

/// The line of a routine, where there are so many processes and monitors.
#[tactic(auto, unfolding(crate::specs::Routines::routine_line_read))]
pub fn routine_line(
    at: LineCursor<'_>,
    processes: usize,
    monitors: usize,
) -> Result<(RoutineLine, LineCursor<'_>), FieldError>
    ensures { Gives (λ x. (
      (
        (x.0.owner.kind, x.0.owner.number),
        (
          (x.0.room.params, (x.0.room.locals, (x.0.room.result, x.0.room.start))),
          (x.0.time.run, (x.0.time.susp, (x.0.time.waits, x.0.time.stay))),
        ),
      ),
      front x.1,
    ))
        result (routine_line_read processes monitors (front at.entry)) }
{
    let (owner, at) = owner_at(at, processes, monitors)?;
    let (room, at) = room_at(at)?;
    let (time, at) = time_at(at, owner.kind)?;
    let at = end_line(at)?;
    Ok((RoutineLine { owner, room, time }, at))
}

/// A routine, with the line of its tree.
#[tactic(auto, unfolding(crate::specs::Routines::routine_read))]
pub fn routine_at(
    alloc: Global,
    at: LineCursor<'_>,
    processes: usize,
    monitors: usize,
) -> Result<(RawRoutine, LineCursor<'_>), FieldError>
    ensures { Gives (λ x. (routine_of x.0, front x.1)) result
        (routine_read processes monitors (front at.entry)) }
{
    let (line, at) = routine_line(at, processes, monitors)?;
    let (tree, at) = tree_line(alloc, monitors, at)?;
    let routine = RawRoutine {
        kind: line.owner.kind,
        owner: line.owner.number,
        params: line.room.params,
        locals: line.room.locals,
        result: line.room.result,
        start: line.room.start,
        run: line.time.run,
        susp: line.time.susp,
        waits: line.time.waits,
        stay: line.time.stay,
        tree,
    };
    Ok((routine, at))
}
