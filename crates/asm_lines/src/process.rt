//! The lines of processes.

ghost use Rattle.std.specs.Prelude.{◌≡◌, length};
ghost use Rattle.image.specs.Raw.{process_of};
ghost use Rattle.image_reader.specs.Grammar.{is_taken};
ghost use Rattle.text_fields.specs.Front.{Gives, front};
ghost use Rattle.asm_lines.specs.Processes.{evented_read, fields_read, handler_read, handler_tree_read, is_free as free_test, more_read, numbers_read, periodic_frame_read, periodic_read, process_line_read, process_read, process_with, release_read, room_read, taken_read, time_read};
ghost use Rattle.asm_lines.specs.Kept.{line_of};

use crate::names::named;
use crate::routine::cost;
use crate::trees::tree_line;
use image::RawProcess;
use image_format::SegTree;
use std::alloc::Global;
use syntax_tree::{List, Name};
use text_fields::{
    FieldError, FieldFault, LineCursor, begins_with, end_line, field, note, refusal, short_field,
};

/// The longest time within which an activation may have to end.
const LONGEST_FRAME: u32 = 1_000_000_000;

/// What releases a process, and within what it ends.
#[derive(Clone, Copy)]
struct Release {
    kind: u8,
    frame: u32,
    deadline: u32,
    first: u32,
    event: u16,
}

/// The frame of a periodic process.
#[tactic(auto, unfolding(crate::specs::Processes::periodic_frame_read))]
fn periodic_frame(at: LineCursor<'_>) -> Result<(u32, LineCursor<'_>), FieldError>
    ensures { Gives (λ x. (x.0, front x.1)) result (periodic_frame_read (front at.entry)) }
{
    field(at, b" periodic frame ", 10, LONGEST_FRAME)
}

/// What releases a periodic process.
fn periodic(at: LineCursor<'_>) -> Result<(Release, LineCursor<'_>), FieldError>
    ensures { Gives (λ x. (
      (x.0.kind, (x.0.frame, (x.0.deadline, (x.0.first, x.0.event)))),
      front
          x.1,
    )) result (periodic_read (front at.entry)) }
{
    let (frame, at) = periodic_frame(at)?;
    let (deadline, at) = field(at, b" deadline ", 10, frame)?;
    let (first, at) = field(at, b" first ", 0, LONGEST_FRAME)?;
    let release = Release {
        kind: 0,
        frame,
        deadline,
        first,
        event: 0,
    };
    Ok((release, at))
}

/// Whether the event is one of so many, and none of those used.
fn is_free(events: usize, used: &[u16], event: u16) -> bool
    ensures { result ≡ free_test events used.now event }
{
    usize::from(event) < events && !used.contains(&event)
}

/// What releases a process of an event.
fn evented<'a>(
    at: LineCursor<'a>,
    events: usize,
    used: &[u16],
) -> Result<(Release, LineCursor<'a>), FieldError>
    ensures { Gives (λ x. (
      (x.0.kind, (x.0.frame, (x.0.deadline, (x.0.first, x.0.event)))),
      front
          x.1,
    )) result (evented_read events used.now (front at.entry)) }
{
    let (event, at) = short_field(at, b" event ", 0, 65_535)?;
    let at = note(at, is_free(events, used, event));
    let (frame, at) = field(at, b" frame ", 10, LONGEST_FRAME)?;
    let (deadline, at) = field(at, b" deadline ", 10, frame)?;
    let release = Release {
        kind: 1,
        frame,
        deadline,
        first: 0,
        event,
    };
    Ok((release, at))
}

/// What releases a process, and within what it ends.
#[tactic(auto, unfolding(crate::specs::Processes::release_read))]
fn release_at<'a>(
    at: LineCursor<'a>,
    events: usize,
    used: &[u16],
) -> Result<(Release, LineCursor<'a>), FieldError>
    ensures { Gives (λ x. (
      (x.0.kind, (x.0.frame, (x.0.deadline, (x.0.first, x.0.event)))),
      front
          x.1,
    )) result (release_read events used.now (front at.entry)) }
{
    if begins_with(at.rest, b" event ") {
        evented(at, events, used)
    } else {
        periodic(at)
    }
}

/// The rank of a process, and what it takes of time.
#[derive(Clone, Copy)]
struct Time {
    rank: u16,
    run: u32,
    susp: u32,
    waits: u32,
    block: u32,
    bound: u32,
}

#[tactic(auto, unfolding(crate::specs::Processes::time_read))]
fn time_at(at: LineCursor<'_>) -> Result<(Time, LineCursor<'_>), FieldError>
    ensures { Gives (λ x. (
      (x.0.rank, (x.0.run, (x.0.susp, (x.0.waits, (x.0.block, x.0.bound))))),
      front x.1,
    )) result (time_read (front at.entry)) }
{
    let (rank, at) = short_field(at, b" rank ", 0, 65_535)?;
    let (run, at) = cost(at, b" run ")?;
    let (susp, at) = cost(at, b" suspend ")?;
    let (waits, at) = cost(at, b" waits ")?;
    let (block, at) = cost(at, b" block ")?;
    let (bound, at) = field(at, b" bound ", 1, LONGEST_FRAME)?;
    let time = Time {
        rank,
        run,
        susp,
        waits,
        block,
        bound,
    };
    Ok((time, at))
}

/// What a process takes of memory, and where it begins.
#[derive(Clone, Copy)]
struct Room {
    words: u32,
    stack: u32,
    locals: u32,
    start: u32,
}

#[tactic(auto, unfolding(crate::specs::Processes::room_read))]
fn room_at(at: LineCursor<'_>) -> Result<(Room, LineCursor<'_>), FieldError>
    ensures { Gives (λ x. ((x.0.words, (x.0.stack, (x.0.locals, x.0.start))), front x.1)) result
        (room_read (front at.entry)) }
{
    let (words, at) = field(at, b" data ", 0, 4_294_967_295)?;
    let (stack, at) = field(at, b" stack ", 0, 4096)?;
    let (locals, at) = field(at, b" locals ", 0, 4096)?;
    let (start, at) = field(at, b" start ", 0, 4_294_967_295)?;
    let room = Room {
        words,
        stack,
        locals,
        start,
    };
    Ok((room, at))
}

/// Whether a handler may take the number.
fn may_be_taken(number: u16) -> bool
    ensures { result ≡ is_taken number }
{
    (1 <= number && number <= 4) || (10 <= number && number <= 999)
}

/// A number that a handler may take, above the last one.
#[tactic(auto, unfolding(crate::specs::Processes::taken_read))]
fn number_taken(at: LineCursor<'_>, last: u16) -> Result<(u16, LineCursor<'_>), FieldError>
    ensures { Gives (λ x. (x.0, front x.1)) result (taken_read last (front at.entry)) }
{
    let (number, at) = short_field(at, b" ", 0, 65_535)?;
    let at = note(at, last < number && may_be_taken(number));
    Ok((number, at))
}

/// More numbers that a handler takes, up to the end of the line, at most so many.
fn more_numbers(
    alloc: Global,
    most: usize,
    at: LineCursor<'_>,
) -> Result<(List<u16>, LineCursor<'_>), FieldError>
    ensures { Gives (λ x. (x.0, front x.1)) result (more_read most 0 (front at.entry)) }
{
    let mut numbers = List::new(alloc);
    let mut place = at;
    let mut last = 0;
    for _ in 0..most {
        if begins_with(place.rest, b"\n") {
            return Ok((numbers, place));
        }
        let (number, after) = number_taken(place, last)?;
        numbers.push(number)?;
        last = number;
        place = after;
    }
    Err(FieldError::Fault(FieldFault {
        number: refusal::FORM,
        left: place.start,
    }))
}

/// The numbers that a handler takes, one or more.
#[tactic(auto, unfolding(crate::specs::Processes::numbers_read))]
fn numbers(alloc: Global, at: LineCursor<'_>) -> Result<(List<u16>, LineCursor<'_>), FieldError>
    ensures { Gives (λ x. (x.0, front x.1)) result (numbers_read (front at.entry)) }
{
    if begins_with(at.rest, b"\n") {
        return Err(FieldError::Fault(FieldFault {
            number: refusal::FORM,
            left: at.start,
        }));
    }
    more_numbers(alloc, at.rest.len(), at)
}

/// The address of a handler and the numbers that it takes.
#[derive(Drop)]
struct Handler {
    start: u32,
    numbers: List<u16>,
}

/// The handler, where there is one.
#[tactic(auto, unfolding(crate::specs::Processes::handler_read))]
fn handler_at(alloc: Global, at: LineCursor<'_>) -> Result<(Handler, LineCursor<'_>), FieldError>
    ensures { Gives (λ x. ((x.0.start, x.0.numbers), front x.1)) result
        (handler_read (front at.entry)) }
{
    if begins_with(at.rest, b"\n") {
        let none = Handler {
            start: 0,
            numbers: List::new(alloc),
        };
        return Ok((none, at));
    }
    let (start, at) = field(at, b" handler ", 0, 4_294_967_295)?;
    let (numbers, at) = numbers(alloc, at)?;
    Ok((Handler { start, numbers }, at))
}

/// The line of the handler's tree, where it takes numbers.
#[tactic(auto, unfolding(crate::specs::Processes::handler_tree_read))]
fn handler_tree<'a>(
    alloc: Global,
    monitors: usize,
    numbers: &[u16],
    at: LineCursor<'a>,
) -> Result<(Option<SegTree>, LineCursor<'a>), FieldError>
    ensures { Gives (λ x. (x.0, front x.1)) result
        (handler_tree_read monitors numbers.now (front at.entry)) }
{
    match numbers {
        [] => Ok((None, at)),
        [_, ..] => {
            let (tree, at) = tree_line(alloc, monitors, at)?;
            Ok((Some(tree), at))
        }
    }
}

/// All in the line of a process but its name.
#[derive(Drop)]
pub struct ProcessLine {
    release: Release,
    time: Time,
    room: Room,
    handler: Handler,
}

/// All in the line of a process but its name.
#[tactic(auto, unfolding(crate::specs::Processes::fields_read))]
fn fields<'a>(
    alloc: Global,
    at: LineCursor<'a>,
    events: usize,
    used: &[u16],
) -> Result<(ProcessLine, LineCursor<'a>), FieldError>
    ensures { Gives (λ x. (line_of x.0, front x.1)) result
        (fields_read events used.now (front at.entry)) }
{
    let (release, at) = release_at(at, events, used)?;
    let (time, at) = time_at(at)?;
    let (room, at) = room_at(at)?;
    let (handler, at) = handler_at(alloc, at)?;
    let at = end_line(at)?;
    let line = ProcessLine {
        release,
        time,
        room,
        handler,
    };
    Ok((line, at))
}

/// The line of a process, with its name.
#[tactic(auto, unfolding(crate::specs::Processes::process_line_read))]
pub fn process_line<'a>(
    alloc: Global,
    at: LineCursor<'a>,
    events: usize,
    taken: &[Name],
    used: &[u16],
) -> Result<((Name, ProcessLine), LineCursor<'a>), FieldError>
    ensures { Gives (λ x. ((x.0.0, line_of x.0.1), front x.1)) result
        (process_line_read events taken.now used.now (front at.entry)) }
{
    let (name, at) = named(alloc, at, b"process ", taken)?;
    let (line, at) = fields(alloc, at, events, used)?;
    Ok(((name, line), at))
}

/// The process of the line and these trees.
fn process_of_line(line: ProcessLine, body: SegTree, handler_tree: Option<SegTree>) -> RawProcess
    ensures { process_of result ≡ process_with (line_of line) body handler_tree }
{
    let ProcessLine {
        release,
        time,
        room,
        handler,
    } = line;
    RawProcess {
        kind: release.kind,
        frame: release.frame,
        deadline: release.deadline,
        first: release.first,
        event: release.event,
        rank: time.rank,
        run: time.run,
        susp: time.susp,
        waits: time.waits,
        block: time.block,
        bound: time.bound,
        words: room.words,
        stack: room.stack,
        locals: room.locals,
        start: room.start,
        handler: handler.start,
        numbers: handler.numbers,
        body,
        handler_tree,
    }
}

/// A process with its name, the line of its tree, and that of its handler's.
#[tactic(auto, unfolding(crate::specs::Processes::process_read))]
pub fn process_at<'a>(
    alloc: Global,
    at: LineCursor<'a>,
    monitors: usize,
    events: usize,
    taken: &[Name],
    used: &[u16],
) -> Result<((Name, RawProcess), LineCursor<'a>), FieldError>
    ensures { Gives (λ x. ((x.0.0, process_of x.0.1), front x.1)) result
        (process_read monitors events taken.now used.now (front at.entry)) }
{
    let ((name, line), at) = process_line(alloc, at, events, taken, used)?;
    let (body, at) = tree_line(alloc, monitors, at)?;
    let numbers = line.handler.numbers.as_slice();
    let (handler_tree, at) = handler_tree(alloc, monitors, numbers, at)?;
    Ok(((name, process_of_line(line, body, handler_tree)), at))
}
