//! Processes that the bytes begin with.

ghost use Rattle.std.specs.Prelude.{◌≡◌, ◌&&◌, nat_lt, length, map};
ghost use Rattle.image.specs.Bytes.{Version};
ghost use Rattle.image.specs.Raw.{process_of};
ghost use Rattle.image_reader.specs.Versions.{in_version};
ghost use Rattle.image_format.specs.Gives.{Gives, GivesOrFault};
ghost use Rattle.image_format.specs.Format.{both, checked, u16 as two_bytes, unless};
ghost use Rattle.image_format.specs.TreeFormat.{in_image, tree_format, u32_within as long_within};
ghost use Rattle.image_reader.specs.Grammar.{deadline_format, deepest, handler_format, handler_tree_format, is_taken, numbers_format, process_format, release_format, room_format, time_format, wrong_event, wrong_first};

use crate::counts::Counts;
use crate::fault::{tri, tri_fault, tri_memory};
use crate::fields::cost_at;
use crate::parts::{DEEPEST, kind_at};
use crate::trees::tree_at;
use image::RawProcess;
use image_format::{ByteFault, ReadError, SegTree, refusal, u16_at, u32_at, u32_within};
use std::alloc::Global;
use syntax_tree::List;

/// The longest time within which an activation may have to end.
const LONGEST_FRAME: u32 = 1_000_000_000;

/// Within how many ticks an activation has to end, where that stands, in bytes with deadlines; else
/// the frame.
fn deadline_at(bytes: &[u8], has_deadlines: bool, frame: u32) -> Result<(u32, &[u8]), ByteFault>
    ensures { GivesOrFault (λ x. (x.0, x.1.now)) result
        ((deadline_format (in_version has_deadlines) frame).read bytes.now) }
{
    if has_deadlines {
        u32_within(bytes, 10, frame)
    } else {
        Ok((frame, bytes))
    }
}

/// The first activation of a process of the kind.
fn first_at(bytes: &[u8], kind: u8) -> Result<(u32, &[u8]), ByteFault>
    ensures { GivesOrFault (λ x. (x.0, x.1.now)) result
        ((checked (long_within 0 1000000000) (wrong_first kind)).read bytes.now) }
{
    let (first, rest) = tri!(u32_within(bytes, 0, LONGEST_FRAME));
    if kind == 0 || first == 0 {
        Ok((first, rest))
    } else {
        Err(ByteFault {
            number: refusal::NOT_ZERO,
            left: bytes.len(),
        })
    }
}

/// What is wrong with the event of a process of the kind, where these events are used.
fn event_fault(events: u16, used: &[u16], kind: u8, event: u16) -> Option<u8>
    ensures { result ≡ wrong_event events used.now kind event }
{
    let (is_right, number) = match kind {
        0 => (event == 0, refusal::NOT_ZERO),
        _ => (event < events && !used.contains(&event), refusal::RANGE),
    };
    if is_right { None } else { Some(number) }
}

/// The event of a process of the kind.
fn event_at<'a>(
    bytes: &'a [u8],
    events: u16,
    used: &[u16],
    kind: u8,
) -> Result<(u16, &'a [u8]), ByteFault>
    ensures { GivesOrFault (λ x. (x.0, x.1.now)) result
        ((checked two_bytes (wrong_event events used.now kind)).read bytes.now) }
{
    let (event, rest) = tri!(u16_at(bytes));
    match event_fault(events, used, kind, event) {
        None => Ok((event, rest)),
        Some(number) => Err(ByteFault {
            number,
            left: bytes.len(),
        }),
    }
}

/// When a process is released, within what it has to end, and its rank.
#[derive(Clone, Copy)]
struct Release {
    kind: u8,
    frame: u32,
    deadline: u32,
    first: u32,
    event: u16,
    rank: u16,
}

fn release_at<'a>(
    bytes: &'a [u8],
    has_deadlines: bool,
    events: u16,
    used: &[u16],
) -> Result<(Release, &'a [u8]), ByteFault>
    ensures { GivesOrFault (λ x. (
      (
        x.0.kind,
        (
          x.0.frame,
          (x.0.deadline, (x.0.first, (x.0.event, x.0.rank))),
        ),
      ),
      x.1.now,
    )) result
        ((release_format (in_version has_deadlines) events used.now).read bytes.now) }
{
    let (kind, rest) = tri!(kind_at(bytes, 1));
    let (frame, rest) = tri!(u32_within(rest, 10, LONGEST_FRAME));
    let (deadline, rest) = tri!(deadline_at(rest, has_deadlines, frame));
    let (first, rest) = tri!(first_at(rest, kind));
    let (event, rest) = tri!(event_at(rest, events, used, kind));
    let (rank, rest) = tri!(u16_at(rest));
    Ok((
        Release {
            kind,
            frame,
            deadline,
            first,
            event,
            rank,
        },
        rest,
    ))
}

/// What a process takes of time.
#[derive(Clone, Copy)]
struct Time {
    run: u32,
    susp: u32,
    waits: u32,
    block: u32,
    bound: u32,
}

fn time_at(bytes: &[u8]) -> Result<(Time, &[u8]), ByteFault>
    ensures { GivesOrFault (λ x. ((x.0.run, (x.0.susp, (x.0.waits, (x.0.block, x.0.bound)))), x.1.now))
        result (time_format.read bytes.now) }
{
    let (run, rest) = tri!(cost_at(bytes));
    let (susp, rest) = tri!(cost_at(rest));
    let (waits, rest) = tri!(cost_at(rest));
    let (block, rest) = tri!(cost_at(rest));
    let (bound, rest) = tri!(u32_within(rest, 1, LONGEST_FRAME));
    Ok((
        Time {
            run,
            susp,
            waits,
            block,
            bound,
        },
        rest,
    ))
}

/// What a process takes of memory, and where its body stands.
#[derive(Clone, Copy)]
struct Room {
    words: u32,
    stack: u32,
    locals: u32,
    start: u32,
}

fn room_at(bytes: &[u8]) -> Result<(Room, &[u8]), ByteFault>
    ensures { GivesOrFault (λ x. ((x.0.words, (x.0.stack, (x.0.locals, x.0.start))), x.1.now)) result
        (room_format.read bytes.now) }
{
    let (words, rest) = tri!(u32_at(bytes));
    let (stack, rest) = tri!(u32_within(rest, 0, 4096));
    let (locals, rest) = tri!(u32_within(rest, 0, 4096));
    let (start, rest) = tri!(u32_at(rest));
    Ok((
        Room {
            words,
            stack,
            locals,
            start,
        },
        rest,
    ))
}

/// The address of a handler, and how many numbers it takes.
fn handler_at(bytes: &[u8]) -> Result<((u32, u16), &[u8]), ByteFault>
    ensures { GivesOrFault (λ x. (x.0, x.1.now)) result (handler_format.read bytes.now) }
{
    let (handler, rest) = tri!(u32_at(bytes));
    let (count, rest) = tri!(u16_at(rest));
    if 0 < count || handler == 0 {
        Ok(((handler, count), rest))
    } else {
        Err(ByteFault {
            number: refusal::NOT_ZERO,
            left: bytes.len(),
        })
    }
}

/// Whether a handler may take the number.
fn may_be_taken(number: u16) -> bool
    ensures { result ≡ is_taken number }
{
    (1 <= number && number <= 4) || (10 <= number && number <= 999)
}

/// A number of a handler, after the last one or after 0.
fn number_at(bytes: &[u8], last: u16) -> Result<(u16, &[u8]), ByteFault>
    ensures { GivesOrFault (λ x. (x.0, x.1.now)) result
        ((checked two_bytes (λ n. unless (nat_lt last n && is_taken n) 8)).read bytes.now) }
{
    let (number, rest) = tri!(u16_at(bytes));
    if last < number && may_be_taken(number) {
        Ok((number, rest))
    } else {
        Err(ByteFault {
            number: refusal::HANDLER,
            left: bytes.len(),
        })
    }
}

/// The numbers that a handler takes.
fn numbers_at(alloc: Global, bytes: &[u8], count: u16) -> Result<(List<u16>, &[u8]), ReadError>
    ensures { Gives (λ x. (x.0, x.1.now)) result ((numbers_format count).read bytes.now) }
{
    let mut numbers = List::new(alloc);
    let mut rest = bytes;
    let mut last = 0;
    for _ in 0..count {
        let (number, after) = tri_fault!(number_at(rest, last));
        tri_memory!(numbers.push(number));
        last = number;
        rest = after;
    }
    Ok((numbers, rest))
}

/// The tree of a handler that takes so many numbers.
fn handler_tree_at(
    alloc: Global,
    bytes: &[u8],
    monitors: u16,
    count: u16,
) -> Result<(Option<SegTree>, &[u8]), ReadError>
    ensures { Gives (λ x. (x.0, x.1.now)) result
        ((handler_tree_format monitors count).read bytes.now) }
{
    if count == 0 {
        return Ok((None, bytes));
    }
    let (tree, rest) = tri!(tree_at(alloc, monitors, DEEPEST, bytes));
    Ok((Some(tree), rest))
}

/// The numbers that a handler takes, and the trees of a process.
#[derive(Drop)]
struct Trees {
    numbers: List<u16>,
    body: SegTree,
    handler_tree: Option<SegTree>,
}

/// The numbers of a handler that takes so many, and the trees of its process.
fn trees_at(
    alloc: Global,
    bytes: &[u8],
    monitors: u16,
    count: u16,
) -> Result<(Trees, &[u8]), ReadError>
    ensures { Gives (λ x. ((x.0.numbers, (x.0.body, x.0.handler_tree)), x.1.now)) result
        ((both (numbers_format count) (λ numbers. both (tree_format (in_image monitors) deepest)
        (λ body. handler_tree_format monitors count))).read bytes.now) }
{
    let (numbers, rest) = tri!(numbers_at(alloc, bytes, count));
    let (body, rest) = tri!(tree_at(alloc, monitors, DEEPEST, rest));
    let (handler_tree, rest) = tri!(handler_tree_at(alloc, rest, monitors, count));
    Ok((
        Trees {
            numbers,
            body,
            handler_tree,
        },
        rest,
    ))
}

/// A process, after its name.
pub fn process_at<'a>(
    alloc: Global,
    bytes: &'a [u8],
    has_deadlines: bool,
    counts: &Counts,
    used: &[u16],
) -> Result<(RawProcess, &'a [u8]), ReadError>
    ensures { Gives (λ x. (process_of x.0, x.1.now)) result
        ((process_format (in_version has_deadlines) counts.now used.now).read bytes.now) }
{
    let (release, rest) = tri_fault!(release_at(bytes, has_deadlines, counts.events, used));
    let (time, rest) = tri_fault!(time_at(rest));
    let (room, rest) = tri_fault!(room_at(rest));
    let ((handler, count), rest) = tri_fault!(handler_at(rest));
    let (trees, rest) = tri!(trees_at(alloc, rest, counts.monitors, count));
    Ok((
        RawProcess {
            kind: release.kind,
            frame: release.frame,
            deadline: release.deadline,
            first: release.first,
            event: release.event,
            rank: release.rank,
            run: time.run,
            susp: time.susp,
            waits: time.waits,
            block: time.block,
            bound: time.bound,
            words: room.words,
            stack: room.stack,
            locals: room.locals,
            start: room.start,
            handler,
            numbers: trees.numbers,
            body: trees.body,
            handler_tree: trees.handler_tree,
        },
        rest,
    ))
}
