//! The parts of an image that the bytes begin with.

ghost use Rattle.std.specs.Prelude.{◌≡◌, ◌&&◌, ◌||◌, ◌==◌, not, nat_eq, nat_le, false, IfOk};
ghost use Rattle.image.specs.Raw.{monitor_of, process_of, routine_of};
ghost use Rattle.image_format.specs.Gives.{Gives, GivesOrFault};
ghost use Rattle.image_format.specs.Format.{both, checked, u16 as two_bytes, u8 as one_byte, unless};
ghost use Rattle.image_reader.specs.Grammar.{condition_format, cost, cost_format, deadline_format, device_format, handler_format, handler_tree_format, has, is_again, monitor_format, owner_format, release_format, room_format, routine_format, time_format, wrong_event, wrong_first, wrong_owner, wrong_stay};

use crate::counts::Counts;
use crate::fault::{tri, tri_fault};
use crate::fields::{cost_at, flag_at, u16_within};
use crate::names::name_at;
use crate::taken::{EarlierConditions, TakenNames};
use crate::trees::tree_at;
use image::{ConditionName, DeviceName, RawMonitor, RawRoutine};
use image_format::{ByteFault, ReadError, refusal, u8_at, u16_at, u16_below, u32_at, u32_within};
use std::alloc::Global;

/// How deep trees nest at most.
pub const DEEPEST: u32 = 130;

/// A device.
pub fn device_at<'a>(
    alloc: Global,
    bytes: &'a [u8],
    taken: &TakenNames,
) -> Result<(DeviceName, &'a [u8]), ReadError>
    ensures read { Gives (λ x. (x.0, x.1.now)) result ((device_format taken.now).read bytes.now) }
    ensures fresh { IfOk result (λ x. has taken.now x.0.name ≡ false) }
{
    let (name, rest) = tri!(name_at(alloc, bytes, taken));
    let (out, rest) = tri_fault!(flag_at(rest, 6));
    Ok((DeviceName { name, out }, rest))
}

/// A monitor, after its name.
pub fn monitor_at(bytes: &[u8]) -> Result<(RawMonitor, &[u8]), ByteFault>
    ensures { GivesOrFault (λ x. (monitor_of x.0, x.1.now)) result (monitor_format.read bytes.now) }
{
    let (base, rest) = tri!(u32_at(bytes));
    let (words, rest) = tri!(u32_at(rest));
    let (ceiling, rest) = tri!(u16_at(rest));
    Ok((
        RawMonitor {
            base,
            words,
            ceiling,
        },
        rest,
    ))
}

/// A condition.
pub fn condition_at<'a>(
    alloc: Global,
    bytes: &'a [u8],
    taken: &TakenNames,
    monitors: u16,
    earlier: &EarlierConditions,
) -> Result<(ConditionName, &'a [u8]), ReadError>
    ensures read { Gives (λ x. (x.0, x.1.now)) result
        ((condition_format taken.now monitors earlier.now).read bytes.now) }
    ensures new { IfOk result (λ x. is_again earlier.now x.0 ≡ false) }
{
    let (name, rest) = tri!(name_at(alloc, bytes, taken));
    let (mon, rest) = tri_fault!(u16_below(rest, u32::from(monitors)));
    match earlier.unless_again(name, mon) {
        Some(condition) => Ok((condition, rest)),
        None => Err(ReadError::Fault(ByteFault {
            number: refusal::NAME,
            left: bytes.len(),
        })),
    }
}

/// A number of one byte that is at most the given one.
pub fn kind_at(bytes: &[u8], last: u8) -> Result<(u8, &[u8]), ByteFault>
    ensures { GivesOrFault (λ x. (x.0, x.1.now)) result
        ((checked one_byte (λ kind. unless (nat_le kind last) 6)).read bytes.now) }
{
    let (kind, rest) = tri!(u8_at(bytes));
    if kind <= last {
        Ok((kind, rest))
    } else {
        Err(ByteFault {
            number: refusal::KIND,
            left: bytes.len(),
        })
    }
}

/// What is wrong with the owner of a routine.
fn owner_fault(counts: &Counts, kind: u8, owner: u16) -> Option<u8>
    ensures { result ≡ wrong_owner counts.now kind owner }
{
    let (is_right, number) = match kind {
        0 => (owner == 0, refusal::NOT_ZERO),
        1 => (owner < counts.processes, refusal::RANGE),
        _ => (owner < counts.monitors, refusal::RANGE),
    };
    if is_right { None } else { Some(number) }
}

/// The owner of a routine.
fn owner_number_at<'a>(
    bytes: &'a [u8],
    counts: &Counts,
    kind: u8,
) -> Result<(u16, &'a [u8]), ByteFault>
    ensures { GivesOrFault (λ x. (x.0, x.1.now)) result
        ((checked two_bytes (wrong_owner counts.now kind)).read bytes.now) }
{
    let (owner, rest) = tri!(u16_at(bytes));
    match owner_fault(counts, kind, owner) {
        None => Ok((owner, rest)),
        Some(number) => Err(ByteFault {
            number,
            left: bytes.len(),
        }),
    }
}

/// Whose a routine is, its parameters and locals, and whether it has a result.
#[derive(Clone, Copy)]
struct Owner {
    kind: u8,
    owner: u16,
    params: u16,
    locals: u32,
    result: bool,
}

fn owner_at<'a>(bytes: &'a [u8], counts: &Counts) -> Result<(Owner, &'a [u8]), ByteFault>
    ensures { GivesOrFault (λ x. (
      (x.0.kind, (x.0.owner, (x.0.params, (x.0.locals, x.0.result)))),
      x.1.now,
    )) result ((owner_format counts.now).read bytes.now) }
{
    let (kind, rest) = tri!(kind_at(bytes, 2));
    let (owner, rest) = tri!(owner_number_at(rest, counts, kind));
    let (params, rest) = tri!(u16_at(rest));
    let (locals, rest) = tri!(u32_within(rest, 0, 4096));
    let (result, rest) = tri!(flag_at(rest, 4));
    Ok((
        Owner {
            kind,
            owner,
            params,
            locals,
            result,
        },
        rest,
    ))
}

/// How long a routine of the kind is inside its monitor.
fn stay_at(bytes: &[u8], kind: u8) -> Result<(u32, &[u8]), ByteFault>
    ensures { GivesOrFault (λ x. (x.0, x.1.now)) result ((checked cost (wrong_stay kind)).read bytes.now) }
{
    let (stay, rest) = tri!(cost_at(bytes));
    if kind == 2 || stay == 0 {
        Ok((stay, rest))
    } else {
        Err(ByteFault {
            number: refusal::NOT_ZERO,
            left: bytes.len(),
        })
    }
}

/// Where the code of a routine stands, and what it takes of time.
#[derive(Clone, Copy)]
struct Time {
    start: u32,
    run: u32,
    susp: u32,
    waits: u32,
    stay: u32,
}

fn routine_time_at(bytes: &[u8], kind: u8) -> Result<(Time, &[u8]), ByteFault>
    ensures { GivesOrFault (λ x. ((x.0.start, (x.0.run, (x.0.susp, (x.0.waits, x.0.stay)))), x.1.now))
        result ((cost_format kind).read bytes.now) }
{
    let (start, rest) = tri!(u32_at(bytes));
    let (run, rest) = tri!(cost_at(rest));
    let (susp, rest) = tri!(cost_at(rest));
    let (waits, rest) = tri!(cost_at(rest));
    let (stay, rest) = tri!(stay_at(rest, kind));
    Ok((
        Time {
            start,
            run,
            susp,
            waits,
            stay,
        },
        rest,
    ))
}

/// A routine.
pub fn routine_at<'a>(
    alloc: Global,
    bytes: &'a [u8],
    counts: &Counts,
) -> Result<(RawRoutine, &'a [u8]), ReadError>
    ensures { Gives (λ x. (routine_of x.0, x.1.now)) result
        ((routine_format counts.now).read bytes.now) }
{
    let (owner, rest) = tri_fault!(owner_at(bytes, counts));
    let (time, rest) = tri_fault!(routine_time_at(rest, owner.kind));
    let (tree, rest) = tri!(tree_at(alloc, counts.monitors, DEEPEST, rest));
    Ok((
        RawRoutine {
            kind: owner.kind,
            owner: owner.owner,
            params: owner.params,
            locals: owner.locals,
            result: owner.result,
            start: time.start,
            run: time.run,
            susp: time.susp,
            waits: time.waits,
            stay: time.stay,
            tree,
        },
        rest,
    ))
}
