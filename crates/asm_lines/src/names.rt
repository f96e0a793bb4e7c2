//! Names in a line, and the lines of the head, devices, events, monitors and conditions.

ghost use Rattle.std.specs.Prelude.{◌≡◌, ◌≤◌, length};
ghost use Rattle.image.specs.Raw.{monitor_of};
ghost use Rattle.image_reader.specs.Grammar.{has, is_again};
ghost use Rattle.text_fields.specs.Front.{Gives, front};
ghost use Rattle.asm_lines.specs.Names.{below_none, ceiling_read, condition_read, device_read, direction_read, event_read, head_read, is_in_word as in_word_test, may_be_name as name_test, monitor_read, name_read, named_read, placed, word_len as word_front};

use image::{ConditionName, DeviceName, RawMonitor};
use image_reader::is_plain_name;
use std::alloc::Global;
use syntax_tree::Name;
use text_fields::{
    FieldError, FieldFault, LineCursor, begins_with, end_line, field, note, numeral, refusal,
    short_field, skip,
};

/// Whether the name is one of these.
fn is_one_of(name: &[u8], taken: &[Name]) -> bool
    ensures { result ≡ has taken.now name.now }
{
    taken.iter().any(|other| other.as_bytes() == name)
}

/// Whether the bytes may be a name where these are taken.
fn may_be_name(name: &[u8], taken: &[Name]) -> bool
    ensures { result ≡ name_test taken.now name.now }
{
    name.len() <= 63 && (is_plain_name(name) && !is_one_of(name, taken))
}

fn is_in_word(byte: u8) -> bool
    ensures { result ≡ in_word_test byte }
{
    byte != b' ' && byte != b'\n'
}

/// How many bytes stand before the next space or the end of the line.
pub fn word_len(bytes: &[u8]) -> usize
    ensures value { result ≡ word_front bytes.now }
    ensures within { result ≤ length bytes.now }
{
    bytes.iter().take_while(|byte| is_in_word(**byte)).count()
}

/// A word, which is to be a name that is not taken.
#[tactic(auto, unfolding(crate::specs::Names::name_read))]
fn name_at<'a>(
    alloc: Global,
    at: LineCursor<'a>,
    taken: &[Name],
) -> Result<(Name, LineCursor<'a>), FieldError>
    ensures { Gives (λ x. (x.0, front x.1)) result (name_read taken.now (front at.entry)) }
{
    let len = word_len(at.rest);
    if len == 0 {
        return Err(FieldError::Fault(FieldFault {
            number: refusal::FORM,
            left: at.start,
        }));
    }
    let (word, rest) = at.rest.split_at(len);
    let holds = may_be_name(word, taken);
    let name = Name::new(alloc, word)?;
    let after = LineCursor {
        rest,
        start: at.start,
        is_fine: at.is_fine && holds,
    };
    Ok((name, after))
}

/// A name behind these bytes.
#[tactic(auto, unfolding(crate::specs::Names::named_read))]
pub fn named<'a>(
    alloc: Global,
    at: LineCursor<'a>,
    label: &[u8],
    taken: &[Name],
) -> Result<(Name, LineCursor<'a>), FieldError>
    ensures { Gives (λ x. (x.0, front x.1)) result
        (named_read label.now taken.now (front at.entry)) }
{
    let at = skip(at, label)?;
    name_at(alloc, at, taken)
}

/// The line of the program's name and the overhead.
#[tactic(auto, unfolding(crate::specs::Names::head_read))]
pub fn head_line(
    alloc: Global,
    at: LineCursor<'_>,
) -> Result<((Name, u16), LineCursor<'_>), FieldError>
    ensures { Gives (λ x. ((x.0.0, x.0.1), front x.1)) result (head_read (front at.entry)) }
{
    let (name, at) = named(alloc, at, b"image ", &[])?;
    let (overhead, at) = short_field(at, b" overhead ", 0, 1000)?;
    let at = end_line(at)?;
    Ok(((name, overhead), at))
}

/// Whether a device is one for output.
fn direction(at: LineCursor<'_>) -> Result<(bool, LineCursor<'_>), FieldError>
    ensures { Gives (λ x. (x.0, front x.1)) result (direction_read (front at.entry)) }
{
    if begins_with(at.rest, b" out") {
        let at = skip(at, b" out")?;
        return Ok((true, at));
    }
    let at = skip(at, b" in")?;
    Ok((false, at))
}

/// The line of a device.
#[tactic(auto, unfolding(crate::specs::Names::device_read))]
pub fn device_line<'a>(
    alloc: Global,
    at: LineCursor<'a>,
    taken: &[Name],
) -> Result<(DeviceName, LineCursor<'a>), FieldError>
    ensures { Gives (λ x. (x.0, front x.1)) result (device_read taken.now (front at.entry)) }
{
    let (name, at) = named(alloc, at, b"device ", taken)?;
    let (out, at) = direction(at)?;
    let at = end_line(at)?;
    Ok((DeviceName { name, out }, at))
}

/// The line of an event.
#[tactic(auto, unfolding(crate::specs::Names::event_read))]
pub fn event_line<'a>(
    alloc: Global,
    at: LineCursor<'a>,
    taken: &[Name],
) -> Result<(Name, LineCursor<'a>), FieldError>
    ensures { Gives (λ x. (x.0, front x.1)) result (event_read taken.now (front at.entry)) }
{
    let (name, at) = named(alloc, at, b"event ", taken)?;
    let at = end_line(at)?;
    Ok((name, at))
}

/// A ceiling below 65535; a greater number is no form of one.
fn ceiling_below(
    number: Option<u32>,
    at: LineCursor<'_>,
) -> Result<(u16, LineCursor<'_>), FieldError>
    ensures { Gives (λ x. (x.0, front x.1)) result (below_none number (front at.entry)) }
{
    match number {
        Some(ceiling) => {
            if ceiling < 65_535 {
                Ok((ceiling as u16, at))
            } else {
                Err(FieldError::Fault(FieldFault {
                    number: refusal::FORM,
                    left: at.start,
                }))
            }
        }
        None => Err(FieldError::Fault(FieldFault {
            number: refusal::FORM,
            left: at.start,
        })),
    }
}

/// A ceiling below 65535, or that there is none.
#[tactic(auto, unfolding(crate::specs::Names::ceiling_read))]
fn ceiling(at: LineCursor<'_>) -> Result<(u16, LineCursor<'_>), FieldError>
    ensures { Gives (λ x. (x.0, front x.1)) result (ceiling_read (front at.entry)) }
{
    if begins_with(at.rest, b" ceiling none") {
        let at = skip(at, b" ceiling none")?;
        return Ok((65_535, at));
    }
    let at = skip(at, b" ceiling ")?;
    let (number, at) = numeral(at)?;
    ceiling_below(number, at)
}

/// The line of a monitor, with its name.
#[tactic(auto, unfolding(crate::specs::Names::monitor_read))]
pub fn monitor_line<'a>(
    alloc: Global,
    at: LineCursor<'a>,
    taken: &[Name],
) -> Result<((Name, RawMonitor), LineCursor<'a>), FieldError>
    ensures { Gives (λ x. ((x.0.0, monitor_of x.0.1), front x.1)) result
        (monitor_read taken.now (front at.entry)) }
{
    let (name, at) = named(alloc, at, b"monitor ", taken)?;
    let (base, at) = field(at, b" base ", 0, 4_294_967_295)?;
    let (words, at) = field(at, b" words ", 0, 4_294_967_295)?;
    let (ceiling, at) = ceiling(at)?;
    let at = end_line(at)?;
    let monitor = RawMonitor {
        base,
        words,
        ceiling,
    };
    Ok(((name, monitor), at))
}

/// Whether an earlier condition of the same monitor has the name.
fn is_again_in(condition: &ConditionName, earlier: &[ConditionName]) -> bool
    ensures { result ≡ is_again earlier.now condition.now }
{
    earlier.iter().any(|other| condition.mon == other.mon && condition.name == other.name)
}

/// A condition of one of so many monitors, to the end of its line.
fn placed_condition<'a>(
    name: Name,
    mon: u16,
    monitors: usize,
    earlier: &[ConditionName],
    at: LineCursor<'a>,
) -> Result<(ConditionName, LineCursor<'a>), FieldError>
    ensures { Gives (λ x. (x.0, front x.1)) result
        (placed monitors earlier.now name (mon, front at.entry)) }
{
    let condition = ConditionName { name, mon };
    let at = note(at, usize::from(mon) < monitors);
    let at = note(at, !is_again_in(&condition, earlier));
    let at = end_line(at)?;
    Ok((condition, at))
}

/// The line of a condition of one of so many monitors, after these conditions.
#[tactic(auto, unfolding(crate::specs::Names::condition_read))]
pub fn condition_line<'a>(
    alloc: Global,
    at: LineCursor<'a>,
    taken: &[Name],
    monitors: usize,
    earlier: &[ConditionName],
) -> Result<(ConditionName, LineCursor<'a>), FieldError>
    ensures { Gives (λ x. (x.0, front x.1)) result
        (condition_read taken.now monitors earlier.now (front at.entry)) }
{
    let (name, at) = named(alloc, at, b"condition ", taken)?;
    let (mon, at) = short_field(at, b" ", 0, 65_535)?;
    placed_condition(name, mon, monitors, earlier, at)
}
