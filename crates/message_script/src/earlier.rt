//! Ticks that are too low, or too soon, after those of an earlier line.

ghost use Rattle.std.specs.Prelude.{◌≡◌, ◌++◌, bytes_eq, option_map, if◌then◌else◌, IfOk, OnOk};
ghost use Rattle.message_script.specs.Earlier.{counted, early, early_sentence, early_tick};
ghost use Rattle.message_script.specs.Earlier.{falls_by, frame_of, has_tick, last_before, occurs};
ghost use Rattle.message_script.specs.Earlier.{soon, soon_event, soon_sentence};
ghost use Rattle.message_script.specs.Earlier.{tick_word};
ghost use Rattle.message_script.specs.Sought.{is_such};
ghost use Rattle.message_script.specs.Words.{seen};

use crate::numbers::is_digits;
use crate::telling::{Note, Told, at_word, with_line};
use crate::words::{Word, first_word, is_end, is_word, word_at};
use image::{EventName, ImageNames};
use message_text::{add_number, add_plain, add_quoted, cut, line};
use out_of_memory::OutOfMemory;
use std::alloc::Global;
use syntax_tree::Text;

/// What an earlier line is to be: one with a tick, or one in which this event occurs.
#[derive(Clone, Copy)]
enum Sought<'a> {
    Tick,
    Event(&'a [u8]),
}

/// Whether a line has a tick before what it says.
#[tactic(auto, unfolding(crate::specs::Earlier::has_tick))]
fn has_tick(line: &[u8]) -> bool
    ensures { result ≡ has_tick line.now }
{
    is_digits(first_word(line).bytes)
}

/// Whether this event occurs in a line.
#[tactic(auto, unfolding(crate::specs::Earlier::occurs))]
fn occurs(name: &[u8], line: &[u8]) -> bool
    ensures { result ≡ occurs name.now line.now }
{
    has_tick(line) && is_word(word_at(line, 1), b"event") && is_word(word_at(line, 2), name)
}

/// Whether a line is such.
fn is_such(sought: Sought<'_>, line: &[u8]) -> bool
    ensures { result ≡ is_such sought.entry line.now }
{
    match sought {
        Sought::Tick => has_tick(line),
        Sought::Event(name) => occurs(name, line),
    }
}

/// This line's number where it is such, else that of the last one before it.
fn newer(is_such: bool, number: usize, last: Option<usize>) -> Option<usize>
    ensures { result ≡ (if is_such then Some number else last) }
{
    if is_such { Some(number) } else { last }
}

/// The number of the last line before this one that is such.
#[tactic(auto, unfolding(crate::specs::Earlier::last_before))]
fn last_before(sought: Sought<'_>, text: &[u8], number: usize) -> Option<usize>
    ensures { result ≡ last_before (is_such sought.entry) text.now number }
{
    let mut left = text;
    let mut last = None;
    for earlier in 1..number {
        let (line, rest) = cut(left, b'\n');
        last = newer(is_such(sought, line), earlier, last);
        match rest {
            None => return last,
            Some(more) => left = more,
        }
    }
    last
}

/// The tick of a line.
#[tactic(auto, unfolding(crate::specs::Earlier::tick_word))]
fn tick_word(line: &[u8]) -> Option<Word<'_>>
    ensures { option_map seen result ≡ tick_word line.now }
{
    if is_end(line) {
        return word_at(line, 1);
    }
    Some(first_word(line))
}

/// Puts these words and a number behind them.
#[tactic(auto, unfolding(crate::specs::Earlier::counted))]
fn add_counted(text: &mut Text, words: &[u8], number: usize) -> Result<(), OutOfMemory>
    ensures { OnOk result (text.new ≡ text.old ++ counted words.now number) }
{
    text.extend(words)?;
    add_number(text, number)
}

/// How a tick stands to that of an earlier line.
#[tactic(auto, unfolding(crate::specs::Earlier::falls_by))]
fn falls_by(is_end: bool) -> &'static [u8]
    ensures { result.now ≡ falls_by is_end }
{
    if is_end {
        b" is not above tick "
    } else {
        b" is below tick "
    }
}

/// What is wrong with a tick that is too low.
#[tactic(auto, unfolding(crate::specs::Earlier::early_sentence))]
fn early_sentence(
    alloc: Global,
    is_end: bool,
    tick: &[u8],
    last: &[u8],
    earlier: usize,
) -> Result<Text, OutOfMemory>
    ensures { IfOk result (λ text. text ≡ early_sentence is_end tick.now last.now earlier) }
{
    let mut text = Text::from_bytes(alloc, b"tick ")?;
    add_plain(&mut text, tick)?;
    text.extend(falls_by(is_end))?;
    add_plain(&mut text, last)?;
    add_counted(&mut text, b" of line ", earlier)?;
    Ok(text)
}

/// Tells of a tick that is too low after that of an earlier line.
#[tactic(auto, unfolding(crate::specs::Earlier::early_tick))]
fn early_tick(
    alloc: Global,
    text: &[u8],
    is_end: bool,
    tick: Word<'_>,
    earlier: Option<usize>,
) -> Result<Option<Told>, OutOfMemory>
    ensures { IfOk result (λ told. told ≡ early_tick text.now is_end (seen tick.entry) earlier) }
{
    match earlier {
        None => Ok(None),
        Some(earlier) => {
            let last = first_word(line(text, earlier)).bytes;
            let sentence = early_sentence(alloc, is_end, tick.bytes, last, earlier)?;
            Ok(Some(with_line(earlier, at_word(tick, sentence, Some(Note::Order)))))
        }
    }
}

/// Tells what is wrong with the line of this number, whose tick is too low.
#[tactic(auto, unfolding(crate::specs::Earlier::early))]
pub(crate) fn early(alloc: Global, text: &[u8], number: usize) -> Result<Option<Told>, OutOfMemory>
    ensures { IfOk result (λ told. told ≡ early text.now number) }
{
    let line = line(text, number);
    match tick_word(line) {
        None => Ok(None),
        Some(tick) => {
            let earlier = last_before(Sought::Tick, text, number);
            early_tick(alloc, text, is_end(line), tick, earlier)
        }
    }
}

/// Whether an event has this name.
fn is_event(event: &EventName, name: &[u8]) -> bool
    ensures { result ≡ bytes_eq event.now.name name.now }
{
    event.name.as_bytes() == name
}

/// The frame of the event of this name.
#[tactic(auto, unfolding(crate::specs::Earlier::frame_of))]
fn frame_of(names: &ImageNames, name: &[u8]) -> usize
    ensures { result ≡ frame_of names.now name.now }
{
    let events = names.events.as_slice();
    for event in events {
        if is_event(event, name) {
            return event.frame as usize;
        }
    }
    0
}

/// What is wrong with an event that comes so many ticks after its last occurrence.
#[tactic(auto, unfolding(crate::specs::Earlier::soon_sentence))]
fn soon_sentence(
    alloc: Global,
    name: &[u8],
    ticks: usize,
    earlier: usize,
    frame: usize,
) -> Result<Text, OutOfMemory>
    ensures { IfOk result (λ text. text ≡ soon_sentence name.now ticks earlier frame) }
{
    let mut text = Text::new(alloc);
    add_quoted(&mut text, name)?;
    add_counted(&mut text, b" comes ", ticks)?;
    add_counted(&mut text, b" ticks after line ", earlier)?;
    add_counted(&mut text, b"; its frame is ", frame)?;
    text.extend(b" ticks")?;
    Ok(text)
}

/// Tells of an event that comes so many ticks after its last occurrence, in an earlier line.
#[tactic(auto, unfolding(crate::specs::Earlier::soon_event))]
fn soon_event(
    alloc: Global,
    names: &ImageNames,
    ticks: usize,
    tick: Word<'_>,
    name: &[u8],
    earlier: Option<usize>,
) -> Result<Option<Told>, OutOfMemory>
    ensures { IfOk result (λ told. told ≡
        soon_event names.now ticks (seen tick.entry) name.now earlier) }
{
    match earlier {
        None => Ok(None),
        Some(earlier) => {
            let sentence = soon_sentence(alloc, name, ticks, earlier, frame_of(names, name))?;
            Ok(Some(with_line(earlier, at_word(tick, sentence, Some(Note::Frame)))))
        }
    }
}

/// Tells what is wrong with the line of this number, whose event comes so many ticks after its last
/// occurrence.
#[tactic(auto, unfolding(crate::specs::Earlier::soon))]
pub(crate) fn soon(
    alloc: Global,
    names: &ImageNames,
    text: &[u8],
    number: usize,
    ticks: usize,
) -> Result<Option<Told>, OutOfMemory>
    ensures { IfOk result (λ told. told ≡ soon names.now text.now number ticks) }
{
    let line = line(text, number);
    match word_at(line, 2) {
        None => Ok(None),
        Some(event) => {
            let earlier = last_before(Sought::Event(event.bytes), text, number);
            soon_event(alloc, names, ticks, first_word(line), event.bytes, earlier)
        }
    }
}
