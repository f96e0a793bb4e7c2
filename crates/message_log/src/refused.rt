//! The message for a log that is of no run.

ghost use Rattle.std.specs.Prelude.{◌≡◌, ◌++◌, IfOk, OnOk, codes, decimal, take};
ghost use Rattle.event_log.specs.Parts.{spelled};
ghost use Rattle.message_text.specs.Words.{note};
ghost use Rattle.replay_reason_spec.specs.Events.{event_of, events_of};
ghost use Rattle.message_log.specs.Refused.{list, list_lines, listed, more, next_note, notes, quoting, refused_message, sentence};

use crate::event_line::{add_event, process_of};
use crate::messages::told_line;
use image::ImageNames;
use message_text::{add_note, add_number};
use out_of_memory::OutOfMemory;
use replay_reason_spec::{Reason, SourceEvent};
use std::alloc::Global;
use syntax_tree::Text;

/// So many events of a list are shown.
const SHOWN: usize = 8;

/// Puts a number behind some words.
fn add_behind(text: &mut Text, words: &[u8], number: u64) -> Result<(), OutOfMemory>
    ensures { OnOk result (text.new ≡ text.old ++ (words.now ++ decimal number)) }
{
    text.extend(words)?;
    add_number(text, number as usize)
}

/// Puts a number between some words.
fn add_between(text: &mut Text, front: &[u8], number: u64, back: &[u8]) -> Result<(), OutOfMemory>
    ensures { OnOk result (text.new ≡ text.old ++ (front.now ++ (decimal number ++ back.now))) }
{
    add_behind(text, front, number)?;
    text.extend(back)
}

/// Puts two numbers, each behind some words.
fn add_both(
    text: &mut Text,
    words: &[u8],
    number: u64,
    middle: &[u8],
    other: u64,
) -> Result<(), OutOfMemory>
    ensures { OnOk result (text.new ≡ text.old ++
        (words.now ++ (decimal number ++ (middle.now ++ decimal other)))) }
{
    add_behind(text, words, number)?;
    add_behind(text, middle, other)
}

/// Puts that a tick is past.
fn add_past(text: &mut Text, tick: u64, reached: u64) -> Result<(), OutOfMemory>
    ensures { OnOk result (text.new ≡ text.old ++ (codes "tick " ++ (decimal tick ++
        (codes " is below tick " ++
        (decimal reached ++ codes ", which the log has reached"))))) }
{
    add_behind(text, b"tick ", tick)?;
    add_between(
        text,
        b" is below tick ",
        reached,
        b", which the log has reached",
    )
}

/// Puts that a release finds its process unfinished.
fn add_unfinished(text: &mut Text, name: &[u8]) -> Result<(), OutOfMemory>
    ensures { OnOk result (text.new ≡ text.old ++
        (codes "this release finds the process `" ++ (name.now ++ codes "` unfinished"))) }
{
    text.extend(b"this release finds the process `")?;
    text.extend(name)?;
    text.extend(b"` unfinished")
}

/// Puts what is wrong.
fn add_sentence(text: &mut Text, names: &ImageNames, why: &Reason) -> Result<(), OutOfMemory>
    ensures { OnOk result (text.new ≡ text.old ++ sentence names.now why.now) }
{
    match why {
        Reason::Ended { .. } => text.extend(
            b"the log ends, and start events below the end of the script are missing",
        ),
        Reason::BeyondEnd { tick, end } => {
            add_both(
                text,
                b"tick ",
                *tick,
                b" is not below the script's end, ",
                *end,
            )
        }
        Reason::Past { tick, reached } => add_past(text, *tick, *reached),
        Reason::Unfinished { process } => add_unfinished(text, process_of(names, *process)),
        Reason::Missing { .. } => {
            text.extend(b"start events that are due before this one are missing")
        }
        Reason::NoneDue { tick, .. } => {
            add_behind(text, b"no start event is due up to tick ", *tick)
        }
        Reason::Acted { tick } => {
            add_between(text, b"somebody has acted in tick ", *tick, b" already")
        }
        Reason::Other { .. } => text.extend(b"this event is not what the program does next"),
    }
}

/// What is wrong.
fn sentence(alloc: Global, names: &ImageNames, why: &Reason) -> Result<Text, OutOfMemory>
    ensures { IfOk result (λ text. text ≡ sentence names.now why.now) }
{
    let mut text = Text::new(alloc);
    add_sentence(&mut text, names, why)?;
    Ok(text)
}

/// Puts the event in a line of a list.
fn add_listed(text: &mut Text, names: &ImageNames, event: &SourceEvent) -> Result<(), OutOfMemory>
    ensures { OnOk result
        (text.new ≡ text.old ++ listed (spelled names.now (event_of event.now))) }
{
    text.extend(b"          ")?;
    add_event(text, names, event)?;
    text.extend(b"\n")
}

/// Puts each of the events in a line of a list.
fn add_events(
    text: &mut Text,
    names: &ImageNames,
    events: &[SourceEvent],
) -> Result<(), OutOfMemory>
    ensures { OnOk result (text.new ≡ text.old ++ list_lines names.now (events_of events.now)) }
{
    for event in events {
        add_listed(text, names, event)?;
    }
    Ok(())
}

/// The first of the events.
fn shown(events: &[SourceEvent]) -> &[SourceEvent]
    ensures { result.now ≡ take 8 events.now }
{
    if events.len() > SHOWN {
        &events[..SHOWN]
    } else {
        events
    }
}

/// Puts whether a list of so many events has more than are shown.
fn add_more(text: &mut Text, count: usize) -> Result<(), OutOfMemory>
    ensures { OnOk result (text.new ≡ text.old ++ more count) }
{
    if count > SHOWN {
        text.extend(b"          and more\n")
    } else {
        Ok(())
    }
}

/// Puts the list of the start events that are missing.
fn add_list(text: &mut Text, names: &ImageNames, events: &[SourceEvent]) -> Result<(), OutOfMemory>
    ensures { OnOk result (text.new ≡ text.old ++ list names.now (events_of events.now)) }
{
    add_note(text, &[b"due, and not come:"])?;
    add_events(text, names, shown(events))?;
    add_more(text, events.len())
}

/// Puts a note that quotes an event behind some words.
fn add_quoting(
    text: &mut Text,
    names: &ImageNames,
    words: &[u8],
    event: &SourceEvent,
) -> Result<(), OutOfMemory>
    ensures { OnOk result
        (text.new ≡ text.old ++ quoting names.now words.now (event_of event.now)) }
{
    text.extend(b"        = ")?;
    text.extend(words)?;
    text.extend(b"`")?;
    add_event(text, names, event)?;
    text.extend(b"`\n")
}

/// Puts a note that quotes an event behind some words, or another one where there is no event.
fn add_next(
    text: &mut Text,
    names: &ImageNames,
    words: &[u8],
    none: &[u8],
    event: Option<SourceEvent>,
) -> Result<(), OutOfMemory>
    ensures { OnOk result (text.new ≡ text.old ++ next_note names.now words.now none.now event) }
{
    match event {
        None => add_note(text, &[none]),
        Some(event) => add_quoting(text, names, words, &event),
    }
}

/// Puts what is noted.
fn add_notes(text: &mut Text, names: &ImageNames, why: &Reason) -> Result<(), OutOfMemory>
    ensures { OnOk result (text.new ≡ text.old ++ notes names.now why.now) }
{
    match why {
        Reason::Ended { missing } => add_list(text, names, missing.as_slice()),
        Reason::Missing { missing } => add_list(text, names, missing.as_slice()),
        Reason::NoneDue { next, .. } => add_next(
            text,
            names,
            b"the next one due is ",
            b"none is due below the script's end",
            *next,
        ),
        Reason::Other { allowed } => add_next(
            text,
            names,
            b"allowed in this tick is ",
            b"no process is ready in this tick",
            *allowed,
        ),
        Reason::BeyondEnd { .. }
        | Reason::Past { .. }
        | Reason::Unfinished { .. }
        | Reason::Acted { .. } => Ok(()),
    }
}

/// The message for a log that is that of no run of a program, from this line on: the file and the
/// line, and the reason; the line itself; and what is noted.
#[tactic(auto, unfolding(crate::specs::Refused::refused_message))]
pub fn refused_message(
    alloc: Global,
    file: &str,
    text: &[u8],
    line: u32,
    names: &ImageNames,
    why: &Reason,
) -> Result<Text, OutOfMemory>
    ensures { IfOk result (λ message.
        message ≡ refused_message file.now text.now line names.now why.now) }
{
    let sentence = sentence(alloc, names, why)?;
    let mut message = told_line(alloc, file, text, line as usize, b"L3", sentence.as_bytes())?;
    add_notes(&mut message, names, why)?;
    Ok(message)
}
