//! Process lines by their words.

ghost use Rattle.std.specs.Prelude.{◌≡◌, map, option_map, IfOk};
ghost use Rattle.table_reader.specs.Reading.{head_read, head_seen, line_read, line_seen, stay_of, stay_read, stay_seen, stays_read};
ghost use Rattle.table_reader.specs.Words.{left};

use crate::words::{Words, after_key, next_word, optional};
use out_of_memory::OutOfMemory;
use std::alloc::Global;

/// A monitor and the ticks of a stay in it, as they are spelled.
#[derive(Clone, Copy)]
pub struct StayWords<'a> {
    pub monitor: &'a [u8],
    pub ticks: &'a [u8],
}

/// The words of a process line but its stays, as they are spelled.
#[derive(Clone, Copy)]
pub struct HeadWords<'a> {
    pub name: &'a [u8],
    pub event: Option<&'a [u8]>,
    pub frame: &'a [u8],
    pub deadline: Option<&'a [u8]>,
    pub first: Option<&'a [u8]>,
    pub cost: &'a [u8],
}

/// The words of a process line.
#[derive(Drop)]
pub struct LineWords<'a> {
    pub head: HeadWords<'a>,
    pub stays: Vec<StayWords<'a>>,
}

/// What stands before the stays of a line, and the words behind it.
#[derive(Clone, Copy)]
pub struct LineFront<'a> {
    pub head: HeadWords<'a>,
    pub words: Words<'a>,
}

/// A stay, and the words behind it.
#[derive(Clone, Copy)]
pub struct NextStay<'a> {
    pub stay: StayWords<'a>,
    pub words: Words<'a>,
}

/// What stands before the stays of a line, by its first words.
fn read_head(words: Words<'_>) -> Option<LineFront<'_>>
    ensures { option_map head_seen result ≡ head_read (left words.entry.rest) }
{
    let name = after_key(words, b"process")?;
    let event = optional(name.words, b"event");
    let frame = after_key(event.words, b"frame")?;
    let deadline = optional(frame.words, b"deadline");
    let first = optional(deadline.words, b"first");
    let cost = after_key(first.words, b"cost")?;
    Some(LineFront {
        head: HeadWords {
            name: name.word,
            event: event.word,
            frame: frame.word,
            deadline: deadline.word,
            first: first.word,
            cost: cost.word,
        },
        words: cost.words,
    })
}

/// A stay by its three words.
fn read_stay(words: Words<'_>) -> Option<NextStay<'_>>
    ensures { option_map stay_seen result ≡ stay_read (left words.entry.rest) }
{
    let monitor = after_key(words, b"stay")?;
    let ticks = next_word(monitor.words)?;
    Some(NextStay {
        stay: StayWords {
            monitor: monitor.word,
            ticks: ticks.word,
        },
        words: ticks.words,
    })
}

/// The stays to the end of a line, by their words; None where other words stand there.
fn read_stays(alloc: Global, words: Words<'_>) -> Result<Option<Vec<StayWords<'_>>>, OutOfMemory>
    ensures { IfOk result (λ stays. option_map (λ found. map stay_of found.items) stays ≡
        stays_read (left words.entry.rest)) }
{
    let mut stays = Vec::new(alloc);
    let mut at = words;
    'stays: while at.rest.is_some() {
        match read_stay(at) {
            None => return Ok(None),
            Some(next) => {
                stays.push(next.stay)?;
                at = next.words;
            }
        }
    }
    Ok(Some(stays))
}

/// The words of a process line, which is given without its LF; None where other words stand in it.
pub fn read_line(alloc: Global, line: &[u8]) -> Result<Option<LineWords<'_>>, OutOfMemory>
    ensures { IfOk result (λ found. option_map line_seen found ≡ line_read line.now) }
{
    let Some(front) = read_head(Words { rest: Some(line) }) else {
        return Ok(None);
    };
    match read_stays(alloc, front.words)? {
        None => Ok(None),
        Some(stays) => Ok(Some(LineWords {
            head: front.head,
            stays,
        })),
    }
}
