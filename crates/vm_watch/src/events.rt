//! The tick, and the last events.

ghost use Rattle.std.specs.Prelude.{◌≡◌, ◌++◌, All, OnOk, codes, decimal};
ghost use Rattle.event_log.specs.InRange.{AreIn};
ghost use Rattle.event_log.specs.Line.{line_of, log_of};
ghost use Rattle.command_due.specs.Text.{recent_text};

use base::Event;
use event_log::{LineBuffer, write_line};
use image::ImageNames;
use itoa::Buffer;
use out_of_memory::OutOfMemory;
use syntax_tree::Text;

/// Puts a word, a number behind it, and ends the line.
fn put_number(text: &mut Text, word: &[u8], number: u64) -> Result<(), OutOfMemory>
    ensures { OnOk result (text.new ≡ text.old ++ (word.now ++ (decimal number ++ codes "\n"))) }
{
    let mut digits = Buffer::new();
    text.extend(word)?;
    text.extend(digits.format(number).as_bytes())?;
    text.extend(b"\n")?;
    Ok(())
}

/// Puts the line of the tick. An error says that memory is short.
pub fn put_tick(text: &mut Text, tick: u64) -> Result<(), OutOfMemory>
    ensures { OnOk result (text.new ≡ text.old ++ (codes "tick " ++ (decimal tick ++ codes "\n"))) }
{
    put_number(text, b"tick ", tick)
}

/// Puts the line of an event, which is written over the line before.
fn put_event(
    text: &mut Text,
    line: &mut LineBuffer,
    names: &ImageNames,
    event: &Event,
) -> Result<(), OutOfMemory>
    requires { AreIn names.now event.now }
    ensures { OnOk result (text.new ≡ text.old ++ line_of names.now event.now) }
{
    write_line(line, names, event);
    text.extend(line.as_slice())
}

/// Puts the lines of events.
fn put_log(text: &mut Text, names: &ImageNames, events: &[Event]) -> Result<(), OutOfMemory>
    requires { All (AreIn names.now) events.now }
    ensures { OnOk result (text.new ≡ text.old ++ log_of names.now events.now) }
{
    let mut line = LineBuffer::new();
    for event in events {
        put_event(text, &mut line, names, event)?;
    }
    Ok(())
}

/// Puts how many events there are, and their lines. An error says that memory is short.
pub fn put_recent(text: &mut Text, names: &ImageNames, events: &[Event]) -> Result<(), OutOfMemory>
    requires { All (AreIn names.now) events.now }
    ensures { OnOk result (text.new ≡ text.old ++ recent_text names.now events.now) }
{
    put_number(text, b"last ", events.len() as u64)?;
    put_log(text, names, events)
}
