//! The lines that refusals put: of a text, of an image or its text, of a script, of a log; and those
//! of verdicts.
//!
//! `command_due` says which line is that of which fault. The calls promise exactly these lines.
//!
//! Lines.

ghost use Rattle.std.specs.Prelude.{◌≡◌, ◌++◌, codes, decimal, IfOk, OnOk};
ghost use Rattle.command_due.specs.AsmDue as asm;
ghost use Rattle.command_due.specs.CommandsDue as due;
ghost use Rattle.command_due.specs.Script as script;
ghost use Rattle.command_due.specs.Source as source;
ghost use Rattle.command_due.specs.ReplayDue as replay;
ghost use Rattle.script.specs.declared.fault.ScriptFault.TheVariants as bad;

use event_log::LogFault;
use itoa::Buffer;
use out_of_memory::OutOfMemory;
use script::{ScriptFault, refusal};
use std::alloc::Global;
use syntax_tree::{Place, Text};

/// Puts some words and a number at the end of a text.
fn add_number(text: &mut Text, words: &str, number: u64) -> Result<(), OutOfMemory>
    ensures { OnOk result (text.new ≡ text.old ++ (words.now ++ decimal number)) }
{
    let mut buffer = Buffer::new();
    text.extend(words.as_bytes())?;
    text.extend(buffer.format(number).as_bytes())
}

/// The line of a fault of a text: its number, and the line and the byte of that line where it
/// stands.
pub fn fault_line(alloc: Global, number: u8, place: Place) -> Result<Text, OutOfMemory>
    ensures { IfOk result (λ text. text ≡ source.fault_line number place) }
{
    let mut text = Text::new(alloc);
    add_number(&mut text, "E", u64::from(number))?;
    add_number(&mut text, " ", u64::from(place.line))?;
    add_number(&mut text, ":", u64::from(place.col))?;
    text.extend(b"\n")?;
    Ok(text)
}

/// The line of a fault of bytes that are no image: its number, and the place from 0 on.
pub fn image_fault_line(alloc: Global, number: u8, offset: u32) -> Result<Text, OutOfMemory>
    ensures { IfOk result (λ text. text ≡ due.image_fault_line number offset) }
{
    let mut text = Text::new(alloc);
    add_number(&mut text, "I", u64::from(number))?;
    add_number(&mut text, " ", u64::from(offset))?;
    text.extend(b"\n")?;
    Ok(text)
}

/// The line of a fault of a text that is that of no image: its number, and the line from 1 on, or 0.
pub fn text_fault_line(alloc: Global, number: u8, line: u32) -> Result<Text, OutOfMemory>
    ensures { IfOk result (λ text. text ≡ asm.text_fault_line number line) }
{
    let mut text = Text::new(alloc);
    add_number(&mut text, "A", u64::from(number))?;
    add_number(&mut text, " ", u64::from(line))?;
    text.extend(b"\n")?;
    Ok(text)
}

/// The line of a fault of validity: its number, and the two numbers that it shows.
pub fn valid_fault_line(alloc: Global, number: u8, a: u64, b: u64) -> Result<Text, OutOfMemory>
    ensures { IfOk result (λ text. text ≡ due.valid_fault_line
        (record { number = number; a = a; b = b })) }
{
    let mut text = Text::new(alloc);
    add_number(&mut text, "V", u64::from(number))?;
    add_number(&mut text, " ", a)?;
    add_number(&mut text, " ", b)?;
    text.extend(b"\n")?;
    Ok(text)
}

/// Puts the two ticks of a script's fault that has some at the end of a text.
fn add_ticks(text: &mut Text, number: u8, a: u64, b: u64) -> Result<(), OutOfMemory>
    ensures { OnOk result (text.new ≡ text.old ++ script.ticks_line number a b) }
{
    if number != refusal::SOON {
        return Ok(());
    }
    add_number(text, " ", a)?;
    add_number(text, " ", b)
}

/// The line of a script's fault on this line of its text.
fn bad_line(alloc: Global, number: u8, line: u32, a: u64, b: u64) -> Result<Text, OutOfMemory>
    ensures { IfOk result (λ text. text ≡ script.script_fault_line (bad.Bad number line a b)) }
{
    let mut text = Text::new(alloc);
    add_number(&mut text, "S", u64::from(number))?;
    add_number(&mut text, " ", u64::from(line))?;
    add_ticks(&mut text, number, a, b)?;
    text.extend(b"\n")?;
    Ok(text)
}

/// The line of a fault of a script; nothing for want of memory.
pub fn script_fault_line(alloc: Global, fault: &ScriptFault) -> Result<Text, OutOfMemory>
    ensures { IfOk result (λ text. text ≡ script.script_fault_line fault.now) }
{
    match fault {
        ScriptFault::Bad { number, line, a, b } => bad_line(alloc, *number, *line, *a, *b),
        ScriptFault::Memory(_) => Ok(Text::new(alloc)),
    }
}

/// A line of these words and a number.
fn numbered_line(alloc: Global, words: &str, number: u64) -> Result<Text, OutOfMemory>
    ensures { IfOk result (λ text. text ≡ words.now ++ (decimal number ++ codes "\n")) }
{
    let mut text = Text::new(alloc);
    add_number(&mut text, words, number)?;
    text.extend(b"\n")?;
    Ok(text)
}

/// The line of a fault of a log; nothing for want of memory.
pub fn log_fault_line(alloc: Global, fault: &LogFault) -> Result<Text, OutOfMemory>
    ensures { IfOk result (λ text. text ≡ replay.log_fault_line fault.now) }
{
    match fault {
        LogFault::Line(line) => numbered_line(alloc, "L1 ", u64::from(*line)),
        LogFault::Long => Text::from_bytes(alloc, b"L2 0\n"),
        LogFault::Memory(_) => Ok(Text::new(alloc)),
    }
}

/// The line for a log whose event on this line is refused, the first line being 1.
pub fn refused_line(alloc: Global, line: u32) -> Result<Text, OutOfMemory>
    ensures { IfOk result (λ text. text ≡ replay.refused_line line) }
{
    numbered_line(alloc, "L3 ", u64::from(line))
}

/// The line for a log of so many events that is that of a run.
pub fn run_line(alloc: Global, count: u64) -> Result<Text, OutOfMemory>
    ensures { IfOk result (λ text. text ≡ replay.run_line count) }
{
    numbered_line(alloc, "run ", count)
}
