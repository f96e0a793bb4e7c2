//! The message.

ghost use Rattle.std.specs.Prelude.{◌≡◌, ◌++◌, IfOk, OnOk, codes, decimal};
ghost use Rattle.message_script.specs.Message.{end_sentence, fault_message, long_message, no_form};
ghost use Rattle.message_script.specs.Message.{no_name, of_line, or_line, remarked, script_message};
ghost use Rattle.message_script.specs.Message.{shown_line, spelled, told, too_low, too_many, too_soon};

use crate::earlier::{early, soon};
use crate::forms::line_flaw;
use crate::telling::{Note, Told, at_byte, remark};
use crate::unknown::unknown;
use image::ImageNames;
use message_text::{add_head, add_note, add_number, add_plain, add_show, is_ended, line};
use out_of_memory::OutOfMemory;
use script::{ScriptFault, refusal};
use std::alloc::Global;
use syntax_tree::Text;

/// How many bytes a script has at most.
const LONGEST: usize = 16_777_216;

/// That a line follows the end, or that there is no end.
#[tactic(auto, unfolding(crate::specs::Message::end_sentence))]
fn end_sentence(is_ended: bool) -> &'static [u8]
    ensures { result.now ≡ end_sentence is_ended }
{
    if is_ended {
        b"a line behind the `end` line"
    } else {
        b"the last line, `end H`, is missing"
    }
}

/// Tells something of a whole line.
#[tactic(auto, unfolding(crate::specs::Message::of_line))]
fn of_line(alloc: Global, line: &[u8], sentence: &[u8]) -> Result<Told, OutOfMemory>
    ensures { IfOk result (λ told. told ≡ of_line line.now sentence.now) }
{
    Ok(Told {
        column: 1,
        width: line.len().max(1),
        sentence: Text::from_bytes(alloc, sentence)?,
        earlier: None,
        note: None,
    })
}

/// Tells that a line is one too many.
#[tactic(auto, unfolding(crate::specs::Message::too_many))]
fn too_many(alloc: Global) -> Result<Told, OutOfMemory>
    ensures { IfOk result (λ told. told ≡ too_many) }
{
    at_byte(alloc, 1, b"line 1000001; 1000000 lines are the most", None)
}

/// What the table of a fault tells, else a sentence of the whole line.
fn or_line(
    alloc: Global,
    row: Option<Told>,
    line: &[u8],
    sentence: &[u8],
) -> Result<Told, OutOfMemory>
    ensures { IfOk result (λ told. told ≡ or_line row line.now sentence.now) }
{
    match row {
        None => of_line(alloc, line, sentence),
        Some(told) => Ok(told),
    }
}

/// Tells of a line in no form.
fn no_form(alloc: Global, line: &[u8], is_ended: bool) -> Result<Told, OutOfMemory>
    ensures { IfOk result (λ told. told ≡ no_form line.now is_ended) }
{
    let row = line_flaw(alloc, line, is_ended)?;
    or_line(alloc, row, line, b"the line has no form of a script")
}

/// Tells of a line with a name that is not known.
fn no_name(alloc: Global, names: &ImageNames, line: &[u8]) -> Result<Told, OutOfMemory>
    ensures { IfOk result (λ told. told ≡ no_name names.now line.now) }
{
    let row = unknown(alloc, names, line)?;
    or_line(alloc, row, line, b"a name that is not known")
}

/// Tells of the line of this number, whose tick is too low.
fn too_low(alloc: Global, text: &[u8], number: usize, line: &[u8]) -> Result<Told, OutOfMemory>
    ensures { IfOk result (λ told. told ≡ too_low text.now number line.now) }
{
    let row = early(alloc, text, number)?;
    or_line(alloc, row, line, b"the tick is too low")
}

/// Tells of the line of this number, whose event comes so many ticks after its last occurrence.
fn too_soon(
    alloc: Global,
    names: &ImageNames,
    text: &[u8],
    number: usize,
    ticks: usize,
    line: &[u8],
) -> Result<Told, OutOfMemory>
    ensures { IfOk result (λ told. told ≡ too_soon names.now text.now number ticks line.now) }
{
    let row = soon(alloc, names, text, number, ticks)?;
    or_line(alloc, row, line, b"the event comes too soon")
}

/// What is told of a line, by the fault's number and how many ticks lie between its two.
#[tactic(auto, unfolding(crate::specs::Message::told))]
fn told(
    alloc: Global,
    names: &ImageNames,
    text: &[u8],
    number: u8,
    at: usize,
    ticks: usize,
) -> Result<Told, OutOfMemory>
    ensures { IfOk result (λ found. found ≡ told names.now text.now number at ticks) }
{
    let line = line(text, at);
    match number {
        refusal::FORM => no_form(alloc, line, is_ended(text, at)),
        refusal::UNKNOWN => no_name(alloc, names, line),
        refusal::EARLY => too_low(alloc, text, at, line),
        refusal::SOON => too_soon(alloc, names, text, at, ticks, line),
        refusal::END => of_line(alloc, line, end_sentence(is_ended(text, at))),
        _ => too_many(alloc),
    }
}

/// Puts an earlier line, if there is one.
fn add_earlier(message: &mut Text, text: &[u8], earlier: Option<usize>) -> Result<(), OutOfMemory>
    ensures { OnOk result (message.new ≡ message.old ++ shown_line text.now earlier) }
{
    match earlier {
        None => Ok(()),
        Some(earlier) => add_show(message, text, earlier, 1, 0),
    }
}

/// Puts a remark, if there is one.
fn add_remark(message: &mut Text, note: Option<Note>) -> Result<(), OutOfMemory>
    ensures { OnOk result (message.new ≡ message.old ++ remarked note) }
{
    match note {
        None => Ok(()),
        Some(it) => add_note(message, &[remark(it)]),
    }
}

/// The code of a fault.
fn code(alloc: Global, number: u8) -> Result<Text, OutOfMemory>
    ensures { IfOk result (λ text. text ≡ codes "S" ++ decimal number) }
{
    let mut text = Text::from_bytes(alloc, b"S")?;
    add_number(&mut text, number as usize)?;
    Ok(text)
}

/// The head of a message, its line, an earlier line and a remark.
#[tactic(auto, unfolding(crate::specs::Message::spelled))]
fn spelled(
    alloc: Global,
    file: &[u8],
    text: &[u8],
    number: u8,
    at: usize,
    told: &Told,
) -> Result<Text, OutOfMemory>
    ensures { IfOk result (λ message. message ≡ spelled file.now text.now number at told.now) }
{
    let code = code(alloc, number)?;
    let sentence = told.sentence.as_bytes();
    let mut message = Text::new(alloc);
    add_head(
        &mut message,
        file,
        at,
        told.column,
        code.as_bytes(),
        &[sentence],
    )?;
    add_show(&mut message, text, at, told.column, told.width)?;
    add_earlier(&mut message, text, told.earlier)?;
    add_remark(&mut message, told.note)?;
    Ok(message)
}

/// The message of a fault of a text that is not too long.
#[tactic(auto, unfolding(crate::specs::Message::fault_message))]
fn fault_message(
    alloc: Global,
    file: &[u8],
    text: &[u8],
    names: &ImageNames,
    fault: &ScriptFault,
) -> Result<Text, OutOfMemory>
    ensures { IfOk result (λ message. message ≡
        fault_message file.now text.now names.now fault.now) }
{
    match fault {
        ScriptFault::Memory(_) => Ok(Text::new(alloc)),
        ScriptFault::Bad { number, line, a, b } => {
            let ticks = b.saturating_sub(*a) as usize;
            let told = told(alloc, names, text, *number, *line as usize, ticks)?;
            spelled(alloc, file, text, *number, *line as usize, &told)
        }
    }
}

/// The message for a script with too many bytes, by the name of its file as the call has it.
#[tactic(auto, unfolding(crate::specs::Message::long_message))]
pub fn long_message(alloc: Global, file: &str) -> Result<Text, OutOfMemory>
    ensures { IfOk result (λ message. message ≡ long_message file.now) }
{
    let mut text = Text::new(alloc);
    add_plain(&mut text, file.as_bytes())?;
    text.extend(b": S6: the script has more than 16777216 bytes\n")?;
    Ok(text)
}

/// The message for a text that is no script for these names, by its fault and the name of its file
/// as the call has it: the place and what is wrong, the line with carets below the place, for some
/// faults an earlier line, and a remark. Empty where the fault is want of memory; for a text with
/// too many bytes the message is `long_message`, whatever the fault.
#[tactic(auto, unfolding(crate::specs::Message::script_message))]
pub fn script_message(
    alloc: Global,
    file: &str,
    text: &[u8],
    names: &ImageNames,
    fault: &ScriptFault,
) -> Result<Text, OutOfMemory>
    ensures { IfOk result (λ message. message ≡
        script_message file.now text.now names.now fault.now) }
{
    if text.len() > LONGEST {
        return long_message(alloc, file);
    }
    fault_message(alloc, file.as_bytes(), text, names, fault)
}
