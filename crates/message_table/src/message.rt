//! The message for a text that is no task table.

ghost use Rattle.std.specs.Prelude.{◌≡◌, ◌++◌, IfOk, OnOk, codes, decimal, option_map, unwrap_or};
ghost use Rattle.message_table.specs.Counts.{count_found as count_in};
ghost use Rattle.message_table.specs.Found.{unknown as unknown_fault};
ghost use Rattle.message_table.specs.Marks.{marks as marks_of, marks_to as marks_of_lines};
ghost use Rattle.message_table.specs.Message.{code_of, earlier, found_by as found_in};
ghost use Rattle.message_table.specs.Message.{long_message, note_of, shown, table_message, told};
ghost use Rattle.message_table.specs.Message.{told_at, word_at as word_in};
ghost use Rattle.message_table.specs.Names.{name_found as name_in, taken_found as taken_in};
ghost use Rattle.message_table.specs.Sentences.{remark as remark_of, sentence};
ghost use Rattle.message_table.specs.Ticks.{range_found as range_in, unmet_found as unmet_in};
ghost use Rattle.message_text.specs.Shown.{show};
ghost use Rattle.message_text.specs.Words.{head};

use crate::counts::count_found;
use crate::fault::{Fault, Found, NameFault};
use crate::form::form_found;
use crate::mark::{marks, marks_to};
use crate::names::{name_found, taken_found};
use crate::remarks::remark;
use crate::sentences::add_sentence;
use crate::ticks::{range_found, unmet_found};
use message_text::{add_head, add_note, add_number, add_plain, add_show, line};
use out_of_memory::OutOfMemory;
use std::alloc::Global;
use syntax_tree::Text;

/// The most bytes of a table.
const LONGEST: usize = 1_048_576;

/// The text of a message, and what it is about.
#[derive(Clone, Copy)]
struct Place<'a> {
    file: &'a [u8],
    source: &'a [u8],
    line: usize,
}

/// What was found; a fault that is not known where nothing was.
fn known(found: Option<Found>) -> Found
    ensures { result ≡ unwrap_or found unknown_fault }
{
    match found {
        Some(found) => found,
        None => Found {
            column: 1,
            width: 0,
            fault: Fault::Unknown,
        },
    }
}

/// The first word of a line that is no name.
fn name_of_line(alloc: Global, text: &[u8], line: usize) -> Result<Found, OutOfMemory>
    ensures { IfOk result (λ found.
        found ≡ unwrap_or (name_in (marks_of text.now line)) unknown_fault) }
{
    let marks = marks(alloc, text, line)?;
    Ok(known(name_found(marks.as_slice())))
}

/// The first name of these lines that is taken.
fn taken_of_lines(alloc: Global, text: &[u8], line: usize) -> Result<Found, OutOfMemory>
    ensures { IfOk result (λ found.
        found ≡ unwrap_or (taken_in (marks_of_lines text.now line)) unknown_fault) }
{
    let marks = marks_to(alloc, text, line)?;
    let found = taken_found(alloc, marks.as_slice())?;
    Ok(known(found))
}

/// The first ticks of a line outside their range.
fn range_of_line(alloc: Global, text: &[u8], line: usize) -> Result<Found, OutOfMemory>
    ensures { IfOk result (λ found.
        found ≡ unwrap_or (range_in (marks_of text.now line)) unknown_fault) }
{
    let marks = marks(alloc, text, line)?;
    Ok(known(range_found(marks.as_slice())))
}

/// The stay or the cost of a line that cannot be met.
fn unmet_of_line(alloc: Global, text: &[u8], line: usize) -> Result<Found, OutOfMemory>
    ensures { IfOk result (λ found.
        found ≡ unwrap_or (unmet_in (marks_of text.now line)) unknown_fault) }
{
    let marks = marks(alloc, text, line)?;
    Ok(known(unmet_found(marks.as_slice())))
}

/// The first word of these lines that is too much.
fn count_of_lines(alloc: Global, text: &[u8], line: usize) -> Result<Found, OutOfMemory>
    ensures { IfOk result (λ found.
        found ≡ unwrap_or (count_in (marks_of_lines text.now line)) unknown_fault) }
{
    let marks = marks_to(alloc, text, line)?;
    let found = count_found(alloc, marks.as_slice())?;
    Ok(known(found))
}

/// What is wrong with the line of a fault, by the number of the fault.
fn found_by(alloc: Global, text: &[u8], number: u8, line: usize) -> Result<Found, OutOfMemory>
    ensures { IfOk result (λ found. found ≡ found_in text.now number line) }
{
    match number {
        1 => form_found(alloc, text, line),
        2 => name_of_line(alloc, text, line),
        3 => taken_of_lines(alloc, text, line),
        4 => range_of_line(alloc, text, line),
        5 => unmet_of_line(alloc, text, line),
        6 => count_of_lines(alloc, text, line),
        _ => Ok(known(None)),
    }
}

/// The word at a place of a line.
fn word_at(bytes: &[u8], column: usize, width: usize) -> &[u8]
    ensures { result.now ≡ word_in bytes.now column width }
{
    let from = column.saturating_sub(1).min(bytes.len());
    let behind = &bytes[from..];
    &behind[..width.min(behind.len())]
}

/// The code of a fault.
fn code_of(alloc: Global, number: u8) -> Result<Text, OutOfMemory>
    ensures { IfOk result (λ code. code ≡ code_of number) }
{
    let mut code = Text::from_bytes(alloc, b"T")?;
    add_number(&mut code, usize::from(number))?;
    Ok(code)
}

/// Puts the line that has a taken name first.
fn add_earlier(text: &mut Text, source: &[u8], fault: Fault) -> Result<(), OutOfMemory>
    ensures { OnOk result (text.new ≡ text.old ++ earlier source.now fault) }
{
    match fault {
        Fault::Name {
            fault: NameFault::Taken { line, .. },
        } => add_show(text, source, line, 1, 0),
        _ => Ok(()),
    }
}

/// Puts a note, if there is one.
fn add_remark(text: &mut Text, remark: Option<&'static [u8]>) -> Result<(), OutOfMemory>
    ensures { OnOk result
        (text.new ≡ text.old ++ note_of (option_map (λ remark. remark.now) remark.entry)) }
{
    match remark {
        None => Ok(()),
        Some(sentence) => add_note(text, &[sentence]),
    }
}

/// Puts the first line of the message.
fn add_first(
    text: &mut Text,
    place: &Place<'_>,
    found: Found,
    code: &[u8],
    sentence: &[u8],
) -> Result<(), OutOfMemory>
    ensures { OnOk result (text.new ≡ text.old ++
        head place.now.file.now place.now.line found.column code.now sentence.now) }
{
    add_head(
        text,
        place.file,
        place.line,
        found.column,
        code,
        &[sentence],
    )
}

/// Puts what is shown behind the first line of the message.
fn add_shown(
    text: &mut Text,
    place: &Place<'_>,
    found: Found,
    word: &[u8],
) -> Result<(), OutOfMemory>
    ensures { OnOk result (text.new ≡ text.old ++
        shown place.now.source.now place.now.line found word.now) }
{
    add_show(text, place.source, place.line, found.column, found.width)?;
    add_earlier(text, place.source, found.fault)?;
    add_remark(text, remark(found.fault, place.line, word))
}

/// Tells what is wrong at a word.
fn tell_at(
    alloc: Global,
    place: &Place<'_>,
    number: u8,
    found: Found,
    word: &[u8],
) -> Result<Text, OutOfMemory>
    ensures { IfOk result (λ text. text ≡
        told_at place.now.file.now place.now.source.now number place.now.line found word.now) }
{
    let code = code_of(alloc, number)?;
    let mut sentence = Text::new(alloc);
    add_sentence(&mut sentence, found.fault, word)?;
    let mut text = Text::new(alloc);
    add_first(
        &mut text,
        place,
        found,
        code.as_bytes(),
        sentence.as_bytes(),
    )?;
    add_shown(&mut text, place, found, word)?;
    Ok(text)
}

/// Tells what is wrong with a line.
fn tell(alloc: Global, place: &Place<'_>, number: u8, found: Found) -> Result<Text, OutOfMemory>
    ensures { IfOk result (λ text. text ≡
        told place.now.file.now place.now.source.now number place.now.line found) }
{
    let bytes = line(place.source, place.line);
    let word = word_at(bytes, found.column, found.width);
    tell_at(alloc, place, number, found, word)
}

/// The message for a table of too many bytes.
#[tactic(auto, unfolding(crate::specs::Message::long_message))]
pub fn long_message(alloc: Global, file: &str) -> Result<Text, OutOfMemory>
    ensures { IfOk result (λ message. message ≡ long_message file.now) }
{
    let mut text = Text::new(alloc);
    add_plain(&mut text, file.as_bytes())?;
    text.extend(b": T7: the table has more than 1048576 bytes\n")?;
    Ok(text)
}

/// The message for a text that is no task table, for the fault of this number on this line, from 1:
/// the place, what is wrong there, the line with carets below it, and what may mend it.
#[tactic(auto, unfolding(crate::specs::Message::table_message))]
pub fn table_message(
    alloc: Global,
    file: &str,
    text: &[u8],
    number: u8,
    line: u32,
) -> Result<Text, OutOfMemory>
    ensures { IfOk result (λ message. message ≡ table_message file.now text.now number line) }
{
    if text.len() > LONGEST {
        return long_message(alloc, file);
    }
    let found = found_by(alloc, text, number, line as usize)?;
    let place = Place {
        file: file.as_bytes(),
        source: text,
        line: line as usize,
    };
    tell(alloc, &place, number, found)
}
