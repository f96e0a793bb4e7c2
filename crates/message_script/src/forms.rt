//! Lines that are in no form.

ghost use Rattle.std.specs.Prelude.{◌≡◌, ◌≤◌, ◌<◌, ◌==◌, length, not, option_map, IfOk, IfSome};
ghost use Rattle.std.specs.List.{list_any};
ghost use Rattle.text_fields.specs.LineFields.{is_digit};
ghost use Rattle.message_script.specs.Forms.{are_blanks, behind_blanks, behind_end, behind_event};
ghost use Rattle.message_script.specs.Forms.{behind_set, behind_tick, blanks_before, blanks_flaw};
ghost use Rattle.message_script.specs.Forms.{carriage_return, ends_in_blank, is_comment, line_flaw};
ghost use Rattle.message_script.specs.Forms.{missing, no_beginning, number};
ghost use Rattle.message_script.specs.Forms.{bytes_flaw, surplus, timed_flaw, words_flaw};
ghost use Rattle.message_script.specs.Words.{seen};

use crate::numbers::{Sort, flaw_sentence, number_flaw};
use crate::telling::{Note, Told, at_byte, at_word, behind, of_word};
use crate::words::{Word, begins, first_word, is_end, word_at};
use message_text::return_place;
use out_of_memory::OutOfMemory;
use std::alloc::Global;
use text_fields::is_digit;

/// Tells of the first CR of a line.
#[tactic(auto, unfolding(crate::specs::Forms::carriage_return))]
fn carriage_return(alloc: Global, line: &[u8]) -> Result<Option<Told>, OutOfMemory>
    ensures { IfOk result (λ told. told ≡ carriage_return line.now) }
{
    match return_place(line) {
        None => Ok(None),
        Some(place) => {
            let note = Some(Note::LineFeedAlone);
            Ok(Some(at_byte(alloc, place + 1, b"a carriage return", note)?))
        }
    }
}

/// Whether both are blanks.
#[tactic(auto, unfolding(crate::specs::Forms::are_blanks))]
fn are_blanks(byte: u8, next: u8) -> bool
    ensures { result ≡ are_blanks byte next }
{
    byte == b' ' && next == b' '
}

/// What stands behind the first two blanks that are side by side.
fn behind_blanks(line: &[u8]) -> Option<&[u8]>
    ensures value { option_map (λ more. more.now) result ≡ behind_blanks line.now }
    ensures within { IfSome result (λ more. length more.now ≤ length line.now) }
{
    for at in 1..line.len() {
        if are_blanks(line[at - 1], line[at]) {
            return Some(&line[at + 1..]);
        }
    }
    None
}

/// Whether a word stands there.
fn has_word(bytes: &[u8]) -> bool
    ensures { result ≡ list_any (λ b. not (b == 32)) bytes.now }
{
    bytes.iter().any(|byte| *byte != b' ')
}

/// Tells of the second of two blanks that stand before another word.
fn two_blanks(alloc: Global, line: &[u8]) -> Result<Option<Told>, OutOfMemory>
    ensures { IfOk result (λ told. told ≡ blanks_before line.now (behind_blanks line.now)) }
{
    match behind_blanks(line) {
        None => Ok(None),
        Some(more) => {
            if !has_word(more) {
                return Ok(None);
            }
            let column = line.len() - more.len();
            Ok(Some(at_byte(alloc, column, b"two blanks", Some(Note::OneBlank))?))
        }
    }
}

/// Whether the last byte is a blank.
#[tactic(auto, unfolding(crate::specs::Forms::ends_in_blank))]
fn ends_in_blank(line: &[u8]) -> bool
    ensures { result ≡ ends_in_blank line.now }
{
    match line {
        [] => false,
        [.., last] => *last == b' ',
    }
}

/// Tells of the blanks of a line.
#[tactic(auto, unfolding(crate::specs::Forms::blanks_flaw))]
fn blanks_flaw(alloc: Global, line: &[u8]) -> Result<Option<Told>, OutOfMemory>
    ensures { IfOk result (λ told. told ≡ blanks_flaw line.now) }
{
    if begins(b' ', line) {
        return Ok(Some(at_byte(alloc, 1, b"a blank at the start", None)?));
    }
    if let Some(told) = two_blanks(alloc, line)? {
        return Ok(Some(told));
    }
    if ends_in_blank(line) {
        return Ok(Some(at_byte(alloc, line.len(), b"a blank at the end", None)?));
    }
    Ok(None)
}

/// Tells of a word that a form does not have.
#[tactic(auto, unfolding(crate::specs::Forms::surplus))]
fn surplus(alloc: Global, word: Option<Word<'_>>, form: Note) -> Result<Option<Told>, OutOfMemory>
    ensures { IfOk result (λ told. told ≡ surplus (option_map seen word.entry) form) }
{
    match word {
        None => Ok(None),
        Some(word) => Ok(Some(of_word(alloc, word, b" is one word too many", Some(form))?)),
    }
}

/// Tells that a word is missing behind a line.
#[tactic(auto, unfolding(crate::specs::Forms::missing))]
fn missing(alloc: Global, line: &[u8], form: Note) -> Result<Option<Told>, OutOfMemory>
    ensures { IfOk result (λ told. told ≡ missing line.now form) }
{
    Ok(Some(behind(alloc, line, b"a word is missing", Some(form))?))
}

/// Tells of a number.
#[tactic(auto, unfolding(crate::specs::Forms::number))]
fn number(alloc: Global, sort: Sort, word: Word<'_>) -> Result<Option<Told>, OutOfMemory>
    ensures { IfOk result (λ told. told ≡ number sort (seen word.entry)) }
{
    match number_flaw(sort, word.bytes) {
        None => Ok(None),
        Some(flaw) => {
            let sentence = flaw_sentence(alloc, sort, word.bytes, flaw)?;
            Ok(Some(at_word(word, sentence, None)))
        }
    }
}

/// Tells of what stands behind `end`.
#[tactic(auto, unfolding(crate::specs::Forms::behind_end))]
fn behind_end(
    alloc: Global,
    line: &[u8],
    tick: Option<Word<'_>>,
    more: Option<Word<'_>>,
) -> Result<Option<Told>, OutOfMemory>
    ensures { IfOk result (λ told. told ≡
        behind_end line.now (option_map seen tick.entry) (option_map seen more.entry)) }
{
    match tick {
        None => missing(alloc, line, Note::EndForm),
        Some(tick) => {
            if let Some(told) = number(alloc, Sort::End, tick)? {
                return Ok(Some(told));
            }
            surplus(alloc, more, Note::EndForm)
        }
    }
}

/// Tells of what stands behind `set`.
#[tactic(auto, unfolding(crate::specs::Forms::behind_set))]
fn behind_set(
    alloc: Global,
    line: &[u8],
    value: Option<Word<'_>>,
    more: Option<Word<'_>>,
) -> Result<Option<Told>, OutOfMemory>
    ensures { IfOk result (λ told. told ≡
        behind_set line.now (option_map seen value.entry) (option_map seen more.entry)) }
{
    match value {
        None => missing(alloc, line, Note::SetForm),
        Some(value) => {
            if let Some(told) = number(alloc, Sort::Value, value)? {
                return Ok(Some(told));
            }
            surplus(alloc, more, Note::SetForm)
        }
    }
}

/// Tells of what stands behind `event`.
#[tactic(auto, unfolding(crate::specs::Forms::behind_event))]
fn behind_event(
    alloc: Global,
    line: &[u8],
    name: Option<Word<'_>>,
    more: Option<Word<'_>>,
) -> Result<Option<Told>, OutOfMemory>
    ensures { IfOk result (λ told. told ≡
        behind_event line.now (option_map seen name.entry) (option_map seen more.entry)) }
{
    match name {
        None => missing(alloc, line, Note::EventForm),
        Some(_) => surplus(alloc, more, Note::EventForm),
    }
}

/// Tells of what stands behind a tick.
#[tactic(auto, unfolding(crate::specs::Forms::behind_tick))]
fn behind_tick(
    alloc: Global,
    line: &[u8],
    command: Option<Word<'_>>,
) -> Result<Option<Told>, OutOfMemory>
    ensures { IfOk result (λ told. told ≡ behind_tick line.now (option_map seen command.entry)) }
{
    match command {
        None => missing(alloc, line, Note::Forms),
        Some(command) => {
            if command.bytes == b"set".as_slice() {
                return behind_set(alloc, line, word_at(line, 3), word_at(line, 4));
            }
            if command.bytes == b"event".as_slice() {
                return behind_event(alloc, line, word_at(line, 2), word_at(line, 3));
            }
            let wrong = b" is neither `set` nor `event`";
            Ok(Some(of_word(alloc, command, wrong, Some(Note::Forms))?))
        }
    }
}

/// Whether a word begins like a comment elsewhere.
fn is_comment(word: &[u8]) -> bool
    ensures { result ≡ is_comment word.now }
{
    begins(b'%', word) || begins(b'#', word) || begins(b'/', word)
}

/// Whether a byte is a digit.
fn has_digit(word: &[u8]) -> bool
    ensures { result ≡ list_any is_digit word.now }
{
    word.iter().any(|byte| is_digit(*byte))
}

/// Tells of a first word without a digit.
#[tactic(auto, unfolding(crate::specs::Forms::no_beginning))]
fn no_beginning(alloc: Global, word: Word<'_>) -> Result<Option<Told>, OutOfMemory>
    ensures { IfOk result (λ told. told ≡ no_beginning (seen word.entry)) }
{
    if has_digit(word.bytes) {
        return Ok(None);
    }
    let note = if is_comment(word.bytes) {
        Note::NoComments
    } else {
        Note::Forms
    };
    Ok(Some(of_word(alloc, word, b" begins no line", Some(note))?))
}

/// Tells of a line that begins with a tick, or is to.
#[tactic(auto, unfolding(crate::specs::Forms::timed_flaw))]
fn timed_flaw(alloc: Global, line: &[u8]) -> Result<Option<Told>, OutOfMemory>
    ensures { IfOk result (λ told. told ≡ timed_flaw line.now) }
{
    let first = first_word(line);
    if let Some(told) = no_beginning(alloc, first)? {
        return Ok(Some(told));
    }
    if let Some(told) = number(alloc, Sort::Tick, first)? {
        return Ok(Some(told));
    }
    behind_tick(alloc, line, word_at(line, 1))
}

/// Tells of the words of a line.
#[tactic(auto, unfolding(crate::specs::Forms::words_flaw))]
fn words_flaw(alloc: Global, line: &[u8]) -> Result<Option<Told>, OutOfMemory>
    ensures { IfOk result (λ told. told ≡ words_flaw line.now) }
{
    if is_end(line) {
        return behind_end(alloc, line, word_at(line, 1), word_at(line, 2));
    }
    timed_flaw(alloc, line)
}

/// Tells of bytes that stand in no line.
#[tactic(auto, unfolding(crate::specs::Forms::bytes_flaw))]
fn bytes_flaw(alloc: Global, line: &[u8], is_ended: bool) -> Result<Option<Told>, OutOfMemory>
    ensures { IfOk result (λ told. told ≡ bytes_flaw line.now is_ended) }
{
    if !is_ended {
        let sentence = b"the last line has no line feed";
        return Ok(Some(behind(alloc, line, sentence, Some(Note::EndTheLine))?));
    }
    if let Some(told) = carriage_return(alloc, line)? {
        return Ok(Some(told));
    }
    if line.is_empty() {
        return Ok(Some(at_byte(alloc, 1, b"an empty line", Some(Note::Forms))?));
    }
    blanks_flaw(alloc, line)
}

/// Tells what is wrong with a line by itself; the first that applies.
#[tactic(auto, unfolding(crate::specs::Forms::line_flaw))]
pub(crate) fn line_flaw(
    alloc: Global,
    line: &[u8],
    is_ended: bool,
) -> Result<Option<Told>, OutOfMemory>
    ensures { IfOk result (λ told. told ≡ line_flaw line.now is_ended) }
{
    if let Some(told) = bytes_flaw(alloc, line, is_ended)? {
        return Ok(Some(told));
    }
    words_flaw(alloc, line)
}
