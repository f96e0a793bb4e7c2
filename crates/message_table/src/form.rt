//! Why a line has no form that may stand there.

ghost use Rattle.std.specs.Prelude.{◌≡◌, ◌==◌, ◌<◌, IfOk, IfSome, find, length, map};
ghost use Rattle.std.specs.Prelude.{option_map, position};
ghost use Rattle.std.specs.List.{list_all};
ghost use Rattle.message_table.specs.Form.{blank as blank_of, blank_found as blank_in};
ghost use Rattle.message_table.specs.Form.{bytes_found as bytes_in, ended as ended_in};
ghost use Rattle.message_table.specs.Form.{form_found as form_in, is_behind_end as end_test};
ghost use Rattle.message_table.specs.Form.{is_empty as empty_test, is_misplaced as misplaced_test};
ghost use Rattle.message_table.specs.Form.{line_found as line_in};
ghost use Rattle.message_table.specs.Form.{misplaced as misplaced_at, missing as missing_behind};
ghost use Rattle.message_table.specs.Form.{return_found as return_in, spaced_found as spaced_in};
ghost use Rattle.message_table.specs.Form.{unended as unended_in, word_found as word_in};
ghost use Rattle.message_table.specs.Found.{form as found_form};
ghost use Rattle.message_table.specs.Seen.{mark_of};

use crate::fault::{Fault, FormFault, Found};
use crate::mark::{Marked, add_marks};
use crate::numerals::{begins_with, numeral_fault};
use crate::part::{Role, Wanted};
use message_text::{is_ended, line, return_place};
use out_of_memory::OutOfMemory;
use std::alloc::Global;

/// What is wrong with the form of a line, and where.
fn form(column: usize, width: usize, fault: FormFault) -> Found
    ensures { result ≡ found_form column width fault }
{
    Found {
        column,
        width,
        fault: Fault::Form { fault },
    }
}

/// Whether a word cannot stand at its place.
fn is_misplaced(role: Role) -> bool
    ensures { result ≡ misplaced_test role }
{
    matches!(role, Role::NoKey { .. } | Role::NoTicks { .. })
}

/// What is wrong with such a word.
fn misplaced(mark: &Marked<'_>) -> Found
    ensures { result ≡ misplaced_at (mark_of mark.now) }
{
    let fault = match mark.role {
        Role::NoKey { behind } => FormFault::NoKey { behind },
        Role::NoTicks { .. } => FormFault::NoTicks {
            fault: numeral_fault(mark.word),
        },
        _ => FormFault::NoForm,
    };
    form(mark.column, mark.word.len(), fault)
}

/// The first word that cannot stand at its place.
fn first_misplaced(marks: &[Marked<'_>]) -> Option<Found>
    ensures { result ≡ option_map misplaced_at
        (find (λ mark. misplaced_test mark.role) (map mark_of marks.now)) }
{
    for mark in marks {
        if is_misplaced(mark.role) {
            return Some(misplaced(mark));
        }
    }
    None
}

/// What is wrong with a line of which no word is misplaced: a word is missing behind it.
fn missing(bytes: &[u8], wanted: Wanted) -> Found
    ensures { result ≡ missing_behind (length bytes.now) wanted }
{
    if wanted.is_whole() {
        return form(1, 0, FormFault::NoForm);
    }
    form(bytes.len() + 1, 1, FormFault::WordMissing)
}

/// The first word that cannot stand at its place, else a word is missing.
fn word_found(bytes: &[u8], wanted: Wanted, marks: &[Marked<'_>]) -> Found
    ensures { result ≡ word_in (length bytes.now) wanted (map mark_of marks.now) }
{
    match first_misplaced(marks) {
        Some(found) => found,
        None => missing(bytes, wanted),
    }
}

/// Whether these words have no bytes.
fn are_empty(marks: &[Marked<'_>]) -> bool
    ensures { result ≡ list_all (λ other. empty_test other.word) (map mark_of marks.now) }
{
    for mark in marks {
        if !mark.word.is_empty() {
            return false;
        }
    }
    true
}

/// What a word of no bytes is, by those behind it.
fn blank(size: usize, mark: &Marked<'_>, more: &[Marked<'_>]) -> Found
    ensures { result ≡ blank_of size (mark_of mark.now) (map mark_of more.now) }
{
    if are_empty(more) {
        return form(size, 1, FormFault::BlankLast);
    }
    form(mark.column, 1, FormFault::TwoBlanks)
}

/// The first word of no bytes.
fn blank_found(size: usize, marks: &[Marked<'_>]) -> Option<Found>
    ensures { result ≡ blank_in size (map mark_of marks.now) }
{
    for index in 0..marks.len() {
        if marks[index].word.is_empty() {
            return Some(blank(size, &marks[index], &marks[index + 1..]));
        }
    }
    None
}

/// What is wrong with a line that has words and begins with one.
fn spaced_found(bytes: &[u8], wanted: Wanted, marks: &[Marked<'_>]) -> Found
    ensures { result ≡ spaced_in (length bytes.now) wanted (map mark_of marks.now) }
{
    match blank_found(bytes.len(), marks) {
        Some(found) => found,
        None => word_found(bytes, wanted, marks),
    }
}

/// What is wrong with a line without CR.
fn bytes_found(bytes: &[u8], wanted: Wanted, marks: &[Marked<'_>]) -> Found
    ensures { result ≡ bytes_in bytes.now wanted (map mark_of marks.now) }
{
    if bytes.is_empty() {
        return form(1, 1, FormFault::Empty);
    }
    if begins_with(bytes, b' ') {
        return form(1, 1, FormFault::BlankFirst);
    }
    spaced_found(bytes, wanted, marks)
}

/// The first CR of a line.
fn return_found(bytes: &[u8]) -> Option<Found>
    ensures { result ≡ return_in bytes.now }
{
    match return_place(bytes) {
        None => None,
        Some(at) => Some(form(at + 1, 1, FormFault::CarriageReturn)),
    }
}

/// What is wrong with a line that an LF ends.
fn line_found(bytes: &[u8], wanted: Wanted, marks: &[Marked<'_>]) -> Found
    ensures { result ≡ line_in bytes.now wanted (map mark_of marks.now) }
{
    match return_found(bytes) {
        Some(found) => found,
        None => bytes_found(bytes, wanted, marks),
    }
}

/// What is wrong with the last line, which no LF ends.
fn unended(bytes: &[u8]) -> Found
    ensures { result ≡ unended_in bytes.now }
{
    if bytes.is_empty() {
        return form(1, 1, FormFault::EndMissing);
    }
    form(bytes.len() + 1, 1, FormFault::NoLineFeed)
}

/// Whether the line before this one is the last line of a table.
fn is_behind_end(text: &[u8], number: usize) -> bool
    ensures { result ≡ end_test text.now number }
{
    line(text, number.saturating_sub(1)) == b"end".as_slice()
}

/// What is wrong with a line that an LF ends, by its words.
fn ended(alloc: Global, bytes: &[u8], number: usize) -> Result<Found, OutOfMemory>
    ensures { IfOk result (λ found. found ≡ ended_in bytes.now number) }
{
    let mut marks = Vec::new(alloc);
    let wanted = add_marks(&mut marks, bytes, number)?;
    Ok(line_found(bytes, wanted, marks.as_slice()))
}

/// What is wrong with the form of the line of this number.
#[tactic(auto, unfolding(crate::specs::Form::form_found))]
pub(crate) fn form_found(alloc: Global, text: &[u8], number: usize) -> Result<Found, OutOfMemory>
    ensures { IfOk result (λ found. found ≡ form_in text.now number) }
{
    let bytes = line(text, number);
    if is_behind_end(text, number) {
        return Ok(form(1, bytes.len().max(1), FormFault::BehindEnd));
    }
    if !is_ended(text, number) {
        return Ok(unended(bytes));
    }
    ended(alloc, bytes, number)
}
