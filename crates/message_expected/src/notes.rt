//! The note of what is expected.

ghost use Rattle.std.specs.Prelude.{◌≡◌, ◌++◌, OnOk};
ghost use Rattle.message_text.specs.Either.{either, others as others_text, separator};
ghost use Rattle.message_expected.specs.Expected.{last};
ghost use Rattle.message_expected.specs.Notes.{expected_note, sentence};

use crate::groups::expectations;
use crate::kinds::Kind;
use crate::tokens::bytes_of;
use message_text::{add_note, add_quoted};
use out_of_memory::OutOfMemory;
use std::alloc::Global;
use syntax::Token;
use syntax_tree::Text;

/// What stands before an element, by those behind it.
fn separator(behind: &[Text]) -> &'static [u8]
    ensures { result.now ≡ separator behind.now }
{
    match behind {
        [] => b" or ",
        _ => b", ",
    }
}

/// Puts these, each behind a comma, but the last behind `or`.
fn add_others(text: &mut Text, others: &[Text]) -> Result<(), OutOfMemory>
    ensures { OnOk result (text.new ≡ text.old ++ others_text others.now) }
{
    for index in 0..others.len() {
        text.extend(separator(&others[index + 1..]))?;
        text.extend(others[index].as_bytes())?;
    }
    Ok(())
}

/// Puts a choice of these.
fn add_either(text: &mut Text, all: &[Text]) -> Result<(), OutOfMemory>
    ensures { OnOk result (text.new ≡ text.old ++ either all.now) }
{
    match all {
        [] => text.extend(b"nothing"),
        [first, more @ ..] => {
            text.extend(first.as_bytes())?;
            add_others(text, more)
        }
    }
}

/// Puts what is expected behind the last of these tokens.
fn add_sentence(
    message: &mut Text,
    text: &[u8],
    before: &[Token],
    all: &[Text],
) -> Result<(), OutOfMemory>
    ensures { OnOk result
        (message.new ≡ message.old ++ sentence text.now (last before.now) all.now) }
{
    match before.last() {
        None => {
            message.extend(b"expected ")?;
            add_either(message, all)?;
            message.extend(b" at the start")
        }
        Some(token) => {
            message.extend(b"after ")?;
            add_quoted(message, bytes_of(text, *token))?;
            message.extend(b" expected ")?;
            add_either(message, all)
        }
    }
}

/// Puts the note of what is expected behind these tokens of the text, which `expected` finds.
#[tactic(auto, unfolding(crate::specs::Notes::expected_note))]
pub fn add_expected_note(
    alloc: Global,
    message: &mut Text,
    text: &[u8],
    before: &[Token],
    found: &[Kind],
) -> Result<(), OutOfMemory>
    ensures { OnOk result
        (message.new ≡ message.old ++ expected_note text.now before.now found.now) }
{
    let all = expectations(alloc, found)?;
    let mut told = Text::new(alloc);
    add_sentence(&mut told, text, before, all.as_slice())?;
    add_note(message, &[told.as_bytes()])
}
