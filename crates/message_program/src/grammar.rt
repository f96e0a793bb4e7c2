//! The message for a text that goes on with no word of the grammar.

ghost use Rattle.std.specs.Prelude.{◌≡◌, IfOk};
ghost use Rattle.message_program.specs.Program.{IsUnexpectedTold, begun, word_sentence};

use crate::messages::{begun, word_sentence};
use message_unexpected::add_unexpected_notes;
use out_of_memory::OutOfMemory;
use std::alloc::Global;
use syntax_tree::{Place, Text};

/// The message up to its notes.
fn unexpected(alloc: Global, file: &[u8], text: &[u8], place: Place) -> Result<Text, OutOfMemory>
    ensures { IfOk result (λ message. message ≡ begun file.now text.now 10 place
        (word_sentence text.now 10 place)) }
{
    let sentence = word_sentence(alloc, text, 10, place)?;
    begun(alloc, file, text, 10, place, sentence.as_bytes())
}

/// The message for a text whose tokens stop beginning a program at the place.
pub(crate) fn grammar_message(
    alloc: Global,
    file: &[u8],
    text: &[u8],
    place: Place,
) -> Result<Text, OutOfMemory>
    ensures { IfOk result (λ message. IsUnexpectedTold file.now text.now place message) }
{
    let mut message = unexpected(alloc, file, text, place)?;
    add_unexpected_notes(alloc, &mut message, text, place)?;
    Ok(message)
}
