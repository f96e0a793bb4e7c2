//! The message for a program that fails a rule for names.

ghost use Rattle.std.specs.Prelude.{◌≡◌, IfOk};
ghost use Rattle.front_end.specs.Source.{IsTreeOf};
ghost use Rattle.message_program.specs.Program.{name_message, tree_name_message};
ghost use Rattle.syntax_tree.specs.Placed.{Prog as SpecProg, placed};
ghost use Rattle.syntax_tree.specs.declared.place.Place.{Place as SpecPlace};

use crate::messages::{begun, word_message};
use crate::rules::tree;
use front_end::one_tree;
use message_names::{name_notes, name_sentence};
use out_of_memory::OutOfMemory;
use std::alloc::Global;
use syntax_tree::{Place, Program, Text};

/// The message with this sentence, if there is one, and with the notes on the name at the place.
fn with_notes(
    alloc: Global,
    file: &[u8],
    text: &[u8],
    number: u8,
    place: Place,
    said: Option<Text>,
    notes: Text,
) -> Result<Text, OutOfMemory>
    ensures { IfOk result (λ message. message ≡
        name_message file.now text.now number place said notes) }
{
    let Some(sentence) = said else {
        return word_message(alloc, file, text, number, place);
    };
    let mut message = begun(alloc, file, text, number, place, sentence.as_bytes())?;
    message.extend(notes.as_bytes())?;
    Ok(message)
}

/// The message for a tree.
fn told_of_tree(
    alloc: Global,
    file: &[u8],
    text: &[u8],
    number: u8,
    place: Place,
    tree: &Program,
) -> Result<Text, OutOfMemory>
    ensures { IfOk result (λ message. message ≡
        tree_name_message file.now text.now number place (placed tree.now)) }
{
    let said = name_sentence(alloc, tree, number, place)?;
    let notes = name_notes(alloc, text, tree, number, place)?;
    with_notes(alloc, file, text, number, place, said, notes)
}

/// The message for a text whose program fails a rule for names of this number at the place.
pub(crate) fn name_message(
    alloc: Global,
    file: &[u8],
    text: &[u8],
    number: u8,
    place: Place,
) -> Result<Text, OutOfMemory>
    ensures { IfOk result (λ message. (g : SpecProg SpecPlace) → IsTreeOf text.now g →
        message ≡ tree_name_message file.now text.now number place g) }
{
    one_tree();
    let Some(tree) = tree(alloc, text)? else {
        return word_message(alloc, file, text, number, place);
    };
    told_of_tree(alloc, file, text, number, place, &tree)
}
