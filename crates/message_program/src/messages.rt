//! The messages, by the word at the place.

ghost use Rattle.std.specs.Prelude.{◌≡◌, ◌++◌, IfOk, OnOk, codes, decimal};
ghost use Rattle.message_program.specs.Program.{begun, first_line, long_message, note_of, remark};
ghost use Rattle.message_program.specs.Program.{show_word, told, word_message, word_of};
ghost use Rattle.message_program.specs.Program.{word_sentence};
ghost use Rattle.message_program.specs.Word.{bytes_at};

use crate::notes::{add_remark, remark};
use crate::place_words::{bytes_at, word_at};
use crate::sentences::add_sentence;
use message_text::{add_head, add_number, add_show};
use out_of_memory::OutOfMemory;
use std::alloc::Global;
use syntax_tree::{Place, Text};

/// The word that a fault is told at: one byte of a byte that begins no word.
fn word_of(number: u8, bytes: &[u8]) -> &[u8]
    ensures { result.now ≡ word_of number bytes.now }
{
    if number == 1 {
        return &bytes[..bytes.len().min(1)];
    }
    word_at(bytes)
}

/// The code of a fault.
fn code(alloc: Global, number: u8) -> Result<Text, OutOfMemory>
    ensures { IfOk result (λ code. code ≡ codes "E" ++ decimal number) }
{
    let mut code = Text::from_bytes(alloc, b"E")?;
    add_number(&mut code, usize::from(number))?;
    Ok(code)
}

/// What is wrong where a fault of this number is, by the word at the place.
pub(crate) fn word_sentence(
    alloc: Global,
    source: &[u8],
    number: u8,
    place: Place,
) -> Result<Text, OutOfMemory>
    ensures { IfOk result (λ told. told ≡ word_sentence source.now number place) }
{
    let mut sentence = Text::new(alloc);
    add_sentence(
        &mut sentence,
        number,
        word_of(number, bytes_at(source, place)),
    )?;
    Ok(sentence)
}

/// Puts the first line of the message.
fn add_first_line(
    alloc: Global,
    text: &mut Text,
    file: &[u8],
    number: u8,
    place: Place,
    sentence: &[u8],
) -> Result<(), OutOfMemory>
    ensures { OnOk result (text.new ≡ text.old ++ first_line file.now number place sentence.now) }
{
    let code = code(alloc, number)?;
    add_head(
        text,
        file,
        place.line as usize,
        place.col as usize,
        code.as_bytes(),
        &[sentence],
    )
}

/// Puts the line of the place, with carets below the word.
fn add_word(text: &mut Text, source: &[u8], place: Place, word: &[u8]) -> Result<(), OutOfMemory>
    ensures { OnOk result (text.new ≡ text.old ++ show_word source.now place word.now) }
{
    add_show(
        text,
        source,
        place.line as usize,
        place.col as usize,
        word.len().max(1),
    )
}

/// The message up to its notes, for a fault of this number with this sentence.
pub(crate) fn begun(
    alloc: Global,
    file: &[u8],
    source: &[u8],
    number: u8,
    place: Place,
    sentence: &[u8],
) -> Result<Text, OutOfMemory>
    ensures { IfOk result (λ message.
        message ≡ begun file.now source.now number place sentence.now) }
{
    let mut message = Text::new(alloc);
    add_first_line(alloc, &mut message, file, number, place, sentence)?;
    let word = word_of(number, bytes_at(source, place));
    add_word(&mut message, source, place, word)?;
    Ok(message)
}

/// The message for a fault of this number, with this sentence.
pub(crate) fn told(
    alloc: Global,
    file: &[u8],
    source: &[u8],
    number: u8,
    place: Place,
    sentence: &[u8],
) -> Result<Text, OutOfMemory>
    ensures { IfOk result (λ message.
        message ≡ told file.now source.now number place sentence.now) }
{
    let mut message = begun(alloc, file, source, number, place, sentence)?;
    add_remark(&mut message, remark(number, bytes_at(source, place)))?;
    Ok(message)
}

/// The message by the word at the place alone.
pub(crate) fn word_message(
    alloc: Global,
    file: &[u8],
    source: &[u8],
    number: u8,
    place: Place,
) -> Result<Text, OutOfMemory>
    ensures { IfOk result (λ message. message ≡ word_message file.now source.now number place) }
{
    let sentence = word_sentence(alloc, source, number, place)?;
    told(alloc, file, source, number, place, sentence.as_bytes())
}

/// The message for a text that is too long.
#[tactic(auto, unfolding(crate::specs::Program::long_message))]
pub fn long_message(alloc: Global, file: &str) -> Result<Text, OutOfMemory>
    ensures { IfOk result (λ message. message ≡ long_message file.now) }
{
    let mut message = Text::new(alloc);
    add_head(
        &mut message,
        file.as_bytes(),
        1,
        1,
        b"E4",
        &[b"the text has more than 1048576 bytes"],
    )?;
    Ok(message)
}
