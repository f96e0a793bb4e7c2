//! What is told of a line.

ghost use Rattle.std.specs.Prelude.{◌≡◌, ◌++◌, IfOk};
ghost use Rattle.message_text.specs.Words.{quoted};
ghost use Rattle.message_script.specs.Told.{at_byte, at_word, behind, of_word, remark, with_line};
ghost use Rattle.message_script.specs.Words.{seen};

use crate::words::Word;
use message_text::add_quoted;
use out_of_memory::OutOfMemory;
use std::alloc::Global;
use syntax_tree::Text;

/// A remark on what is wrong.
#[derive(Clone, Copy)]
pub(crate) enum Note {
    Forms,
    EndForm,
    SetForm,
    EventForm,
    OneBlank,
    EndTheLine,
    LineFeedAlone,
    NoComments,
    Order,
    Frame,
}

/// What is told of a line: the column and the width of the place, what is wrong, the number of an
/// earlier line, and a remark.
#[derive(Drop)]
pub(crate) struct Told {
    pub column: usize,
    pub width: usize,
    pub sentence: Text,
    pub earlier: Option<usize>,
    pub note: Option<Note>,
}

/// The words of a remark.
#[tactic(auto, unfolding(crate::specs::Told::remark))]
pub(crate) fn remark(note: Note) -> &'static [u8]
    ensures { result.now ≡ remark note }
{
    match note {
        Note::Forms => b"lines are `T set D V`, `T event E` and last `end H`",
        Note::EndForm => b"the last line is `end H`",
        Note::SetForm => b"the form is `T set D V`",
        Note::EventForm => b"the form is `T event E`",
        Note::OneBlank => b"one blank stands between words",
        Note::EndTheLine => b"end the last line too",
        Note::LineFeedAlone => b"lines end with a line feed alone",
        Note::NoComments => b"a script has no comments",
        Note::Order => b"ticks do not fall, and the end is above them all",
        Note::Frame => b"an event keeps the frame of its process",
    }
}

/// Tells something of one byte of a line.
#[tactic(auto, unfolding(crate::specs::Told::at_byte))]
pub(crate) fn at_byte(
    alloc: Global,
    column: usize,
    sentence: &[u8],
    note: Option<Note>,
) -> Result<Told, OutOfMemory>
    ensures { IfOk result (λ told. told ≡ at_byte column sentence.now note) }
{
    Ok(Told {
        column,
        width: 1,
        sentence: Text::from_bytes(alloc, sentence)?,
        earlier: None,
        note,
    })
}

/// Tells something of what stands right behind a line.
#[tactic(auto, unfolding(crate::specs::Told::behind))]
pub(crate) fn behind(
    alloc: Global,
    line: &[u8],
    sentence: &[u8],
    note: Option<Note>,
) -> Result<Told, OutOfMemory>
    ensures { IfOk result (λ told. told ≡ behind line.now sentence.now note) }
{
    Ok(Told {
        column: line.len() + 1,
        width: 1,
        sentence: Text::from_bytes(alloc, sentence)?,
        earlier: None,
        note,
    })
}

/// Tells something of a word of a line.
#[tactic(auto, unfolding(crate::specs::Told::at_word))]
pub(crate) fn at_word(word: Word<'_>, sentence: Text, note: Option<Note>) -> Told
    ensures { result ≡ at_word (seen word.entry) sentence note }
{
    Told {
        column: word.column,
        width: word.bytes.len(),
        sentence,
        earlier: None,
        note,
    }
}

/// A word between backquotes, and what is wrong with it.
pub(crate) fn with_quoted(alloc: Global, word: &[u8], wrong: &[u8]) -> Result<Text, OutOfMemory>
    ensures { IfOk result (λ text. text ≡ quoted word.now ++ wrong.now) }
{
    let mut text = Text::new(alloc);
    add_quoted(&mut text, word)?;
    text.extend(wrong)?;
    Ok(text)
}

/// Tells what is wrong with a word of a line.
#[tactic(auto, unfolding(crate::specs::Told::of_word))]
pub(crate) fn of_word(
    alloc: Global,
    word: Word<'_>,
    wrong: &[u8],
    note: Option<Note>,
) -> Result<Told, OutOfMemory>
    ensures { IfOk result (λ told. told ≡ of_word (seen word.entry) wrong.now note) }
{
    let sentence = with_quoted(alloc, word.bytes, wrong)?;
    Ok(at_word(word, sentence, note))
}

/// The same with an earlier line.
#[tactic(auto, unfolding(crate::specs::Told::with_line))]
pub(crate) fn with_line(earlier: usize, told: Told) -> Told
    ensures { result ≡ with_line earlier told }
{
    let Told {
        column,
        width,
        sentence,
        earlier: _,
        note,
    } = told;
    Told {
        column,
        width,
        sentence,
        earlier: Some(earlier),
        note,
    }
}
