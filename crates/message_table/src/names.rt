//! Names that are none, or that are taken.

ghost use Rattle.std.specs.Prelude.{◌≡◌, ◌++◌, [], ◌∷◌, IfOk, OnOk, bytes_eq, find, map, option_map};
ghost use Rattle.std.specs.List.{list_all, list_any};
ghost use Rattle.syntax.specs.Spellings.{is_identifier as identifier_test, is_word as letter_test, keywords};
ghost use Rattle.message_table.specs.Names.{holder as holder_in, is_keyword as keyword_test};
ghost use Rattle.message_table.specs.Names.{is_misnamed as misnamed_test, is_name as name_test};
ghost use Rattle.message_table.specs.Names.{is_named as named_test, name_fault as fault_of};
ghost use Rattle.message_table.specs.Names.{name_found as name_in, no_names, same as same_in};
ghost use Rattle.message_table.specs.Names.{taken as taken_by, taken_found as taken_in};
ghost use Rattle.message_table.specs.Names.{taken_from, with_name};
ghost use Rattle.message_table.specs.Found.{found_at as found_of, name_fault};
ghost use Rattle.message_table.specs.Seen.{mark_of, names_of};

use crate::fault::{Fault, Found, NameFault};
use crate::mark::Marked;
use crate::part::{Part, Role};
use out_of_memory::OutOfMemory;
use std::alloc::Global;
use syntax::keyword_at;

/// How many bytes a name has at most.
const LONGEST_NAME: usize = 63;

/// Whether a word is one of the language.
fn is_keyword(word: &[u8]) -> bool
    ensures { result ≡ keyword_test word.now }
{
    keyword_at(word).is_some()
}

/// Whether all bytes are letters, digits or `_`.
fn are_letters(word: &[u8]) -> bool
    ensures { result ≡ list_all letter_test word.now }
{
    word.iter()
        .all(|byte| byte.is_ascii_alphanumeric() || *byte == b'_')
}

/// Whether the bytes are a letter, then letters, digits and `_`.
fn is_identifier(word: &[u8]) -> bool
    ensures { result ≡ identifier_test word.now }
{
    match word {
        [] => false,
        [first, rest @ ..] => first.is_ascii_alphabetic() && are_letters(rest),
    }
}

/// Whether a word is an identifier of at most 63 bytes and no word of the language.
fn is_name(word: &[u8]) -> bool
    ensures { result ≡ name_test word.now }
{
    is_identifier(word) && !is_keyword(word) && word.len() <= LONGEST_NAME
}

/// Why a word is no name.
fn name_fault(word: &[u8]) -> NameFault
    ensures { result ≡ fault_of word.now }
{
    if is_keyword(word) {
        return NameFault::Keyword;
    }
    if is_identifier(word) {
        return NameFault::TooLong;
    }
    NameFault::NoName
}

/// What is wrong with the name at a word.
fn found_at(mark: &Marked<'_>, fault: NameFault) -> Found
    ensures { result ≡ found_of (mark_of mark.now) (name_fault fault) }
{
    Found {
        column: mark.column,
        width: mark.word.len(),
        fault: Fault::Name { fault },
    }
}

/// Whether a word stands in the place of a name.
fn is_named(role: Role) -> bool
    ensures { result ≡ named_test role }
{
    matches!(role, Role::Name { .. })
}

/// Whether a word in the place of a name is none.
fn is_misnamed(mark: &Marked<'_>) -> bool
    ensures { result ≡ misnamed_test (mark_of mark.now) }
{
    is_named(mark.role) && !is_name(mark.word)
}

/// The first word in the place of a name that is none.
pub(crate) fn name_found(marks: &[Marked<'_>]) -> Option<Found>
    ensures { result ≡ name_in (map mark_of marks.now) }
{
    for mark in marks {
        if is_misnamed(mark) {
            return Some(found_at(mark, name_fault(mark.word)));
        }
    }
    None
}

/// The names so far.
#[derive(Drop)]
struct Names<'a> {
    /// Of the table, the processes and the events.
    tasks: Vec<Marked<'a>>,
    /// Of the monitors.
    monitors: Vec<Marked<'a>>,
}

/// The first of these that is the same word.
fn same<'a>(word: &[u8], marks: &[Marked<'a>]) -> Option<Marked<'a>>
    ensures { option_map mark_of result ≡ same_in word.now (map mark_of marks.now) }
{
    for mark in marks {
        if mark.word == word {
            return Some(*mark);
        }
    }
    None
}

impl<'a> Names<'a> {
    /// Which name is this word already, so that the name in this part has to be another.
    fn holder(&self, of: Part, word: &[u8]) -> Option<Marked<'a>>
        ensures { option_map mark_of result ≡ holder_in (names_of self.now) of word.now }
    {
        let task = same(word, self.tasks.as_slice());
        if of.is_stay() || task.is_some() {
            return task;
        }
        same(word, self.monitors.as_slice())
    }

    /// Puts one more.
    fn add(&mut self, of: Part, mark: &Marked<'a>) -> Result<(), OutOfMemory>
        ensures { OnOk result
            (names_of self.new ≡ with_name (names_of self.old) of (mark_of mark.now)) }
    {
        if of.is_stay() {
            self.monitors.push(*mark)?;
        } else {
            self.tasks.push(*mark)?;
        }
        Ok(())
    }
}

/// What is wrong with a word that another name is already.
fn taken(mark: &Marked<'_>, by: &Marked<'_>) -> Found
    ensures { result ≡ taken_by (mark_of mark.now) (mark_of by.now) }
{
    found_at(
        mark,
        NameFault::Taken {
            by: by.role.part(),
            line: by.line,
        },
    )
}

/// The first name of which another one before it is the word already.
pub(crate) fn taken_found(alloc: Global, marks: &[Marked<'_>]) -> Result<Option<Found>, OutOfMemory>
    ensures { IfOk result (λ found. found ≡ taken_in (map mark_of marks.now)) }
{
    let mut names = Names {
        tasks: Vec::new(alloc),
        monitors: Vec::new(alloc),
    };
    for mark in marks {
        if is_named(mark.role) {
            let of = mark.role.part();
            if let Some(by) = names.holder(of, mark.word) {
                return Ok(Some(taken(mark, &by)));
            }
            names.add(of, mark)?;
        }
    }
    Ok(None)
}
