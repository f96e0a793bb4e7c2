//! Whether a line has a form, and its words are names.

ghost use Rattle.std.specs.Prelude.{◌≡◌, ◌++◌, ◌↔◌, All, Contains, IfOk, IsTrue, OnOk, map, option_to_list};
ghost use Rattle.std.specs.List.{list_all};
ghost use Rattle.syntax.specs.Spellings.{is_digit as digit_test, is_identifier as identifier_test, is_word as letter_test, keywords};
ghost use Rattle.text_fields.specs.Fields.{Lacks};
ghost use Rattle.table_format.specs.Rules.{IsName, IsOneActivation, names_of_line};
ghost use Rattle.table_format.specs.Faults.{IsFormed, IsTableWord, is_numeral as numeral_test, meant, numbers};
ghost use Rattle.table_reader.specs.Reading.{bytes_of, line_seen, seen};

use crate::line::{LineWords, StayWords};
use out_of_memory::OutOfMemory;
use std::alloc::Global;
use syntax::keyword_at;
use text_fields::cut_at;

/// How many bytes a name has at most.
const LONGEST_NAME: usize = 63;

/// Whether no byte has this value.
fn lacks(bytes: &[u8], stop: u8) -> bool
    ensures { IsTrue result ↔ Lacks stop bytes.now }
{
    cut_at(bytes, stop).is_none()
}

/// Whether the bytes are a word: one byte or more, none of them a space, CR or LF.
pub fn is_table_word(word: &[u8]) -> bool
    ensures { IsTrue result ↔ IsTableWord word.now }
{
    !word.is_empty() && lacks(word, b' ') && lacks(word, b'\n') && lacks(word, b'\r')
}

/// Whether all bytes are digits.
fn are_digits(word: &[u8]) -> bool
    ensures { result ≡ list_all digit_test word.now }
{
    word.iter().all(|byte| byte.is_ascii_digit())
}

/// Whether the word is decimal digits without leading zeros.
fn is_numeral(word: &[u8]) -> bool
    ensures { result ≡ numeral_test word.now }
{
    are_digits(word) && text_fields::is_numeral(word)
}

/// Whether all bytes are letters, digits or `_`.
fn are_letters(word: &[u8]) -> bool
    ensures { result ≡ list_all letter_test word.now }
{
    word.iter()
        .all(|byte| byte.is_ascii_alphanumeric() || *byte == b'_')
}

/// Whether the bytes are a letter, then letters, digits and `_`.
fn is_identifier(word: &[u8]) -> bool
    ensures { result ≡ identifier_test word.now }
{
    match word {
        [] => false,
        [first, rest @ ..] => first.is_ascii_alphabetic() && are_letters(rest),
    }
}

/// Whether the word is a keyword.
fn is_keyword(word: &[u8]) -> bool
    ensures { IsTrue result ↔ Contains keywords word.now }
{
    keyword_at(word).is_some()
}

/// Whether the word is an identifier of at most 63 bytes and no keyword.
pub fn is_name(word: &[u8]) -> bool
    ensures { IsTrue result ↔ IsName word.now }
{
    word.len() <= LONGEST_NAME && is_identifier(word) && !is_keyword(word)
}

/// Puts the word, where there is one, at the end of a list.
fn add_if<'a>(all: &mut Vec<&'a [u8]>, word: Option<&'a [u8]>) -> Result<(), OutOfMemory>
    ensures { OnOk result
        (seen all.new.items ≡ seen all.old.items ++ option_to_list (bytes_of word.entry)) }
{
    match word {
        None => Ok(()),
        Some(word) => {
            all.push(word)?;
            Ok(())
        }
    }
}

/// Puts the monitors of some stays at the end of a list.
fn add_monitors<'a>(all: &mut Vec<&'a [u8]>, stays: &[StayWords<'a>]) -> Result<(), OutOfMemory>
    ensures { OnOk result
        (seen all.new.items ≡ seen all.old.items ++ map (λ s. s.monitor.now) stays.now) }
{
    for stay in stays {
        all.push(stay.monitor)?;
    }
    Ok(())
}

/// Puts the ticks of some stays at the end of a list.
fn add_ticks<'a>(all: &mut Vec<&'a [u8]>, stays: &[StayWords<'a>]) -> Result<(), OutOfMemory>
    ensures { OnOk result
        (seen all.new.items ≡ seen all.old.items ++ map (λ s. s.ticks.now) stays.now) }
{
    for stay in stays {
        all.push(stay.ticks)?;
    }
    Ok(())
}

/// The words in the places of names, in order.
fn names_of<'a>(alloc: Global, line: &LineWords<'a>) -> Result<Vec<&'a [u8]>, OutOfMemory>
    ensures { IfOk result (λ names. seen names.items ≡ names_of_line (meant (line_seen line.now))) }
{
    let mut names = Vec::new(alloc);
    names.push(line.head.name)?;
    add_if(&mut names, line.head.event)?;
    add_monitors(&mut names, line.stays.as_slice())?;
    Ok(names)
}

/// The words in the places of numbers.
fn numbers_of<'a>(alloc: Global, line: &LineWords<'a>) -> Result<Vec<&'a [u8]>, OutOfMemory>
    ensures { IfOk result (λ words. seen words.items ≡ numbers (line_seen line.now)) }
{
    let mut words = Vec::new(alloc);
    words.push(line.head.frame)?;
    words.push(line.head.cost)?;
    add_if(&mut words, line.head.deadline)?;
    add_if(&mut words, line.head.first)?;
    add_ticks(&mut words, line.stays.as_slice())?;
    Ok(words)
}

/// Whether these are words.
fn are_words(words: &[&[u8]]) -> bool
    ensures { IsTrue result ↔ All IsTableWord (seen words.now) }
{
    for word in words {
        if !is_table_word(word) {
            return false;
        }
    }
    true
}

/// Whether these are numerals.
fn are_numerals(words: &[&[u8]]) -> bool
    ensures { IsTrue result ↔ All (λ word. IsTrue (numeral_test word)) (seen words.now) }
{
    for word in words {
        if !is_numeral(word) {
            return false;
        }
    }
    true
}

/// Whether these are names.
fn are_names(words: &[&[u8]]) -> bool
    ensures { IsTrue result ↔ All IsName (seen words.now) }
{
    for word in words {
        if !is_name(word) {
            return false;
        }
    }
    true
}

/// Whether the words in the places of names are names.
pub fn has_names(alloc: Global, line: &LineWords<'_>) -> Result<bool, OutOfMemory>
    ensures { IfOk result (λ right. IsTrue right ↔
        All IsName (names_of_line (meant (line_seen line.now)))) }
{
    let names = names_of(alloc, line)?;
    Ok(are_names(names.as_slice()))
}

/// Whether a line has no event, or no first activation.
fn is_one_activation(line: &LineWords<'_>) -> bool
    ensures { IsTrue result ↔ IsOneActivation (meant (line_seen line.now)) }
{
    line.head.event.is_none() || line.head.first.is_none()
}

/// Whether a line has the form of a process line.
pub fn is_formed(alloc: Global, line: &LineWords<'_>) -> Result<bool, OutOfMemory>
    ensures { IfOk result (λ formed. IsTrue formed ↔ IsFormed (line_seen line.now)) }
{
    if !is_one_activation(line) {
        return Ok(false);
    }
    let names = names_of(alloc, line)?;
    let numbers = numbers_of(alloc, line)?;
    Ok(are_words(names.as_slice()) && are_numerals(numbers.as_slice()))
}
