//! Names that the bytes begin with.

ghost use Rattle.std.specs.Prelude.{◌≡◌, ◌&&◌, ◌++◌, ◌∷◌, [], false, not, IfOk, OnOk};
ghost use Rattle.std.specs.List.{list_all};
ghost use Rattle.syntax.specs.Spellings.{is_identifier as identifier_test, is_letter as letter_test, is_word as word_test, keywords};
ghost use Rattle.image_format.specs.Gives.{Gives, GivesOrFault};
ghost use Rattle.image_format.specs.Format.{bytes_as_are, both, checked, u8 as one_byte};
ghost use Rattle.image_format.specs.TreeFormat.{within};
ghost use Rattle.image_reader.specs.Grammar.{has, name_format};
ghost use Rattle.image_reader.specs.Taken.{Names};

use crate::fault::{tri, tri_fault, tri_memory};
use crate::taken::TakenNames;
use image_format::{ByteFault, ReadError, refusal, u8_at};
use out_of_memory::OutOfMemory;
use std::alloc::Global;
use syntax::keyword_at;
use syntax_tree::{List, Name};

fn is_letter(byte: u8) -> bool
    ensures { result ≡ letter_test byte }
{
    byte.is_ascii_alphabetic()
}

fn is_word(byte: u8) -> bool
    ensures { result ≡ word_test byte }
{
    is_letter(byte) || byte.is_ascii_digit() || byte == b'_'
}

/// Whether all bytes are letters, digits and `_`.
fn are_words(bytes: &[u8]) -> bool
    ensures { result ≡ list_all word_test bytes.now }
{
    bytes.iter().all(|byte| is_word(*byte))
}

/// Whether the bytes are a letter, and then letters, digits and `_`.
fn is_identifier(name: &[u8]) -> bool
    ensures { result ≡ identifier_test name.now }
{
    match name {
        [] => false,
        [first, rest @ ..] => is_letter(*first) && are_words(rest),
    }
}

/// Whether the bytes are a keyword.
fn is_keyword(name: &[u8]) -> bool
    ensures { result ≡ has keywords name.now }
{
    match keyword_at(name) {
        Some(_) => true,
        None => false,
    }
}

/// So many bytes as they are.
pub fn bytes_at(bytes: &[u8], size: usize) -> Result<(&[u8], &[u8]), ByteFault>
    ensures { GivesOrFault (λ x. (x.0.now, x.1.now)) result ((bytes_as_are size).read bytes.now) }
{
    if bytes.len() < size {
        return Err(ByteFault {
            number: refusal::ENDS,
            left: 0,
        });
    }
    let (front, rest) = bytes.split_at(size);
    Ok((front, rest))
}

/// The length of a name.
fn length_at(bytes: &[u8]) -> Result<(u8, &[u8]), ByteFault>
    ensures { GivesOrFault (λ x. (x.0, x.1.now)) result ((checked one_byte (within 0 63)).read bytes.now) }
{
    let (length, rest) = tri!(u8_at(bytes));
    if length <= 63 {
        Ok((length, rest))
    } else {
        Err(ByteFault {
            number: refusal::RANGE,
            left: bytes.len(),
        })
    }
}

/// Whether the bytes are an identifier and no keyword.
pub fn is_plain_name(name: &[u8]) -> bool
    ensures { result ≡ (identifier_test name.now && not (has keywords name.now)) }
{
    is_identifier(name) && !is_keyword(name)
}

/// The name of these bytes, where they are an identifier, no keyword, and not taken; else nothing.
fn fresh_name(alloc: Global, bytes: &[u8], taken: &TakenNames) -> Result<Option<Name>, OutOfMemory>
    ensures { IfOk result (Names taken.now bytes.now) }
{
    if !is_plain_name(bytes) {
        return Ok(None);
    }
    let name = tri!(Name::new(alloc, bytes));
    if taken.has(&name) {
        return Ok(None);
    }
    Ok(Some(name))
}

/// A name that is not taken.
pub fn name_at<'a>(
    alloc: Global,
    bytes: &'a [u8],
    taken: &TakenNames,
) -> Result<(Name, &'a [u8]), ReadError>
    ensures read { Gives (λ x. (x.0, x.1.now)) result ((name_format taken.now).read bytes.now) }
    ensures fresh { IfOk result (λ x. has taken.now x.0 ≡ false) }
{
    let (length, rest) = tri_fault!(length_at(bytes));
    let (name, rest) = tri_fault!(bytes_at(rest, usize::from(length)));
    match tri_memory!(fresh_name(alloc, name, taken)) {
        Some(name) => Ok((name, rest)),
        None => Err(ReadError::Fault(ByteFault {
            number: refusal::NAME,
            left: bytes.len(),
        })),
    }
}

/// Adds a name that is not taken, and takes it.
pub fn add_name(
    alloc: Global,
    names: &mut List<Name>,
    taken: &mut TakenNames,
    name: Name,
) -> Result<(), OutOfMemory>
    requires { has taken.old name ≡ false }
    ensures names { OnOk result (names.new ≡ names.old ++ name ∷ []) }
    ensures taken { OnOk result (taken.new ≡ taken.old ++ name ∷ []) }
{
    tri!(taken.take(alloc, &name));
    names.push(name)
}
