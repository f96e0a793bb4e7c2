//! Words and numbers in a sentence.

ghost use Rattle.std.specs.Prelude.{◌≡◌, ◌++◌, OnOk, decimal};
ghost use Rattle.message_text.specs.Words.{quoted, shortened as shortened_word};

use itoa::Buffer;
use message_text::{add_number, add_plain, add_quoted};
use out_of_memory::OutOfMemory;
use syntax_tree::Text;

/// The most bytes of a word that are put as they are.
const LONGEST: usize = 40;

/// Puts a word; of more than 40 bytes the first 37 and three dots.
pub(crate) fn add_shortened(text: &mut Text, word: &[u8]) -> Result<(), OutOfMemory>
    ensures { OnOk result (text.new ≡ text.old ++ shortened_word word.now) }
{
    if word.len() <= LONGEST {
        return add_plain(text, word);
    }
    let first = &word[..37];
    add_plain(text, first)?;
    text.extend(b"...")
}

/// Puts a word between backquotes, and these bytes behind it.
pub(crate) fn add_told(text: &mut Text, word: &[u8], behind: &[u8]) -> Result<(), OutOfMemory>
    ensures { OnOk result (text.new ≡ text.old ++ (quoted word.now ++ behind.now)) }
{
    add_quoted(text, word)?;
    text.extend(behind)
}

/// Puts a word, shortened, between these bytes.
pub(crate) fn add_between(
    text: &mut Text,
    before: &[u8],
    word: &[u8],
    behind: &[u8],
) -> Result<(), OutOfMemory>
    ensures { OnOk result
        (text.new ≡ text.old ++ (before.now ++ (shortened_word word.now ++ behind.now))) }
{
    text.extend(before)?;
    add_shortened(text, word)?;
    text.extend(behind)
}

/// Puts a number between these bytes.
pub(crate) fn add_count(
    text: &mut Text,
    before: &[u8],
    number: usize,
    behind: &[u8],
) -> Result<(), OutOfMemory>
    ensures { OnOk result (text.new ≡ text.old ++ (before.now ++ (decimal number ++ behind.now))) }
{
    text.extend(before)?;
    add_number(text, number)?;
    text.extend(behind)
}

/// Puts ticks between these bytes.
pub(crate) fn add_ticks(
    text: &mut Text,
    before: &[u8],
    ticks: u128,
    behind: &[u8],
) -> Result<(), OutOfMemory>
    ensures { OnOk result (text.new ≡ text.old ++ (before.now ++ (decimal ticks ++ behind.now))) }
{
    let mut digits = Buffer::new();
    text.extend(before)?;
    text.extend(digits.format(ticks).as_bytes())?;
    text.extend(behind)
}
