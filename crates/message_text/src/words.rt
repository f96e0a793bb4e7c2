//! Words from outside, a message's first line, and its notes.

ghost use Rattle.std.specs.Prelude.{◌≡◌, ◌++◌, OnOk, map};
ghost use Rattle.std.specs.List.{concat};
ghost use Rattle.message_text.specs.Words.{head, note, place, plain, plain_byte, quoted, shortened};

use crate::put::{add_number, add_parts};
use out_of_memory::OutOfMemory;
use syntax_tree::Text;

/// The most bytes of a word that are put as they are.
const LONGEST: usize = 40;

/// How a byte from outside is put.
fn plain_byte(byte: u8) -> u8
    ensures { result ≡ plain_byte byte }
{
    match byte {
        b'\t' | b'\r' => b' ',
        b' '..=b'~' => byte,
        _ => b'?',
    }
}

/// Puts bytes from outside: a blank for a tab or a CR, `?` for each other byte outside 32 to 126.
pub fn add_plain(text: &mut Text, bytes: &[u8]) -> Result<(), OutOfMemory>
    ensures { OnOk result (text.new ≡ text.old ++ plain bytes.now) }
{
    for byte in bytes {
        let put = [plain_byte(*byte)];
        text.extend(&put)?;
    }
    Ok(())
}

/// Puts a word from outside; of more than 40 bytes the first 37 and three dots.
fn add_shortened(text: &mut Text, word: &[u8]) -> Result<(), OutOfMemory>
    ensures { OnOk result (text.new ≡ text.old ++ shortened word.now) }
{
    if word.len() <= LONGEST {
        return add_plain(text, word);
    }
    let first = &word[..37];
    add_plain(text, first)?;
    text.extend(b"...")
}

/// Puts a word from outside between backquotes; of more than 40 bytes the first 37 and three dots.
pub fn add_quoted(text: &mut Text, word: &[u8]) -> Result<(), OutOfMemory>
    ensures { OnOk result (text.new ≡ text.old ++ quoted word.now) }
{
    text.extend(b"`")?;
    add_shortened(text, word)?;
    text.extend(b"`")
}

/// Puts a note: a line of its own, of these parts.
pub fn add_note(text: &mut Text, sentence: &[&[u8]]) -> Result<(), OutOfMemory>
    ensures { OnOk result
        (text.new ≡ text.old ++ note (concat (map (λ part. part.now) sentence.now))) }
{
    text.extend(b"        = ")?;
    add_parts(text, sentence)?;
    text.extend(b"\n")
}

/// Puts a place: the file's name as the call has it, the line and the column from 1.
fn add_place(text: &mut Text, file: &[u8], line: usize, column: usize) -> Result<(), OutOfMemory>
    ensures { OnOk result (text.new ≡ text.old ++ place file.now line column) }
{
    add_plain(text, file)?;
    text.extend(b":")?;
    add_number(text, line)?;
    text.extend(b":")?;
    add_number(text, column)
}

/// Puts the first line of a message: the file's name as the call has it, the line and the column
/// from 1, the code of the fault, and what is wrong, in these parts.
pub fn add_head(
    text: &mut Text,
    file: &[u8],
    line: usize,
    column: usize,
    code: &[u8],
    sentence: &[&[u8]],
) -> Result<(), OutOfMemory>
    ensures { OnOk result (text.new ≡ text.old ++
        head file.now line column code.now (concat (map (λ part. part.now) sentence.now))) }
{
    add_place(text, file, line, column)?;
    add_parts(text, &[b": ", code, b": "])?;
    add_parts(text, sentence)?;
    text.extend(b"\n")
}
