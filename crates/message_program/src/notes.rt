//! What can be done.

ghost use Rattle.std.specs.Prelude.{◌≡◌, ◌++◌, OnOk, find, map, nat_eq};
ghost use Rattle.std.specs.List.{starts_with};
ghost use Rattle.std.specs.Option.{option_map_or};
ghost use Rattle.message_program.specs.Hints.{byte_note, first_byte, is_visible, of_byte};
ghost use Rattle.message_program.specs.Program.{note_of, remark};
ghost use Rattle.message_program.specs.Seen.{hint_of};

use crate::hint_rows::{Hint, beginnings};
use crate::rule_rows::numbered;
use message_text::add_note;
use out_of_memory::OutOfMemory;
use syntax_tree::Text;

/// Whether the byte is seen as it is.
pub(crate) fn is_visible(byte: u8) -> bool
    ensures { result ≡ is_visible byte }
{
    matches!(byte, b'!'..=b'~')
}

/// The first of these bytes; behind the end of a line stands its LF.
pub(crate) fn first_byte(bytes: &[u8]) -> u8
    ensures { result ≡ first_byte bytes.now }
{
    match bytes {
        [] => b'\n',
        [first, ..] => *first,
    }
}

/// What is said of a byte that begins no word and has no hint of its own.
fn of_byte(byte: u8) -> &'static str
    ensures { result.now ≡ of_byte byte }
{
    if is_visible(byte) {
        return "no word of the language has it; it may stand in a comment, behind `%`";
    }
    if byte >= 128 {
        return "names have letters a to z and A to Z, digits and `_`; other bytes may stand in a comment, behind `%`";
    }
    "a control byte may stand in a comment only, behind `%`"
}

/// Whether the hint is for these bytes, which begin no word.
fn is_begun(hint: &Hint, bytes: &[u8]) -> bool
    ensures { result ≡ starts_with nat_eq bytes.now hint.now.bytes.now }
{
    bytes.starts_with(hint.bytes.as_bytes())
}

/// The first note for what the bytes begin with, or the other one.
fn begun_note(hints: &'static [Hint], bytes: &[u8], other: &'static str) -> &'static str
    ensures { result.now ≡ option_map_or (λ hint. hint.note)
        (find (λ hint. starts_with nat_eq bytes.now hint.bytes) (map hint_of hints.now)) other.now }
{
    for hint in hints {
        if is_begun(hint, bytes) {
            return hint.note;
        }
    }
    other
}

/// What is said of bytes that begin no word.
fn byte_note(bytes: &[u8]) -> &'static str
    ensures { result.now ≡ byte_note bytes.now }
{
    begun_note(beginnings(), bytes, of_byte(first_byte(bytes)))
}

/// What can be done about a fault of this number, where these bytes stand at its place.
pub(crate) fn remark(number: u8, bytes: &[u8]) -> &'static str
    ensures { result.now ≡ remark number bytes.now }
{
    match number {
        1 => byte_note(bytes),
        3 => "write a shorter name",
        _ => numbered(number).note,
    }
}

/// Puts a note, where there is something to say.
pub(crate) fn add_remark(text: &mut Text, remark: &str) -> Result<(), OutOfMemory>
    ensures { OnOk result (text.new ≡ text.old ++ note_of remark.now) }
{
    if remark.is_empty() {
        return Ok(());
    }
    add_note(text, &[remark.as_bytes()])
}
