//! The word at a place of a text.

ghost use Rattle.std.specs.Prelude.{◌≡◌, nat_eq};
ghost use Rattle.std.specs.List.{list_any, prefix_len, starts_with};
ghost use Rattle.message_program.specs.Word.{begins, bytes_at, long_signs, word_at, word_size};
ghost use Rattle.syntax.specs.Spellings.{is_digit as digit_test, is_letter as letter_test};
ghost use Rattle.syntax.specs.Spellings.{is_word as word_test};

use message_text::line;
use syntax_tree::Place;

/// The bytes of the line of a place, from its column on.
pub(crate) fn bytes_at(text: &[u8], place: Place) -> &[u8]
    ensures { result.now ≡ bytes_at text.now place }
{
    let line = line(text, place.line as usize);
    let before = (place.col as usize).saturating_sub(1);
    &line[before.min(line.len())..]
}

/// Whether the byte is a letter.
fn is_letter(byte: u8) -> bool
    ensures { result ≡ letter_test byte }
{
    byte.is_ascii_alphabetic()
}

/// Whether the byte is a digit.
fn is_digit(byte: u8) -> bool
    ensures { result ≡ digit_test byte }
{
    byte.is_ascii_digit()
}

/// Whether the byte is a letter, a digit or `_`.
fn is_word(byte: u8) -> bool
    ensures { result ≡ word_test byte }
{
    is_letter(byte) || is_digit(byte) || byte == b'_'
}

/// Whether the bytes begin with a letter.
fn begins_letter(bytes: &[u8]) -> bool
    ensures { result ≡ begins letter_test bytes.now }
{
    match bytes {
        [] => false,
        [first, ..] => is_letter(*first),
    }
}

/// Whether the bytes begin with a digit.
fn begins_digit(bytes: &[u8]) -> bool
    ensures { result ≡ begins digit_test bytes.now }
{
    match bytes {
        [] => false,
        [first, ..] => is_digit(*first),
    }
}

/// Whether the bytes begin with a sign of two bytes.
fn begins_long_sign(bytes: &[u8]) -> bool
    ensures { result ≡ list_any (starts_with nat_eq bytes.now) long_signs }
{
    bytes.starts_with(b":=")
        || bytes.starts_with(b"<>")
        || bytes.starts_with(b"<=")
        || bytes.starts_with(b">=")
        || bytes.starts_with(b"..")
}

/// How many letters, digits and `_` the bytes begin with.
fn letters_size(bytes: &[u8]) -> usize
    ensures { result ≡ prefix_len word_test bytes.now }
{
    bytes.iter().take_while(|byte| is_word(**byte)).count()
}

/// How many digits the bytes begin with.
fn digits_size(bytes: &[u8]) -> usize
    ensures { result ≡ prefix_len digit_test bytes.now }
{
    bytes.iter().take_while(|byte| is_digit(**byte)).count()
}

/// How many bytes the word has that begins here.
fn word_size(bytes: &[u8]) -> usize
    ensures { result ≡ word_size bytes.now }
{
    if begins_letter(bytes) {
        return letters_size(bytes);
    }
    if begins_digit(bytes) {
        return digits_size(bytes);
    }
    if begins_long_sign(bytes) { 2 } else { 1 }
}

/// The word that begins here; nothing at the end of the line.
pub(crate) fn word_at(bytes: &[u8]) -> &[u8]
    ensures { result.now ≡ word_at bytes.now }
{
    &bytes[..word_size(bytes).min(bytes.len())]
}
