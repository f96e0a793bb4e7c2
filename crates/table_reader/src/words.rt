//! The words of a line, from left to right.

ghost use Rattle.std.specs.Prelude.{◌≡◌, Some, option_map};
ghost use Rattle.table_reader.specs.Words.{after_key as read_after, first_word, left, optional as read_optional, optional_seen, seen_next};

use text_fields::cut_at;

/// The words that are left of a line; None behind the last one.
#[derive(Clone, Copy)]
pub struct Words<'a> {
    pub rest: Option<&'a [u8]>,
}

/// A word, and the words behind it.
#[derive(Clone, Copy)]
pub struct NextWord<'a> {
    pub word: &'a [u8],
    pub words: Words<'a>,
}

/// A word that may be left out, and the words behind it.
#[derive(Clone, Copy)]
pub struct OptionalWord<'a> {
    pub word: Option<&'a [u8]>,
    pub words: Words<'a>,
}

/// The first of some bytes' words, and the words behind it.
fn first_of(bytes: &[u8]) -> NextWord<'_>
    ensures { Some (seen_next result) ≡ first_word (left (Some bytes.entry)) }
{
    match cut_at(bytes, b' ') {
        None => NextWord {
            word: bytes,
            words: Words { rest: None },
        },
        Some(cut) => NextWord {
            word: cut.before,
            words: Words {
                rest: Some(cut.after),
            },
        },
    }
}

/// The next word, if there is one.
pub fn next_word(words: Words<'_>) -> Option<NextWord<'_>>
    ensures { option_map seen_next result ≡ first_word (left words.entry.rest) }
{
    match words.rest {
        None => None,
        Some(bytes) => Some(first_of(bytes)),
    }
}

/// The word behind the key, which must stand there.
pub fn after_key<'a>(words: Words<'a>, key: &[u8]) -> Option<NextWord<'a>>
    ensures { option_map seen_next result ≡ read_after key.now (left words.entry.rest) }
{
    match next_word(words) {
        None => None,
        Some(first) => {
            if first.word != key {
                return None;
            }
            next_word(first.words)
        }
    }
}

/// The word behind the key, where that stands there and a word is behind it.
pub fn optional<'a>(words: Words<'a>, key: &[u8]) -> OptionalWord<'a>
    ensures { optional_seen result ≡ read_optional key.now (left words.entry.rest) }
{
    match after_key(words, key) {
        None => OptionalWord { word: None, words },
        Some(next) => OptionalWord {
            word: Some(next.word),
            words: next.words,
        },
    }
}
