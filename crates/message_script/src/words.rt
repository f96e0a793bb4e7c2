//! The words of a line.

ghost use Rattle.std.specs.Prelude.{◌≡◌, ◌≤◌, ◌+◌, length, option_map, IfSome};
ghost use Rattle.message_script.specs.Words.{begins, first_word, is_end, is_word, seen, word_at};

use message_text::cut;

/// A word, and the column of its first byte.
#[derive(Clone, Copy)]
pub(crate) struct Word<'a> {
    pub column: usize,
    pub bytes: &'a [u8],
}

/// The word at this place, from 0, of a line that is cut at each blank.
#[tactic(auto, unfolding(crate::specs::Words::word_at))]
pub(crate) fn word_at(line: &[u8], place: usize) -> Option<Word<'_>>
    ensures value { option_map seen result ≡ word_at line.now place }
    ensures within { IfSome result (λ it.
        it.column + length it.bytes.now ≤ length line.now + 1) }
{
    let mut left = line;
    let mut column = 1;
    for _before in 0..place {
        let (first, rest) = cut(left, b' ');
        match rest {
            None => return None,
            Some(more) => {
                column += first.len() + 1;
                left = more;
            }
        }
    }
    Some(Word {
        column,
        bytes: cut(left, b' ').0,
    })
}

/// The first word of a line.
#[tactic(auto, unfolding(crate::specs::Words::first_word))]
pub(crate) fn first_word(line: &[u8]) -> Word<'_>
    ensures { seen result ≡ first_word line.now }
{
    Word {
        column: 1,
        bytes: cut(line, b' ').0,
    }
}

/// Whether a line says the end.
#[tactic(auto, unfolding(crate::specs::Words::is_end))]
pub(crate) fn is_end(line: &[u8]) -> bool
    ensures { result ≡ is_end line.now }
{
    first_word(line).bytes == b"end".as_slice()
}

/// Whether there is a word, and it is this.
pub(crate) fn is_word(word: Option<Word<'_>>, bytes: &[u8]) -> bool
    ensures { result ≡ is_word (option_map seen word.entry) bytes.now }
{
    match word {
        None => false,
        Some(found) => found.bytes == bytes,
    }
}

/// Whether this is the first byte.
#[tactic(auto, unfolding(crate::specs::Words::begins))]
pub(crate) fn begins(byte: u8, bytes: &[u8]) -> bool
    ensures { result ≡ begins byte bytes.now }
{
    match bytes {
        [] => false,
        [first, ..] => *first == byte,
    }
}
