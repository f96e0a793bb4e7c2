//! Keywords and signs: their spellings, and their places in their lists by these.

ghost use Rattle.std.specs.Prelude.{◌≡◌, ◌<◌, ◌≤◌, ℕ, Some, Contains, [], ◌∷◌, length, slice_get, IfSome, IfNone};
ghost use Rattle.syntax.specs.Spellings.{keywords, signs};
ghost use Rattle.syntax.specs.Tables.{slot as slot_of, words_of};

use crate::token::sign;

/// The keywords, each at its place in their list.
const KEYWORDS: [&str; 51] = [
    "program",
    "end",
    "const",
    "device",
    "in",
    "out",
    "event",
    "monitor",
    "condition",
    "entry",
    "procedure",
    "function",
    "returns",
    "return",
    "process",
    "periodic",
    "atEvent",
    "frame",
    "first",
    "activation",
    "atTime",
    "var",
    "int",
    "boolean",
    "array",
    "of",
    "begin",
    "handler",
    "if",
    "then",
    "else",
    "for",
    "do",
    "exit",
    "when",
    "put",
    "get",
    "wait",
    "noLongerThan",
    "signal",
    "broadcast",
    "empty",
    "except",
    "assert",
    "and",
    "or",
    "not",
    "div",
    "mod",
    "true",
    "false",
];

/// The signs, each at its place in their list.
const SIGNS: [&str; 18] = [
    ":=", "..", ".", ":", ",", "(", ")", "[", "]", "+", "-", "*", "=", "<>", "<", "<=", ">", ">=",
];

/// The place in the list of keywords for each slot that one of them has, 0 for the others.
const PLACES: [u8; 128] = [
    16, 0, 0, 15, 0, 34, 0, 0, 0, 0, 5, 21, 0, 0, 0, 35, 0, 0, 0, 37, 0, 0, 13, 23, 0, 0, 0, 0, 12,
    32, 8, 41, 2, 0, 6, 0, 0, 28, 0, 0, 0, 0, 0, 31, 0, 0, 10, 45, 50, 33, 0, 42, 0, 19, 0, 43, 0,
    39, 14, 0, 44, 49, 0, 0, 48, 0, 30, 25, 0, 26, 0, 3, 0, 27, 0, 0, 0, 0, 0, 0, 1, 0, 7, 0, 0,
    46, 0, 0, 38, 0, 0, 0, 11, 0, 0, 0, 0, 0, 36, 0, 0, 0, 0, 9, 0, 0, 0, 0, 0, 4, 0, 0, 20, 0, 0,
    24, 22, 47, 29, 40, 17, 0, 0, 0, 0, 0, 0, 18,
];

/// How many bytes a keyword has at most.
const LONGEST_KEYWORD: usize = 12;

/// The slot of a word. No two keywords have the same.
fn slot(word: &[u8]) -> usize
    requires { length word.now ≤ 12 }
    ensures value { result ≡ slot_of word.now }
    ensures within { result < 128 }
{
    let len = word.len();
    if len < 2 {
        return 0;
    }
    let ends = 5 * usize::from(word[0]) + usize::from(word[len - 1]);
    (ends + 72 * usize::from(word[1]) + len) % 128
}

/// The place in the list of keywords that the word has if it is one.
fn place(word: &[u8]) -> u8
    requires { length word.now ≤ 12 }
    ensures within { result < length keywords }
    ensures only { (at : ℕ) → slice_get keywords at ≡ Some word.now → result ≡ at }
{
    PLACES[slot(word)]
}

/// The bytes of the word at this place of a table.
#[tactic(auto, using(crate::proofs::TableLemmas::word_at))]
fn bytes_at(table: &[&'static str], at: u8) -> &'static [u8]
    requires { at < length table.now }
    ensures { slice_get (words_of table.now) at ≡ Some result.now }
{
    table[usize::from(at)].as_bytes()
}

/// The bytes that spell the keyword at this place of the list of keywords, from 0.
pub fn keyword_spelling(at: u8) -> &'static [u8]
    requires { at < length keywords }
    ensures { slice_get keywords at ≡ Some result.now }
{
    bytes_at(&KEYWORDS, at)
}

/// The bytes that spell the sign at this place of the list of signs, from 0.
pub fn sign_spelling(at: u8) -> &'static [u8]
    requires { at < length signs }
    ensures { slice_get signs at ≡ Some result.now }
{
    bytes_at(&SIGNS, at)
}

/// The place of the word in the list of keywords, from 0.
pub fn keyword_at(word: &[u8]) -> Option<u8>
    ensures found { IfSome result (λ at. slice_get keywords at ≡ Some word.now) }
    ensures none { IfNone result (¬ Contains keywords word.now) }
{
    if word.len() > LONGEST_KEYWORD {
        return None;
    }
    let at = place(word);
    if keyword_spelling(at) == word {
        Some(at)
    } else {
        None
    }
}

/// The place of the byte in the list of signs, from 0.
fn short_sign_at(byte: u8) -> Option<u8>
    ensures found { IfSome result (λ at. slice_get signs at ≡ Some (byte ∷ [])) }
    ensures none { IfNone result (¬ Contains signs (byte ∷ [])) }
{
    match byte {
        b'(' => Some(sign::LEFT_PAREN),
        b')' => Some(sign::RIGHT_PAREN),
        b'*' => Some(sign::TIMES),
        b'+' => Some(sign::PLUS),
        b',' => Some(sign::COMMA),
        b'-' => Some(sign::MINUS),
        b'.' => Some(sign::DOT),
        b':' => Some(sign::COLON),
        b'<' => Some(sign::LESS),
        b'=' => Some(sign::EQUAL),
        b'>' => Some(sign::GREATER),
        b'[' => Some(sign::LEFT_BRACKET),
        b']' => Some(sign::RIGHT_BRACKET),
        _ => None,
    }
}

/// The place of the two bytes in the list of signs, from 0.
fn long_sign_at(first: u8, second: u8) -> Option<u8>
    ensures found { IfSome result (λ at. slice_get signs at ≡ Some (first ∷ second ∷ [])) }
    ensures none { IfNone result (¬ Contains signs (first ∷ second ∷ [])) }
{
    match (first, second) {
        (b':', b'=') => Some(sign::ASSIGN),
        (b'.', b'.') => Some(sign::RANGE),
        (b'<', b'>') => Some(sign::UNEQUAL),
        (b'<', b'=') => Some(sign::LESS_EQUAL),
        (b'>', b'=') => Some(sign::GREATER_EQUAL),
        _ => None,
    }
}

/// The place of the word in the list of signs, from 0.
pub fn sign_at(word: &[u8]) -> Option<u8>
    ensures found { IfSome result (λ at. slice_get signs at ≡ Some word.now) }
    ensures none { IfNone result (¬ Contains signs word.now) }
{
    match word {
        [byte] => short_sign_at(*byte),
        [first, second] => long_sign_at(*first, *second),
        _ => None,
    }
}
