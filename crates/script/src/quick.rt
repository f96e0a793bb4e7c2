//! A line in one of the forms that most lines have, read in one pass.

ghost use Rattle.std.specs.Prelude.{◌≡◌, ◌≤◌, ◌<◌, ◌^◌, ◌++◌, ◌∷◌, decimal, length, true, slice_index_or, IfSome};
ghost use Rattle.std.specs.Fmt.{signed_decimal};
ghost use Rattle.text_fields.specs.Fields.{IsWord};
ghost use Rattle.script.specs.Saying.{Begins};
ghost use Rattle.std.specs.List.{prefix_len};
ghost use Rattle.script.specs.Reading.{is_in_word, seen};

use crate::line::{LAST_TICK, Line};
use text_fields::Cut;

/// The first line of some bytes, and the bytes after it.
#[derive(Clone, Copy)]
pub struct First<'a> {
    pub line: Line<'a>,
    pub rest: &'a [u8],
}

/// A number that bytes begin with, and the bytes behind the one that ends it.
#[derive(Clone, Copy)]
struct Front<'a> {
    number: u64,
    rest: &'a [u8],
}

/// A value that bytes begin with, and the bytes behind its LF.
#[derive(Clone, Copy)]
struct Valued<'a> {
    value: i32,
    rest: &'a [u8],
}

/// More digits than a number of a line has, so that the steps over them stand in the code one by
/// one.
const MOST_DIGITS: usize = 11;

/// Whether so many digits that the bytes begin with are a number: there is one, and the first of
/// more is no 0.
#[inline(always)]
fn is_spelled(bytes: &[u8], len: usize) -> bool
    requires { len < length bytes.now }
    ensures some { result ≡ true → 0 < len }
    ensures first { result ≡ true → slice_index_or bytes.now 0 0 ≡ 48 → len ≡ 1 }
{
    len == 1 || (len > 1 && bytes[0] != b'0')
}

/// The number up to this byte, which is no digit. None where there is none, or it is above `most`.
#[inline(always)]
fn number_to(bytes: &[u8], stop: u8, most: u64) -> Option<Front<'_>>
    requires { most < 2 ^ 32 }
    ensures found { IfSome result (λ it. bytes.now ≡ decimal it.number ++ stop ∷ it.rest.now) }
    ensures small { IfSome result (λ it. it.number ≤ most) }
{
    let mut number = 0;
    for at in 0..MOST_DIGITS {
        if at >= bytes.len() {
            return None;
        }
        let byte = bytes[at];
        if byte < b'0' || byte > b'9' {
            if byte != stop || !is_spelled(bytes, at) {
                return None;
            }
            return Some(Front {
                number,
                rest: &bytes[at + 1..],
            });
        }
        number = 10 * number + u64::from(byte - b'0');
        if number > most {
            return None;
        }
    }
    None
}

/// The value up to the LF, which is not below zero.
#[inline(always)]
fn value_to(bytes: &[u8]) -> Option<Valued<'_>>
    ensures { IfSome result (λ it. bytes.now ≡ signed_decimal it.value ++ 10 ∷ it.rest.now) }
{
    match number_to(bytes, b'\n', 2_147_483_647) {
        None => None,
        Some(Front { number, rest }) => Some(Valued {
            value: number as i32,
            rest,
        }),
    }
}

/// How many bytes stand before the first space or LF, or before the end.
#[inline(always)]
fn word_len(bytes: &[u8]) -> usize
    ensures value { result ≡ prefix_len is_in_word bytes.now }
    ensures within { result ≤ length bytes.now }
{
    bytes
        .iter()
        .take_while(|byte| **byte != b' ' && **byte != b'\n')
        .count()
}

/// The word up to the space, and the bytes behind it.
#[inline(always)]
fn word_to(bytes: &[u8]) -> Option<Cut<'_>>
    ensures found { IfSome result (λ cut. bytes.now ≡ cut.before.now ++ 32 ∷ cut.after.now) }
    ensures word { IfSome result (λ cut. IsWord cut.before.now) }
{
    let len = word_len(bytes);
    if len == 0 || len == bytes.len() || bytes[len] != b' ' {
        return None;
    }
    Some(Cut {
        before: &bytes[..len],
        after: &bytes[len + 1..],
    })
}

/// The first line of the bytes, where it sets a device to a value that is not below zero.
#[inline(always)]
#[tactic(auto, using(crate::proofs::OnePass::set_begins))]
pub fn quick_line(bytes: &[u8]) -> Option<First<'_>>
    ensures { IfSome result (λ first. Begins bytes.now (seen first.line) first.rest.now) }
{
    let Some(Front { number, rest }) = number_to(bytes, b' ', LAST_TICK) else {
        return None;
    };
    let [b's', b'e', b't', b' ', named @ ..] = rest else {
        return None;
    };
    let Some(word) = word_to(named) else {
        return None;
    };
    let Some(Valued { value, rest }) = value_to(word.after) else {
        return None;
    };
    let line = Line::Set {
        tick: number,
        dev: word.before,
        value,
    };
    Some(First { line, rest })
}
