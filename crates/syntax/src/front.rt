//! What stands at the front of a text: a blank, a comment or a token.

ghost use Rattle.std.specs.Prelude.{◌≡◌, ◌<◌, ◌≤◌, length, take, slice_get, Contains, Some, IfSome, IfNone, IfOk, IfErr, IsTrue};
ghost use Rattle.std.specs.List.{prefix_len, list_all};
ghost use Rattle.syntax.specs.Fronts.{BeginsWith, IsBad, is_other};
ghost use Rattle.syntax.specs.Spellings.{is_letter as letter_test, is_digit as digit_test, is_word as word_test, decimal, greatest_literal, signs};
ghost use Rattle.syntax.specs.Tokens.{is_blank as blank_test, is_in_line as line_test, line_len as line_length, Begins};

use crate::table::{keyword_at, sign_at};
use crate::token::TokenKind;

/// The greatest value of a literal.
const GREATEST_LITERAL: u64 = 2_147_483_647;

/// How many bytes an identifier has at most.
const LONGEST_NAME: usize = 63;

/// A piece of a text, and how many bytes it takes; a blank takes one.
#[derive(Clone, Copy)]
pub enum Front {
    Blank,
    Comment { len: usize },
    Token { kind: TokenKind, len: usize },
}

/// Why some bytes begin with no piece.
#[derive(Clone, Copy)]
pub enum Cause {
    /// The first byte begins no piece.
    Byte,
    /// A literal is too large.
    Literal,
    /// An identifier is too long.
    Ident,
}

fn is_blank(b: u8) -> bool
    ensures { result ≡ blank_test b }
{
    matches!(b, b' ' | b'\t' | b'\r' | b'\n')
}

fn is_letter(b: u8) -> bool
    ensures { result ≡ letter_test b }
{
    b.is_ascii_alphabetic()
}

fn is_digit(b: u8) -> bool
    ensures { result ≡ digit_test b }
{
    b.is_ascii_digit()
}

fn is_word(b: u8) -> bool
    ensures { result ≡ word_test b }
{
    is_letter(b) || is_digit(b) || b == b'_'
}

fn is_in_line(b: u8) -> bool
    ensures { result ≡ line_test b }
{
    b != b'\n'
}

/// How many bytes of an identifier the bytes begin with.
fn word_len(bytes: &[u8]) -> usize
    ensures value { result ≡ prefix_len word_test bytes.now }
    ensures within { result ≤ length bytes.now }
{
    bytes.iter().take_while(|b| is_word(**b)).count()
}

/// How many digits the bytes begin with.
fn digit_len(bytes: &[u8]) -> usize
    ensures value { result ≡ prefix_len digit_test bytes.now }
    ensures within { result ≤ length bytes.now }
{
    bytes.iter().take_while(|b| is_digit(**b)).count()
}

/// How many bytes stand before the end of the line.
fn line_len(bytes: &[u8]) -> usize
    ensures value { result ≡ line_length bytes.now }
    ensures within { result ≤ length bytes.now }
{
    bytes.iter().take_while(|b| is_in_line(**b)).count()
}

/// The value of the digits, or None where it is above the greatest of a literal.
fn literal_value(digits: &[u8]) -> Option<u32>
    requires { IsTrue (list_all digit_test digits.now) }
    ensures value { IfSome result (λ value. value ≡ decimal digits.now) }
    ensures small { IfSome result (λ value. value ≤ greatest_literal) }
    ensures none { IfNone result (greatest_literal < decimal digits.now) }
{
    let mut value = 0;
    for digit in digits {
        value = 10 * value + u64::from(*digit - b'0');
        if value > GREATEST_LITERAL {
            return None;
        }
    }
    Some(value as u32)
}

/// The identifier or keyword that the bytes begin with.
fn word(bytes: &[u8]) -> Result<Front, Cause>
    requires { Begins letter_test bytes.now }
    ensures ok { IfOk result (λ front. BeginsWith bytes.now front) }
    ensures err { IfErr result (λ cause. IsBad bytes.now cause) }
{
    let len = word_len(bytes);
    if len > LONGEST_NAME {
        return Err(Cause::Ident);
    }
    let kind = match keyword_at(&bytes[..len]) {
        Some(at) => TokenKind::Keyword { at },
        None => TokenKind::Ident,
    };
    Ok(Front::Token { kind, len })
}

/// The literal that the bytes begin with.
fn literal(bytes: &[u8]) -> Result<Front, Cause>
    requires { Begins digit_test bytes.now }
    ensures ok { IfOk result (λ front. BeginsWith bytes.now front) }
    ensures err { IfErr result (λ cause. IsBad bytes.now cause) }
{
    let len = digit_len(bytes);
    match literal_value(&bytes[..len]) {
        Some(value) => Ok(Front::Token {
            kind: TokenKind::Literal { value },
            len,
        }),
        None => Err(Cause::Literal),
    }
}

/// The sign that the first `len` bytes are, where there are so many.
fn sign_of(bytes: &[u8], len: usize) -> Option<u8>
    ensures within { IfSome result (λ at. len ≤ length bytes.now) }
    ensures found { IfSome result (λ at. slice_get signs at ≡ Some (take len bytes.now)) }
    ensures none { IfNone result (len ≤ length bytes.now →
        ¬ Contains signs (take len bytes.now)) }
{
    let front = bytes.get(..len)?;
    sign_at(front)
}

/// The sign that the bytes begin with.
fn sign(bytes: &[u8]) -> Result<Front, Cause>
    requires { Begins is_other bytes.now }
    ensures ok { IfOk result (λ front. BeginsWith bytes.now front) }
    ensures err { IfErr result (λ cause. IsBad bytes.now cause) }
{
    if let Some(at) = sign_of(bytes, 2) {
        return Ok(Front::Token {
            kind: TokenKind::Sign { at },
            len: 2,
        });
    }
    match sign_of(bytes, 1) {
        Some(at) => Ok(Front::Token {
            kind: TokenKind::Sign { at },
            len: 1,
        }),
        None => Err(Cause::Byte),
    }
}

/// The piece that the bytes begin with, or why they begin with none.
pub fn read(bytes: &[u8]) -> Result<Front, Cause>
    requires { 0 < length bytes.now }
    ensures ok { IfOk result (λ front. BeginsWith bytes.now front) }
    ensures err { IfErr result (λ cause. IsBad bytes.now cause) }
{
    let first = bytes[0];
    if is_blank(first) {
        return Ok(Front::Blank);
    }
    if first == b'%' {
        return Ok(Front::Comment {
            len: line_len(bytes),
        });
    }
    if is_letter(first) {
        return word(bytes);
    }
    if is_digit(first) {
        return literal(bytes);
    }
    sign(bytes)
}
