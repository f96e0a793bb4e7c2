//! Ticks and values that are none.

ghost use Rattle.std.specs.Prelude.{◌≡◌, ◌<◌, ◌^◌, IfOk, nat_lt};
ghost use Rattle.std.specs.List.{list_all};
ghost use Rattle.text_fields.specs.LineFields.{is_digit as is_digit_byte, value};
ghost use Rattle.message_script.specs.Numbers.{digits_flaw, flaw_sentence, has_leading_zero};
ghost use Rattle.message_script.specs.Numbers.{is_digits, is_negative, is_outside, is_tick};
ghost use Rattle.message_script.specs.Numbers.{most, not_in, number_flaw, range, sort_name, unsigned};

use crate::telling::with_quoted;
use crate::words::begins;
use message_text::add_quoted;
use out_of_memory::OutOfMemory;
use std::alloc::Global;
use syntax_tree::Text;
use text_fields::is_digit;

/// The numbers of a line: the tick of the end, any other tick, and the value of a device.
#[derive(Clone, Copy)]
pub(crate) enum Sort {
    End,
    Tick,
    Value,
}

/// Why a word is no such number.
#[derive(Clone, Copy)]
pub(crate) enum Flaw {
    /// It begins with `+`.
    Plus,
    /// It is not one or more digits, a `-` before them aside.
    NoNumber,
    /// `-` stands before a tick.
    Minus,
    /// A 0 stands before other digits.
    LeadingZero,
    /// `-` stands before 0.
    MinusZero,
    /// It is too great, or too low.
    Outside,
}

/// Whether all bytes are digits.
fn are_digits(word: &[u8]) -> bool
    ensures { result ≡ list_all is_digit_byte word.now }
{
    word.iter().all(|byte| is_digit(*byte))
}

/// Whether the word is one or more digits.
#[tactic(auto, unfolding(crate::specs::Numbers::is_digits))]
pub(crate) fn is_digits(word: &[u8]) -> bool
    ensures { result ≡ is_digits word.now }
{
    !word.is_empty() && are_digits(word)
}

/// Whether `-` stands before the word.
#[tactic(auto, unfolding(crate::specs::Numbers::is_negative))]
fn is_negative(word: &[u8]) -> bool
    ensures { result ≡ is_negative word.now }
{
    begins(b'-', word)
}

/// The word without a `-` before it.
#[tactic(auto, unfolding(crate::specs::Numbers::unsigned))]
fn unsigned(word: &[u8]) -> &[u8]
    ensures { result.now ≡ unsigned word.now }
{
    if !is_negative(word) {
        return word;
    }
    match word {
        [] => word,
        [_, digits @ ..] => digits,
    }
}

/// Whether a 0 stands before other digits.
#[tactic(auto, unfolding(crate::specs::Numbers::has_leading_zero))]
fn has_leading_zero(digits: &[u8]) -> bool
    ensures { result ≡ has_leading_zero digits.now }
{
    begins(b'0', digits) && digits.len() > 1
}

/// Whether it is a tick.
#[tactic(auto, unfolding(crate::specs::Numbers::is_tick))]
fn is_tick(sort: Sort) -> bool
    ensures { result ≡ is_tick sort }
{
    match sort {
        Sort::End | Sort::Tick => true,
        Sort::Value => false,
    }
}

/// The greatest number of its sort, or the greatest below zero without its sign.
#[tactic(auto, unfolding(crate::specs::Numbers::most))]
fn most(sort: Sort, is_negative: bool) -> u64
    ensures is { result ≡ most sort is_negative }
    ensures within { result < 2 ^ 32 }
{
    match sort {
        Sort::End => 1_000_000_000,
        Sort::Tick => 999_999_999,
        Sort::Value => {
            if is_negative {
                2_147_483_648
            } else {
                2_147_483_647
            }
        }
    }
}

/// Whether digits are a number greater than this.
fn is_above(most: u64, digits: &[u8]) -> bool
    requires { most < 2 ^ 32 }
    ensures { result ≡ nat_lt most (value digits.now) }
{
    let mut value = 0;
    for digit in digits {
        value = 10 * value + u64::from(digit.saturating_sub(b'0'));
        if value > most {
            return true;
        }
    }
    false
}

/// Whether digits are a number outside the range of its sort.
#[tactic(auto, unfolding(crate::specs::Numbers::is_outside))]
fn is_outside(sort: Sort, is_negative: bool, digits: &[u8]) -> bool
    ensures { result ≡ is_outside sort is_negative digits.now }
{
    is_above(most(sort, is_negative), digits)
}

/// What is wrong with the digits of a number, behind its `-` if it has one.
#[tactic(auto, unfolding(crate::specs::Numbers::digits_flaw))]
fn digits_flaw(sort: Sort, is_negative: bool, digits: &[u8]) -> Option<Flaw>
    ensures { result ≡ digits_flaw sort is_negative digits.now }
{
    if !is_digits(digits) {
        return Some(Flaw::NoNumber);
    }
    if is_tick(sort) && is_negative {
        return Some(Flaw::Minus);
    }
    if has_leading_zero(digits) {
        return Some(Flaw::LeadingZero);
    }
    if is_negative && begins(b'0', digits) {
        return Some(Flaw::MinusZero);
    }
    if is_outside(sort, is_negative, digits) {
        return Some(Flaw::Outside);
    }
    None
}

/// What is wrong with a number; the first that applies.
#[tactic(auto, unfolding(crate::specs::Numbers::number_flaw))]
pub(crate) fn number_flaw(sort: Sort, word: &[u8]) -> Option<Flaw>
    ensures { result ≡ number_flaw sort word.now }
{
    if begins(b'+', word) {
        return Some(Flaw::Plus);
    }
    digits_flaw(sort, is_negative(word), unsigned(word))
}

/// What a number is called.
#[tactic(auto, unfolding(crate::specs::Numbers::sort_name))]
fn sort_name(sort: Sort) -> &'static [u8]
    ensures { result.now ≡ sort_name sort }
{
    match sort {
        Sort::End | Sort::Tick => b"the tick ",
        Sort::Value => b"the value ",
    }
}

/// The range of a number.
#[tactic(auto, unfolding(crate::specs::Numbers::range))]
fn range(sort: Sort) -> &'static [u8]
    ensures { result.now ≡ range sort }
{
    match sort {
        Sort::End => b"0 .. 1000000000",
        Sort::Tick => b"0 .. 999999999",
        Sort::Value => b"-2147483648 .. 2147483647",
    }
}

/// What a number is called, the number, and the range that it is outside of.
fn not_in(alloc: Global, name: &[u8], word: &[u8], range: &[u8]) -> Result<Text, OutOfMemory>
    ensures { IfOk result (λ text. text ≡ not_in name.now word.now range.now) }
{
    let mut text = Text::from_bytes(alloc, name)?;
    add_quoted(&mut text, word)?;
    text.extend(b" is not in ")?;
    text.extend(range)?;
    Ok(text)
}

/// What is wrong with a number.
#[tactic(auto, unfolding(crate::specs::Numbers::flaw_sentence))]
pub(crate) fn flaw_sentence(
    alloc: Global,
    sort: Sort,
    word: &[u8],
    flaw: Flaw,
) -> Result<Text, OutOfMemory>
    ensures { IfOk result (λ text. text ≡ flaw_sentence sort word.now flaw) }
{
    match flaw {
        Flaw::Plus => Text::from_bytes(alloc, b"`+` stands before no number"),
        Flaw::NoNumber => with_quoted(alloc, word, b" is no whole number"),
        Flaw::Minus => Text::from_bytes(alloc, b"`-` stands before no tick"),
        Flaw::LeadingZero => with_quoted(alloc, word, b" has a leading zero"),
        Flaw::MinusZero => Text::from_bytes(alloc, b"`-` stands before no 0"),
        Flaw::Outside => not_in(alloc, sort_name(sort), word, range(sort)),
    }
}
