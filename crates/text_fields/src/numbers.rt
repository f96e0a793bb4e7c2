//! Decimal numbers.

ghost use Rattle.std.specs.Prelude.{◌≡◌, ◌≤◌, length, IfOk};
ghost use Rattle.text_fields.specs.Front.{Gives, front};
ghost use Rattle.text_fields.specs.LineFields.{digits_len as digits_front, field_read, is_digit as digit_test, is_numeral as numeral_test, negative as negative_of, number_read, numeral_read, positive as positive_of, ranged as ranged_of, signed_read, small, value};

use crate::fault::{FieldError, FieldFault};
use crate::line_cursor::LineCursor;
use crate::line_walk::{begins_with, note, skip};
use crate::refusal;

/// Whether the byte is a digit.
pub fn is_digit(byte: u8) -> bool
    ensures { result ≡ digit_test byte }
{
    byte.is_ascii_digit()
}

/// How many digits the bytes begin with.
fn digits_len(bytes: &[u8]) -> usize
    ensures value { result ≡ digits_front bytes.now }
    ensures within { result ≤ length bytes.now }
{
    bytes.iter().take_while(|byte| is_digit(**byte)).count()
}

/// Whether digits spell a number: there is one, and the first of more is no 0.
pub fn is_numeral(digits: &[u8]) -> bool
    ensures { result ≡ numeral_test digits.now }
{
    match digits {
        [] => false,
        [_] => true,
        [first, _, ..] => *first != b'0',
    }
}

/// The number that the digits spell, where it has 32 bits.
fn small_value(digits: &[u8]) -> Option<u32>
    ensures { result ≡ small (value digits.now) }
{
    let mut value = 0;
    for digit in digits {
        value = 10 * value + u64::from(digit.saturating_sub(b'0'));
        if value > 4_294_967_295 {
            return None;
        }
    }
    Some(value as u32)
}

/// A number of any size; None stands for one that has more than 32 bits.
#[tactic(auto, unfolding(crate::specs::LineFields::numeral_read))]
pub fn numeral(at: LineCursor<'_>) -> Result<(Option<u32>, LineCursor<'_>), FieldError>
    ensures { Gives (λ x. (x.0, front x.1)) result (numeral_read (front at.entry)) }
{
    let len = digits_len(at.rest);
    let (digits, rest) = at.rest.split_at(len);
    if !is_numeral(digits) {
        return Err(FieldError::Fault(FieldFault {
            number: refusal::FORM,
            left: at.start,
        }));
    }
    let after = LineCursor {
        rest,
        start: at.start,
        is_fine: at.is_fine,
    };
    Ok((small_value(digits), after))
}

/// A number in its range; one that is not is noted, and 0 stands for it.
fn ranged(number: Option<u32>, low: u32, high: u32, at: LineCursor<'_>) -> (u32, LineCursor<'_>)
    ensures value { (result.0, front result.1) ≡ ranged_of low high number (front at.entry) }
    ensures within { result.0 ≤ high }
{
    match number {
        None => (0, note(at, false)),
        Some(number) => {
            if low <= number && number <= high {
                (number, at)
            } else {
                (0, note(at, false))
            }
        }
    }
}

/// A number within a range.
#[tactic(auto, unfolding(crate::specs::LineFields::number_read))]
pub fn number(at: LineCursor<'_>, low: u32, high: u32) -> Result<(u32, LineCursor<'_>), FieldError>
    ensures read { Gives (λ x. (x.0, front x.1)) result (number_read low high (front at.entry)) }
    ensures within { IfOk result (λ x. x.0 ≤ high) }
{
    let (number, at) = numeral(at)?;
    Ok(ranged(number, low, high, at))
}

/// A number within a range behind these bytes.
#[tactic(auto, unfolding(crate::specs::LineFields::field_read))]
pub fn field<'a>(
    at: LineCursor<'a>,
    label: &[u8],
    low: u32,
    high: u32,
) -> Result<(u32, LineCursor<'a>), FieldError>
    ensures read { Gives (λ x. (x.0, front x.1)) result
        (field_read label.now low high (front at.entry)) }
    ensures within { IfOk result (λ x. x.0 ≤ high) }
{
    let at = skip(at, label)?;
    number(at, low, high)
}

/// A number of 16 bits within a range behind these bytes.
pub fn short_field<'a>(
    at: LineCursor<'a>,
    label: &[u8],
    low: u16,
    high: u16,
) -> Result<(u16, LineCursor<'a>), FieldError>
    ensures { Gives (λ x. (x.0, front x.1)) result
        (field_read label.now low high (front at.entry)) }
{
    let (number, at) = field(at, label, u32::from(low), u32::from(high))?;
    Ok((number as u16, at))
}

/// A number below zero; 0 has no sign.
fn negative(number: Option<u32>, at: LineCursor<'_>) -> Result<(i32, LineCursor<'_>), FieldError>
    ensures { Gives (λ x. (x.0, front x.1)) result (negative_of number (front at.entry)) }
{
    match number {
        None => Ok((0, note(at, false))),
        Some(0) => Err(FieldError::Fault(FieldFault {
            number: refusal::FORM,
            left: at.start,
        })),
        Some(size) => {
            if size <= 2_147_483_648 {
                Ok((-(size as i64) as i32, at))
            } else {
                Ok((0, note(at, false)))
            }
        }
    }
}

/// A number that is not below zero.
fn positive(number: Option<u32>, at: LineCursor<'_>) -> (i32, LineCursor<'_>)
    ensures { (result.0, front result.1) ≡ positive_of number (front at.entry) }
{
    match number {
        None => (0, note(at, false)),
        Some(size) => {
            if size <= 2_147_483_647 {
                (size as i32, at)
            } else {
                (0, note(at, false))
            }
        }
    }
}

/// A number of 32 bits, with `-` where it is below zero.
#[tactic(auto, unfolding(crate::specs::LineFields::signed_read))]
pub fn signed(at: LineCursor<'_>) -> Result<(i32, LineCursor<'_>), FieldError>
    ensures { Gives (λ x. (x.0, front x.1)) result (signed_read (front at.entry)) }
{
    if begins_with(at.rest, b"-") {
        let at = skip(at, b"-")?;
        let (number, at) = numeral(at)?;
        return negative(number, at);
    }
    let (number, at) = numeral(at)?;
    Ok(positive(number, at))
}
