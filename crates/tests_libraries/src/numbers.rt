//! Words and capped numbers at their limits.

use base::{OVER, add32, cap_add, cap_mul, ceil_div, div32, mod32, mul32, neg32, sub32};
use std::test::Fail;

/// What a call gives, and what it has to give.
type Number = (u64, u64);

/// The same of a call that gives a word, or the number of an exception.
type Word = (Result<i32, u16>, Result<i32, u16>);

fn are_numbers(rows: &[Number]) -> Result<(), Fail> {
    for &(found, want) in rows {
        if found != want {
            return Err(Fail::new(format_args!("{found}, not {want}")));
        }
    }
    Ok(())
}

fn is_word(found: Result<i32, u16>, want: Result<i32, u16>) -> bool {
    match (found, want) {
        (Ok(found), Ok(want)) => found == want,
        (Err(found), Err(want)) => found == want,
        _ => false,
    }
}

fn are_words(rows: &[Word]) -> Result<(), Fail> {
    for &(found, want) in rows {
        if !is_word(found, want) {
            return Err(Fail::new(format_args!("{found:?}, not {want:?}")));
        }
    }
    Ok(())
}

#[test]
fn quotients_are_rounded_up() -> Result<(), Fail> {
    are_numbers(&[
        (ceil_div(59, 20), 3),
        (ceil_div(60, 20), 3),
        (ceil_div(61, 20), 4),
        (ceil_div(u64::MAX, 1), u64::MAX),
    ])
}

#[test]
fn larger_numbers_are_over() -> Result<(), Fail> {
    are_numbers(&[
        (cap_add(999_999_999, 1), 1_000_000_000),
        (cap_add(OVER, OVER), 1_000_000_001),
        (cap_mul(31_622, 31_623), 999_982_506),
        (cap_mul(OVER, 2), 1_000_000_001),
    ])
}

#[test]
fn sums_at_the_limits() -> Result<(), Fail> {
    are_words(&[
        (add32(i32::MAX, i32::MIN), Ok(-1)),
        (add32(i32::MAX, 1), Err(1)),
        (sub32(-1, i32::MIN), Ok(i32::MAX)),
        (sub32(0, i32::MIN), Err(1)),
        (neg32(i32::MAX), Ok(-2_147_483_647)),
        (neg32(i32::MIN), Err(1)),
    ])
}

#[test]
fn products_at_the_limits() -> Result<(), Fail> {
    are_words(&[
        (mul32(65_536, -32_768), Ok(i32::MIN)),
        (mul32(65_536, 32_768), Err(1)),
        (mul32(-1, i32::MIN), Err(1)),
    ])
}

#[test]
fn quotients_are_truncated() -> Result<(), Fail> {
    are_words(&[
        (div32(-7, 2), Ok(-3)),
        (div32(7, -2), Ok(-3)),
        (div32(i32::MIN, -1), Err(1)),
        (div32(i32::MIN, 0), Err(2)),
    ])
}

#[test]
fn remainders_have_the_sign_of_the_left() -> Result<(), Fail> {
    are_words(&[
        (mod32(-7, 2), Ok(-1)),
        (mod32(7, -2), Ok(1)),
        (mod32(i32::MIN, -1), Ok(0)),
        (mod32(i32::MIN, 0), Err(2)),
    ])
}
