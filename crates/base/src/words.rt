//! Arithmetic on words. An `Err` is the number of the exception that the operation raises: 1,
//! overflow, where the result is no word, and 2 where the divisor is zero.

ghost use Rattle.base.specs.Words.{IsAnswer, sum, difference, product, quotient, remainder, negated};

/// The exception of a result that is no word.
const OVERFLOW: u16 = 1;

/// The exception of a zero divisor.
const ZERO_DIVISOR: u16 = 2;

/// The exact sum; 1 where it is no word.
pub fn add32(a: i32, b: i32) -> Result<i32, u16>
    ensures { IsAnswer (sum a b) result }
{
    a.checked_add(b).ok_or(OVERFLOW)
}

/// The exact difference; 1 where it is no word.
pub fn sub32(a: i32, b: i32) -> Result<i32, u16>
    ensures { IsAnswer (difference a b) result }
{
    a.checked_sub(b).ok_or(OVERFLOW)
}

/// The exact product; 1 where it is no word.
pub fn mul32(a: i32, b: i32) -> Result<i32, u16>
    ensures { IsAnswer (product a b) result }
{
    a.checked_mul(b).ok_or(OVERFLOW)
}

/// The exact quotient, truncated toward zero; 2 where `b` is 0, and 1 where the quotient is no
/// word, which is
/// -2147483648 by -1 alone.
pub fn div32(a: i32, b: i32) -> Result<i32, u16>
    ensures { IsAnswer (quotient a b) result }
{
    if b == 0 {
        return Err(ZERO_DIVISOR);
    }
    a.checked_div(b).ok_or(OVERFLOW)
}

/// What `div32` leaves of `a`, with the sign of `a`: 0 for -2147483648 by -1. 2 where `b` is 0, and
/// never 1.
pub fn mod32(a: i32, b: i32) -> Result<i32, u16>
    ensures { IsAnswer (remainder a b) result }
{
    match b {
        0 => Err(ZERO_DIVISOR),
        -1 => Ok(0),
        _ => Ok(a % b),
    }
}

/// The exact negation; 1 for -2147483648 alone.
pub fn neg32(a: i32) -> Result<i32, u16>
    ensures { IsAnswer (negated a) result }
{
    a.checked_neg().ok_or(OVERFLOW)
}
