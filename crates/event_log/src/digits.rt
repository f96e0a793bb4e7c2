//! Digits of numbers.

ghost use Rattle.std.specs.Prelude.{◌≡◌, ◌≤◌, ◌<◌, ◌^◌, decimal, drop};
ghost use Rattle.event_log.specs.Digits.{two_digits};

use itoa::write_digits;

/// How many digits are kept.
pub(crate) const UPPER: usize = 8;

/// A number, and its digits at the end of some bytes.
#[derive(Clone, Copy)]
pub(crate) struct Digits {
    pub(crate) number: u64,
    pub(crate) bytes: [u8; UPPER],
    pub(crate) start: usize,
    ghost within: { start ≤ 8 },
    ghost spelled: { drop start bytes ≡ decimal number },
}

impl Digits {
    /// The digits of a number.
    pub(crate) fn of(number: u64) -> Digits
        requires { number < 10 ^ 8 }
        ensures { result.number ≡ number }
    {
        let mut bytes = [0; UPPER];
        let start = write_digits(number, &mut bytes, UPPER);
        Digits {
            number,
            bytes,
            start,
        }
    }
}

/// The digits of each number below 100, two of each.
static PAIRS: [u8; 200] =
    *b"00010203040506070809101112131415161718192021222324252627282930313233343536373839404142434445464748495051525354555657585960616263646566676869707172737475767778798081828384858687888990919293949596979899";

/// The two digits of a number below 100.
#[inline(always)]
pub(crate) fn pair(number: u64) -> [u8; 2]
    requires { number < 100 }
    ensures { result ≡ two_digits number }
{
    let at = number as usize * 2;
    [PAIRS[at], PAIRS[at + 1]]
}
