//! Room for a line, which is written from its end, without memory of its own.

ghost use Rattle.std.specs.Prelude.{◌≡◌, ◌≤◌, ◌<◌, ◌+◌, ◌^◌, ◌++◌, ◌∷◌, [], length, codes, decimal, drop};
ghost use Rattle.std.specs.Fmt.{signed_decimal};
ghost use Rattle.event_log.specs.Digits.{four_digits};

use crate::digits::{Digits, pair};
use itoa::write_digits;
use std::marker::Model;

/// More bytes than a line has.
const ROOM: usize = 320;

/// The bytes of a line. It is written from its last byte to its first, so that each part is put
/// where it lies, digits too. The digits of a tick but for its last four are kept for the next
/// line.
#[derive(Drop)]
pub struct LineBuffer {
    bytes: [u8; ROOM],
    start: usize,
    upper: Digits,
}

impl Model for LineBuffer {
    ghost use Rattle.std.specs.Prelude.{◌≤◌, List, ℕ, drop};

    ghost Value = { List ℕ };

    ghost view = { λ s. drop s.start s.bytes };

    ghost invariant = { λ s. s.start ≤ 320 };
}

impl LineBuffer {
    /// Room for a line; none is written yet.
    pub fn new() -> LineBuffer
        ensures { result ≡ [] }
    {
        LineBuffer {
            bytes: [0; ROOM],
            start: ROOM,
            upper: Digits::of(0),
        }
    }

    /// Forgets what was written.
    #[inline(always)]
    fn clear(&mut self)
        ensures { self.new ≡ [] }
    {
        self.start = ROOM;
    }

    /// Begins a line, at its end: puts its LF.
    #[inline(always)]
    pub(crate) fn begin(&mut self)
        ensures { self.new ≡ codes "\n" }
    {
        self.clear();
        self.put_byte(b'\n');
    }

    /// Puts bytes that fit in front.
    #[inline(always)]
    pub(crate) fn put(&mut self, bytes: &[u8])
        requires { length bytes.now + length self.old ≤ 320 }
        ensures items { self.new ≡ bytes.now ++ self.old }
        ensures len { length self.new ≡ length bytes.now + length self.old }
    {
        let start = self.start - bytes.len();
        self.bytes[start..self.start].copy_from_slice(bytes);
        self.start = start;
    }

    /// Puts a byte that fits in front.
    #[inline(always)]
    pub(crate) fn put_byte(&mut self, byte: u8)
        requires { length self.old < 320 }
        ensures items { self.new ≡ byte ∷ self.old }
        ensures len { length self.new ≡ 1 + length self.old }
    {
        self.start -= 1;
        self.bytes[self.start] = byte;
    }

    /// Puts a number that fits in front.
    #[inline(always)]
    pub(crate) fn put_number(&mut self, number: u64)
        requires { length (decimal number) + length self.old ≤ 320 }
        ensures items { self.new ≡ decimal number ++ self.old }
        ensures len { length self.new ≡ length (decimal number) + length self.old }
    {
        self.start = write_digits(number, &mut self.bytes, self.start);
    }

    /// Puts a number with its sign in front.
    #[inline(always)]
    pub(crate) fn put_signed(&mut self, number: i32)
        requires { length self.old ≤ 300 }
        ensures items { self.new ≡ signed_decimal number ++ self.old }
        ensures len { length self.new ≤ 11 + length self.old }
    {
        self.put_number(u64::from(number.unsigned_abs()));
        if number < 0 {
            self.put_byte(b'-');
        }
    }

    /// Puts a number in front, with four digits.
    #[inline(always)]
    fn put_four(&mut self, number: u64)
        requires number { number < 10000 }
        requires room { length self.old ≤ 310 }
        ensures items { self.new ≡ four_digits number ++ self.old }
    {
        self.put(&pair(number % 100));
        self.put(&pair(number / 100));
    }

    /// Takes so many bytes off the front.
    #[inline(always)]
    fn skip(&mut self, count: usize)
        requires { count ≤ length self.old }
        ensures { self.new ≡ drop count self.old }
    {
        self.start += count;
    }

    /// Puts digits in front.
    #[inline(always)]
    #[tactic(auto, using(crate::proofs::TickDigits::front_gone))]
    fn put_digits(&mut self, digits: Digits)
        requires room { length self.old ≤ 310 }
        ensures items { self.new ≡ decimal digits.number ++ self.old }
    {
        self.put(&digits.bytes);
        self.skip(digits.start);
    }

    /// The digits of a number, which are made where others are kept.
    #[inline(always)]
    fn upper_digits(&mut self, number: u64) -> Digits
        requires { number < 10 ^ 8 }
        ensures digits { result.number ≡ number }
        ensures same { self.new ≡ self.old }
    {
        if number != self.upper.number {
            self.upper = Digits::of(number);
        }
        self.upper
    }

    /// Puts a tick in front.
    #[inline(always)]
    #[tactic(auto, using(crate::proofs::TickDigits::tick_short))]
    pub(crate) fn put_tick(&mut self, tick: u64)
        requires tick { tick < 1000000000 }
        requires room { length self.old ≤ 300 }
        ensures items { self.new ≡ decimal tick ++ self.old }
        ensures len { length self.new ≤ 9 + length self.old }
    {
        if tick < 10_000 {
            return self.put_number(tick);
        }
        let upper = self.upper_digits(tick / 10_000);
        self.put_four(tick % 10_000);
        self.put_digits(upper);
    }

    /// The bytes of the line.
    #[inline(always)]
    pub fn as_slice(&self) -> &[u8]
        ensures { result.now ≡ self.now }
    {
        &self.bytes[self.start..]
    }
}
