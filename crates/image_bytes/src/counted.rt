//! Reading the numbers that a handler takes.

ghost use Rattle.std.specs.Prelude.{◌≡◌, MatchOption, [], ◌∷◌, length, nat_eq};
ghost use Rattle.image_format.specs.Gives.{GivesOrFault};
ghost use Rattle.image_bytes.specs.Fields.{counted_numbers, numbers_fields};
ghost use Rattle.image_bytes.specs.Standing.{numbers_in};

use crate::numbers::HandlerNumbers;
use image_format::{ByteFault, u16_at};

/// So many numbers.
fn counted_at(bytes: &[u8], count: u16) -> Result<(HandlerNumbers<'_>, &[u8]), ByteFault>
    ensures { GivesOrFault (λ x. (numbers_in x.0, x.1.now)) result
        ((counted_numbers count).read bytes.now) }
{
    let mut rest = bytes;
    for _ in 0..count {
        rest = u16_at(rest)?.1;
    }
    Ok((HandlerNumbers { count, bytes }, rest))
}

/// How many numbers there are, and these.
pub(crate) fn numbers_at(bytes: &[u8]) -> Result<(HandlerNumbers<'_>, &[u8]), ByteFault>
    ensures { GivesOrFault (λ x. (numbers_in x.0, x.1.now)) result (numbers_fields.read bytes.now) }
{
    let (count, rest) = u16_at(bytes)?;
    counted_at(rest, count)
}

impl<'a> HandlerNumbers<'a> {
    /// Whether there is none.
    pub fn is_empty(&self) -> bool
        ensures { result ≡ nat_eq (length (numbers_in self.now)) 0 }
    {
        self.count == 0
    }

    /// The first of them and the others; none where there is none.
    pub fn split_first(self) -> Option<(u16, HandlerNumbers<'a>)>
        ensures { MatchOption result (numbers_in self.entry ≡ [])
            (λ x. numbers_in self.entry ≡ x.0 ∷ numbers_in x.1) }
    {
        if self.count == 0 {
            return None;
        }
        match u16_at(self.bytes) {
            Ok((number, bytes)) => {
                let count = self.count - 1;
                Some((number, HandlerNumbers { count, bytes }))
            }
            Err(_) => unreachable!(),
        }
    }
}

impl<'a> Iterator for HandlerNumbers<'a> {
    ghost use Rattle.std.specs.Iterator.{YieldsFirstBy, item_count};
    ghost use Rattle.image_bytes.specs.Standing.{numbers_in};

    type Item = u16;

    ghost next_gives = { YieldsFirstBy (λ n. n) numbers_in };

    ghost remaining = { item_count numbers_in };

    fn next(&mut self) -> Option<u16> {
        let (number, rest) = self.split_first()?;
        *self = rest;
        Some(number)
    }
}
