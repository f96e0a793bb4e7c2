//! Fields of an image: the number that the bytes begin with, and the bytes after it.

ghost use Rattle.std.specs.Prelude.{◌≡◌};
ghost use Rattle.image_format.specs.Gives.{GivesOrFault};
ghost use Rattle.image_format.specs.TreeFormat.{u16_within as short_within};
ghost use Rattle.image_reader.specs.Grammar.{cost, flag_format};

use crate::fault::tri;
use image_format::{ByteFault, refusal, u8_at, u16_at, u32_within};

/// The longest time that is told.
const LONGEST_COST: u32 = 1_000_000_001;

/// A number of two bytes within a range.
pub fn u16_within(bytes: &[u8], low: u16, high: u16) -> Result<(u16, &[u8]), ByteFault>
    ensures { GivesOrFault (λ x. (x.0, x.1.now)) result ((short_within low high).read bytes.now) }
{
    let (number, rest) = tri!(u16_at(bytes));
    if low <= number && number <= high {
        Ok((number, rest))
    } else {
        Err(ByteFault {
            number: refusal::RANGE,
            left: bytes.len(),
        })
    }
}

/// A cost, a blocking or a stay.
pub fn cost_at(bytes: &[u8]) -> Result<(u32, &[u8]), ByteFault>
    ensures { GivesOrFault (λ x. (x.0, x.1.now)) result (cost.read bytes.now) }
{
    u32_within(bytes, 0, LONGEST_COST)
}

/// 0 or 1; another number is the fault that is told.
pub fn flag_at(bytes: &[u8], number: u8) -> Result<(bool, &[u8]), ByteFault>
    ensures { GivesOrFault (λ x. (x.0, x.1.now)) result ((flag_format number).read bytes.now) }
{
    let (value, rest) = tri!(u8_at(bytes));
    if value <= 1 {
        Ok((value == 1, rest))
    } else {
        Err(ByteFault {
            number,
            left: bytes.len(),
        })
    }
}
