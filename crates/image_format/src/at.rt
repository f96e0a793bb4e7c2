//! Fields: the number that the bytes begin with, and the bytes after it.

ghost use Rattle.std.specs.Prelude.{◌≡◌, length};
ghost use Rattle.image_format.specs.Gives.{GivesOrFault};
ghost use Rattle.image_format.specs.Format.{u8 as one_byte, u16 as two_bytes, u32 as four_bytes};
ghost use Rattle.image_format.specs.TreeFormat.{u16_below as below, u32_within as long_within};

use crate::fault::ByteFault;
use crate::refusal;

/// The fault of bytes that end inside a field.
const ENDS: ByteFault = ByteFault {
    number: refusal::ENDS,
    left: 0,
};

/// The fault of a number outside its range, where so many bytes are left from its place on.
fn outside(bytes: &[u8]) -> ByteFault
    ensures { result ≡ record { number = 4; left = length bytes.now } }
{
    ByteFault {
        number: refusal::RANGE,
        left: bytes.len(),
    }
}

/// A number of one byte.
pub fn u8_at(bytes: &[u8]) -> Result<(u8, &[u8]), ByteFault>
    ensures { GivesOrFault (λ x. (x.0, x.1.now)) result (one_byte.read bytes.now) }
{
    if bytes.len() < 1 {
        return Err(ENDS);
    }
    let (front, rest) = bytes.split_at(1);
    Ok((front[0], rest))
}

/// A number of two bytes, the highest first.
pub fn u16_at(bytes: &[u8]) -> Result<(u16, &[u8]), ByteFault>
    ensures { GivesOrFault (λ x. (x.0, x.1.now)) result (two_bytes.read bytes.now) }
{
    if bytes.len() < 2 {
        return Err(ENDS);
    }
    let (front, rest) = bytes.split_at(2);
    Ok((u16::from_be_bytes([front[0], front[1]]), rest))
}

/// A number of four bytes, the highest first.
pub fn u32_at(bytes: &[u8]) -> Result<(u32, &[u8]), ByteFault>
    ensures { GivesOrFault (λ x. (x.0, x.1.now)) result (four_bytes.read bytes.now) }
{
    if bytes.len() < 4 {
        return Err(ENDS);
    }
    let (front, rest) = bytes.split_at(4);
    let number = u32::from_be_bytes([front[0], front[1], front[2], front[3]]);
    Ok((number, rest))
}

/// A number of four bytes within a range.
pub fn u32_within(bytes: &[u8], low: u32, high: u32) -> Result<(u32, &[u8]), ByteFault>
    ensures { GivesOrFault (λ x. (x.0, x.1.now)) result ((long_within low high).read bytes.now) }
{
    let (number, rest) = u32_at(bytes)?;
    if low <= number && number <= high {
        Ok((number, rest))
    } else {
        Err(outside(bytes))
    }
}

/// The number of one of so many things.
pub fn u16_below(bytes: &[u8], count: u32) -> Result<(u16, &[u8]), ByteFault>
    ensures { GivesOrFault (λ x. (x.0, x.1.now)) result ((below count).read bytes.now) }
{
    let (number, rest) = u16_at(bytes)?;
    if u32::from(number) < count {
        Ok((number, rest))
    } else {
        Err(outside(bytes))
    }
}
