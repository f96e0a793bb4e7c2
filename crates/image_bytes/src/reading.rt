//! Reading at a place.

ghost use Rattle.std.specs.Prelude.{◌≡◌, ◌≤◌, ◌<◌, ◌+◌, ◌*◌, ℕ, Some, drop, length, slice_get, take};
ghost use Rattle.image_format.specs.Gives.{GivesOrFault};
ghost use Rattle.image.specs.Raw.{monitor_of};
ghost use Rattle.image_reader.specs.Grammar.{monitor_format};

use image::RawMonitor;
use image_format::{ByteFault, u16_at, u32_at};

/// The bytes from the place of the number on.
pub(crate) fn bytes_from<'a>(bytes: &'a [u8], places: &[usize], number: u16) -> &'a [u8]
    requires there { number < length places.now }
    requires within { (at : ℕ) → slice_get places.now number ≡ Some at → at ≤ length bytes.now }
    ensures { (at : ℕ) → slice_get places.now number ≡ Some at → result.now ≡ drop at bytes.now }
{
    &bytes[places[number as usize]..]
}

/// The 13 bytes of the instruction at an address, in code from a place on.
pub(crate) fn instr_bytes_at(bytes: &[u8], code: usize, address: u32) -> &[u8]
    requires { code + 13 * address + 13 ≤ length bytes.now }
    ensures { result.now ≡ take 13 (drop (code + 13 * address) bytes.now) }
{
    let at = code + 13 * address as usize;
    &bytes[at..at + 13]
}

/// The monitor that the bytes begin with, after its name, and the bytes after it.
pub(crate) fn monitor_at(bytes: &[u8]) -> Result<(RawMonitor, &[u8]), ByteFault>
    ensures { GivesOrFault (λ x. (monitor_of x.0, x.1.now)) result (monitor_format.read bytes.now) }
{
    let (base, rest) = u32_at(bytes)?;
    let (words, rest) = u32_at(rest)?;
    let (ceiling, rest) = u16_at(rest)?;
    Ok((
        RawMonitor {
            base,
            words,
            ceiling,
        },
        rest,
    ))
}
