//! How many parts of each kind an image has.

ghost use Rattle.std.specs.Prelude.{◌≡◌};
ghost use Rattle.image_format.specs.Gives.{GivesOrFault};
ghost use Rattle.image_reader.specs.Grammar.{counts_format};

use crate::fault::tri;
use crate::fields::u16_within;
use image_format::{ByteFault, u32_within};

/// How many parts of each kind there are.
#[derive(Clone, Copy)]
pub struct Counts {
    pub processes: u16,
    pub monitors: u16,
    pub conditions: u16,
    pub devices: u16,
    pub events: u16,
    pub routines: u16,
    pub code: u32,
}

/// The counts that the bytes begin with.
pub fn counts_at(bytes: &[u8]) -> Result<(Counts, &[u8]), ByteFault>
    ensures { GivesOrFault (λ x. (x.0, x.1.now)) result (counts_format.read bytes.now) }
{
    let (processes, rest) = tri!(u16_within(bytes, 1, 64));
    let (monitors, rest) = tri!(u16_within(rest, 0, 64));
    let (conditions, rest) = tri!(u16_within(rest, 0, 256));
    let (devices, rest) = tri!(u16_within(rest, 0, 64));
    let (events, rest) = tri!(u16_within(rest, 0, 64));
    let (routines, rest) = tri!(u16_within(rest, 0, 512));
    let (code, rest) = tri!(u32_within(rest, 0, 65_535));
    Ok((
        Counts {
            processes,
            monitors,
            conditions,
            devices,
            events,
            routines,
            code,
        },
        rest,
    ))
}
