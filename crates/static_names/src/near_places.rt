//! Maps from places, in which places that are near in the text are near in memory.

ghost use Rattle.std.specs.Prelude.{◌≡◌, ◌<◌, ◌^◌};
ghost use Rattle.static_names.specs.Near.{number_of, start};

use indexmap::IndexMap;
use std::hash::{BuildHasherDefault, Hasher};

/// How far apart the first places of two lines are.
const STRIDE: u64 = 0x9E37_79B1;

/// Hashes a line and a column, so that eight columns in turn have one slot of a table each.
#[derive(Clone, Copy)]
pub struct NearHasher {
    state: u64,
}

/// A map from lines and columns.
pub type PlaceMap<V> = IndexMap<(u32, u32), V, BuildHasherDefault<NearHasher>>;

/// Four bytes as a number, the lowest first; 0 for other bytes.
fn number(bytes: &[u8]) -> u64
    ensures value { result ≡ number_of bytes.now }
    ensures within { result < 2 ^ 64 }
{
    if bytes.len() != 4 {
        return 0;
    }
    let low = u64::from(bytes[0]) + 256 * u64::from(bytes[1]);
    low + 65_536 * (u64::from(bytes[2]) + 256 * u64::from(bytes[3]))
}

impl Default for NearHasher {
    ghost is_default = { λ h. h ≡ start };

    fn default() -> NearHasher {
        NearHasher { state: 0 }
    }
}

impl Hasher for NearHasher {
    ghost use Rattle.static_names.specs.Near.{after, answer};

    ghost write = { after };

    ghost finish = { answer };

    fn finish(&self) -> u64 {
        (self.state % 64 + 1) * 16_777_216 + self.state / 8 % 16_777_216
    }

    fn write(&mut self, bytes: &[u8]) {
        self.state = self.state.wrapping_mul(STRIDE).wrapping_add(number(bytes));
    }
}
