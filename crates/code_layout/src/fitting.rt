//! Numbers as they fit into an operand.

ghost use Rattle.std.specs.Prelude.{◌≡◌, ◌<◌, ◌^◌, pos, ◌≤ℤ◌, ◌-ℤ◌, negsuc};
ghost use Rattle.codegen_spec.specs.Told.{fit};
ghost use Rattle.source_semantics.specs.Store.{up_to};

/// A number, the greatest operand where it is greater, the least where it is less.
pub fn fit_value(value: i64) -> i32
    ensures { result ≡ fit value }
{
    if value > 2_147_483_647 {
        return i32::MAX;
    }
    if value < -2_147_483_648 {
        return i32::MIN;
    }
    value as i32
}

/// The same of a word or a count of words.
pub fn fit_word(word: u128) -> i32
    ensures { result ≡ fit (pos word) }
{
    if word > 2_147_483_647 {
        i32::MAX
    } else {
        word as i32
    }
}

/// How many numbers there are from one number to another.
pub fn count_between(low: i64, high: i64) -> u64
    requires low { (negsuc 4294967294 ≤ℤ low) × (low ≤ℤ pos 4294967295) }
    requires high { (negsuc 4294967294 ≤ℤ high) × (high ≤ℤ pos 4294967295) }
    ensures exact { result ≡ up_to (high -ℤ low) }
    ensures small { result < 2 ^ 33 }
{
    if high < low {
        0
    } else {
        (high - low) as u64 + 1
    }
}
