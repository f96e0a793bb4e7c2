//! Numbers that are exact up to a thousand million, and one more above that.

ghost use Rattle.std.specs.Prelude.{◌≡◌, ◌+◌, ◌*◌, ◌≤◌, ◌<◌, ℕ};
ghost use Rattle.std.specs.Int.{div_ceil};
ghost use Rattle.base.specs.Capped.{cap};

/// What stands for every number above a thousand million.
pub const OVER: u64 = 1_000_000_001;

/// What one activation costs at most. Each number is capped.
#[derive(Clone, Copy, Debug)]
pub struct Cost {
    /// The ticks that it runs.
    pub run: u64,
    /// The ticks for which it suspends itself.
    pub susp: u64,
    /// How often it waits.
    pub waits: u64,
}

/// The quotient rounded up: the least `n` with `n * b >= a`.
pub fn ceil_div(a: u64, b: u64) -> u64
    requires { 0 < b }
    ensures reaches { a ≤ result * b }
    ensures least { (n : ℕ) → a ≤ n * b → result ≤ n }
    ensures value { result ≡ div_ceil a b }
{
    a.div_ceil(b)
}

/// The sum, or 1,000,000,001 where it is larger.
pub fn cap_add(a: u64, b: u64) -> u64
    requires a { a ≤ OVER }
    requires b { b ≤ OVER }
    ensures { result ≡ cap (a + b) }
{
    (a + b).min(OVER)
}

/// The product, or 1,000,000,001 where it is larger.
pub fn cap_mul(a: u64, b: u64) -> u64
    requires a { a ≤ OVER }
    requires b { b ≤ OVER }
    ensures { result ≡ cap (a * b) }
{
    (a * b).min(OVER)
}
