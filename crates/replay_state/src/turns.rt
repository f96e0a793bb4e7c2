//! Turns of a loop that are left.

ghost use Rattle.std.specs.Prelude.{◌+ℤ◌, ◌≤ℤ◌, pos};

/// Turns of a loop that are left, and the value of its variable in the next. The value after the
/// last of them is still a number.
#[derive(Clone, Copy)]
pub struct TurnsLeft {
    pub value: i64,
    pub left: u64,
    ghost fits: { (value +ℤ pos left) ≤ℤ pos 9223372036854775807 },
}
