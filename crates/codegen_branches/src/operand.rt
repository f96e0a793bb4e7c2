//! Numbers as operands.

ghost use Rattle.std.specs.Prelude.{◌≡◌, pos};
ghost use Rattle.codegen_spec.specs.Told.{fit as fitting};

/// A number as it fits into an operand.
pub fn fit(number: usize) -> i32
    ensures { result ≡ fitting (pos number) }
{
    if number > 2_147_483_647 {
        2_147_483_647
    } else {
        number as i32
    }
}
