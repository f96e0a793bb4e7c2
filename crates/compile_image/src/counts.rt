//! Constants that are used as counts.

ghost use Rattle.std.specs.Prelude.{◌≡◌};
ghost use Rattle.syntax_tree.specs.Placed.{placed, placed_constant, plain, plain_constant};
ghost use Rattle.source_semantics.specs.Names.{count_value};

use code_layout::ConstantValues;
use syntax_tree::Constant;

/// What a constant is worth as a number of ticks or as an exception number: 0 where it is negative.
pub fn count(values: &ConstantValues<'_>, constant: &Constant) -> u32
    ensures { result ≡ count_value (plain (placed values.now))
        (plain_constant (placed_constant constant.now)) }
{
    let value = values.value(constant);
    if value < 0 { 0 } else { value as u32 }
}
