//! Ticks.

ghost use Rattle.std.specs.Prelude.{◌≡◌, ◌++◌, OnOk, decimal};

use itoa::Buffer;
use out_of_memory::OutOfMemory;
use syntax_tree::Text;

/// Puts so many ticks, in decimal.
fn add_ticks(text: &mut Text, ticks: u64) -> Result<(), OutOfMemory>
    ensures { OnOk result (text.new ≡ text.old ++ decimal ticks) }
{
    let mut digits = Buffer::new();
    text.extend(digits.format(ticks).as_bytes())
}

/// Puts so many ticks, with some bytes before them and some behind.
pub(crate) fn add_between(
    text: &mut Text,
    before: &[u8],
    ticks: u64,
    behind: &[u8],
) -> Result<(), OutOfMemory>
    ensures { OnOk result (text.new ≡ text.old ++ (before.now ++ (decimal ticks ++ behind.now))) }
{
    text.extend(before)?;
    add_ticks(text, ticks)?;
    text.extend(behind)
}
