//! Lines.

ghost use Rattle.std.specs.Prelude.{◌≡◌, ◌++◌, [], decimal, slice_index_or, OnOk};
ghost use Rattle.command_due.specs.Lines.{slack_line, spaced};

use itoa::Buffer;
use out_of_memory::OutOfMemory;
use syntax_tree::{Name, Text};

/// The name of the number; none past the end.
pub fn name_at(names: &[Name], number: usize) -> &[u8]
    ensures { result.now ≡ slice_index_or names.now number [] }
{
    match names.get(number) {
        Some(name) => name.as_bytes(),
        None => b"",
    }
}

/// Puts a number at the end of a text.
fn add_number(text: &mut Text, number: u64) -> Result<(), OutOfMemory>
    ensures { OnOk result (text.new ≡ text.old ++ decimal number) }
{
    let mut buffer = Buffer::new();
    text.extend(buffer.format(number).as_bytes())
}

/// Puts numbers at the end of a text, each behind a space.
fn add_spaced(text: &mut Text, numbers: &[u64]) -> Result<(), OutOfMemory>
    ensures { OnOk result (text.new ≡ text.old ++ spaced numbers.now) }
{
    for number in numbers {
        text.extend(b" ")?;
        add_number(text, *number)?;
    }
    Ok(())
}

/// Puts the line of a process at the end of a text: its name, its spare ticks, the bounds with
/// these, and the name of the process that fails with one more.
#[tactic(auto, unfolding(command_due::specs::Lines::slack_line))]
pub fn add_line(
    text: &mut Text,
    name: &[u8],
    extra: u64,
    bounds: &[u64],
    failing: &[u8],
) -> Result<(), OutOfMemory>
    ensures { OnOk result (text.new ≡ text.old ++
        slack_line name.now extra bounds.now failing.now) }
{
    text.extend(b"slack ")?;
    text.extend(name)?;
    text.extend(b" ")?;
    add_number(text, extra)?;
    text.extend(b" bounds")?;
    add_spaced(text, bounds)?;
    text.extend(b" fails ")?;
    text.extend(failing)?;
    text.extend(b"\n")
}
