//! Parts of lines.

ghost use Rattle.std.specs.Prelude.{◌≡◌, ◌++◌, OnOk, codes, decimal, replicate};
ghost use Rattle.run_chart.specs.Chart.{filled, longest_text, summary};

use itoa::Buffer;
use out_of_memory::OutOfMemory;
use syntax_tree::Text;

/// Puts so many blanks.
pub(crate) fn put_blanks(text: &mut Text, count: usize) -> Result<(), OutOfMemory>
    ensures { OnOk result (text.new ≡ text.old ++ replicate count 32) }
{
    for _blank in 0..count {
        text.extend(b" ")?;
    }
    Ok(())
}

/// Puts bytes, filled with blanks to a length.
pub(crate) fn put_filled(text: &mut Text, bytes: &[u8], len: usize) -> Result<(), OutOfMemory>
    ensures { OnOk result (text.new ≡ text.old ++ filled len bytes.now) }
{
    text.extend(bytes)?;
    put_blanks(text, len.saturating_sub(bytes.len()))
}

/// Puts a number.
pub(crate) fn put_number(text: &mut Text, number: u64) -> Result<(), OutOfMemory>
    ensures { OnOk result (text.new ≡ text.old ++ decimal number) }
{
    let mut digits = Buffer::new();
    text.extend(digits.format(number).as_bytes())
}

/// Puts the longest response, if there is one.
fn put_longest(text: &mut Text, longest: Option<u64>) -> Result<(), OutOfMemory>
    ensures { OnOk result (text.new ≡ text.old ++ longest_text longest) }
{
    match longest {
        Some(ticks) => put_number(text, ticks),
        None => text.extend(b"none"),
    }
}

/// Puts how many activations ended, their longest response, and the bound.
pub(crate) fn put_summary(
    text: &mut Text,
    ended: u64,
    longest: Option<u64>,
    bound: u32,
) -> Result<(), OutOfMemory>
    ensures { OnOk result (text.new ≡ text.old ++ summary ended longest bound) }
{
    text.extend(b"ended ")?;
    put_number(text, ended)?;
    text.extend(b" longest ")?;
    put_longest(text, longest)?;
    text.extend(b" bound ")?;
    put_number(text, u64::from(bound))
}
