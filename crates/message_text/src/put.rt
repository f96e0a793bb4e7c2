//! Bytes at the end of a text.

ghost use Rattle.std.specs.Prelude.{◌≡◌, ◌++◌, OnOk, decimal, map, replicate};
ghost use Rattle.std.specs.List.{concat};

use itoa::Buffer;
use out_of_memory::OutOfMemory;
use syntax_tree::Text;

/// Puts these bytes, part by part.
pub fn add_parts(text: &mut Text, parts: &[&[u8]]) -> Result<(), OutOfMemory>
    ensures { OnOk result (text.new ≡ text.old ++ concat (map (λ part. part.now) parts.now)) }
{
    for part in parts {
        let bytes = *part;
        text.extend(bytes)?;
    }
    Ok(())
}

/// Puts a number in decimal.
pub fn add_number(text: &mut Text, number: usize) -> Result<(), OutOfMemory>
    ensures { OnOk result (text.new ≡ text.old ++ decimal number) }
{
    let mut digits = Buffer::new();
    text.extend(digits.format(number).as_bytes())
}

/// Puts a byte so many times.
pub fn add_repeated(text: &mut Text, byte: u8, count: usize) -> Result<(), OutOfMemory>
    ensures { OnOk result (text.new ≡ text.old ++ replicate count byte) }
{
    let one = [byte];
    for _turn in 0..count {
        text.extend(&one)?;
    }
    Ok(())
}
