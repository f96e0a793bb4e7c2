//! Numbers at the end of a text. After an error the text may hold a part of what was to be put.

ghost use Rattle.std.specs.Prelude.{◌≡◌, ◌++◌, OnOk};
ghost use Rattle.std.specs.Fmt.{signed_decimal};
ghost use Rattle.asm_format.specs.Text.{field, numbers_text};

use itoa::Buffer;
use out_of_memory::OutOfMemory;
use syntax_tree::Text;

/// Puts a number behind these bytes.
pub fn put_field(text: &mut Text, label: &[u8], number: u32) -> Result<(), OutOfMemory>
    ensures { OnOk result (text.new ≡ text.old ++ field label.now number) }
{
    let mut digits = Buffer::new();
    text.extend(label)?;
    text.extend(digits.format(number).as_bytes())?;
    Ok(())
}

/// Puts a number with its sign behind these bytes.
pub fn put_signed(text: &mut Text, label: &[u8], number: i32) -> Result<(), OutOfMemory>
    ensures { OnOk result (text.new ≡ text.old ++ (label.now ++ signed_decimal number)) }
{
    let mut digits = Buffer::new();
    text.extend(label)?;
    text.extend(digits.format(number).as_bytes())?;
    Ok(())
}

/// Puts numbers, each after a space, and ends the line.
pub fn put_numbers(text: &mut Text, numbers: &[u16]) -> Result<(), OutOfMemory>
    ensures { OnOk result (text.new ≡ text.old ++ numbers_text numbers.now) }
{
    for number in numbers {
        put_field(text, b" ", u32::from(*number))?;
    }
    text.extend(b"\n")?;
    Ok(())
}
