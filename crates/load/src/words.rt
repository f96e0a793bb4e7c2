//! Words and numbers at the end of a text. After an error the text may hold a part of what was to
//! be put.

ghost use Rattle.std.specs.Prelude.{◌≡◌, ◌++◌, decimal, OnOk};

use itoa::Buffer;
use out_of_memory::OutOfMemory;
use syntax_tree::Text;

/// Puts some words and a number at the end of a text.
pub fn add_number(text: &mut Text, words: &str, number: u64) -> Result<(), OutOfMemory>
    ensures { OnOk result (text.new ≡ text.old ++ (words.now ++ decimal number)) }
{
    let mut buffer = Buffer::new();
    text.extend(words.as_bytes())?;
    text.extend(buffer.format(number).as_bytes())
}
