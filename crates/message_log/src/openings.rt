//! What a message without a line begins with.

ghost use Rattle.std.specs.Prelude.{◌≡◌, ◌++◌, OnOk};
ghost use Rattle.message_log.specs.Image.{opening};

use message_text::{add_number, add_parts, add_plain};
use out_of_memory::OutOfMemory;
use syntax_tree::Text;

/// Puts the file and the fault, by its letter and number.
pub(crate) fn add_opening(
    text: &mut Text,
    file: &[u8],
    letter: &[u8],
    number: u8,
) -> Result<(), OutOfMemory>
    ensures { OnOk result (text.new ≡ text.old ++ opening file.now letter.now number) }
{
    add_plain(text, file)?;
    add_parts(text, &[b": ", letter])?;
    add_number(text, usize::from(number))?;
    text.extend(b": ")
}
