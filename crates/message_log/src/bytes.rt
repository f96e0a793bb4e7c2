//! The message for bytes that are no image.

ghost use Rattle.std.specs.Prelude.{◌≡◌, ◌++◌, IfOk, OnOk};
ghost use Rattle.message_log.specs.Image.{image_message, image_sentence, place};

use crate::openings::add_opening;
use message_text::{add_number, add_parts};
use out_of_memory::OutOfMemory;
use std::alloc::Global;
use syntax_tree::Text;

/// What is wrong, by the fault's number.
#[tactic(auto, using(crate::proofs::Others::no_image_number))]
fn sentence(number: u8) -> &'static [u8]
    ensures { result.now ≡ image_sentence number }
{
    match number {
        1 => b"the bytes do not begin with `RTEU` and version 1 or 2",
        2 => b"the bytes end inside a field",
        3 => b"bytes stand behind the code",
        4 => b"a number is outside its range",
        5 => b"a name is no identifier, is a keyword or is taken",
        6 => b"no tag, kind, direction or instruction has this number",
        7 => b"an unused field is not 0",
        8 => b"the numbers of a handler do not ascend or are not allowed",
        9 => b"the image has more than 8388608 bytes",
        _ => b"the bytes are no image",
    }
}

/// Puts the place of a fault.
fn add_place(text: &mut Text, offset: usize) -> Result<(), OutOfMemory>
    ensures { OnOk result (text.new ≡ text.old ++ place offset) }
{
    text.extend(b"at byte ")?;
    add_number(text, offset)?;
    text.extend(b": ")
}

/// The message for bytes that are no image: the file, the number of the fault, its place from 0,
/// and what is wrong there.
#[tactic(auto, unfolding(crate::specs::Image::image_message))]
pub fn image_message(
    alloc: Global,
    file: &str,
    number: u8,
    offset: u32,
) -> Result<Text, OutOfMemory>
    ensures { IfOk result (λ message. message ≡ image_message file.now number offset) }
{
    let mut message = Text::new(alloc);
    add_opening(&mut message, file.as_bytes(), b"I", number)?;
    add_place(&mut message, offset as usize)?;
    add_parts(&mut message, &[sentence(number), b"\n"])?;
    Ok(message)
}
