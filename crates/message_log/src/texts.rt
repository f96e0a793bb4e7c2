//! The message for a text that is that of no image.

ghost use Rattle.std.specs.Prelude.{◌≡◌, ◌++◌, IfOk, OnOk, codes, decimal};
ghost use Rattle.message_log.specs.Image.{image_text_message, line_message, long_text_message};
ghost use Rattle.message_log.specs.Image.{open_note, text_note, text_sentence};

use crate::openings::add_opening;
use message_text::{add_head, add_note, add_number, add_show, has_return, is_ended, line};
use out_of_memory::OutOfMemory;
use std::alloc::Global;
use syntax_tree::Text;

/// The most bytes of a text.
const LONGEST: usize = 8_388_608;

/// What is wrong, by the fault's number.
#[tactic(auto, using(crate::proofs::Others::no_text_number))]
fn sentence(number: u8) -> &'static [u8]
    ensures { result.now ≡ text_sentence number }
{
    match number {
        1 => b"this line has no form that may stand here",
        2 => b"a number, a name or a list of this line is not allowed",
        _ => b"the text is that of no image",
    }
}

/// The code of a fault.
fn code(alloc: Global, number: u8) -> Result<Text, OutOfMemory>
    ensures { IfOk result (λ code. code ≡ codes "A" ++ decimal number) }
{
    let mut code = Text::from_bytes(alloc, b"A")?;
    add_number(&mut code, usize::from(number))?;
    Ok(code)
}

/// Puts the note on a line that no LF ends.
fn add_open_note(text: &mut Text, shown: &[u8]) -> Result<(), OutOfMemory>
    ensures { OnOk result (text.new ≡ text.old ++ open_note shown.now) }
{
    match shown {
        [] => add_note(text, &[b"the text ends here; `end` is missing"]),
        _ => add_note(text, &[b"the last line has no line feed"]),
    }
}

/// Puts what may have led to the fault, the first that applies.
fn add_text_note(text: &mut Text, shown: &[u8], is_ended: bool) -> Result<(), OutOfMemory>
    ensures { OnOk result (text.new ≡ text.old ++ text_note shown.now is_ended) }
{
    if has_return(shown) {
        return add_note(
            text,
            &[b"a carriage return; lines end with a line feed alone"],
        );
    }
    if is_ended {
        return Ok(());
    }
    add_open_note(text, shown)
}

/// Puts the message for a line that has a fault.
fn add_line_message(
    alloc: Global,
    text: &mut Text,
    file: &[u8],
    source: &[u8],
    fault: u8,
    number: usize,
) -> Result<(), OutOfMemory>
    ensures { OnOk result
        (text.new ≡ text.old ++ line_message file.now source.now fault number) }
{
    let code = code(alloc, fault)?;
    add_head(text, file, number, 1, code.as_bytes(), &[sentence(fault)])?;
    add_show(text, source, number, 1, 0)?;
    add_text_note(text, line(source, number), is_ended(source, number))
}

/// The message for a text that has too many bytes.
#[tactic(auto, unfolding(crate::specs::Image::long_text_message))]
pub fn long_text_message(alloc: Global, file: &str) -> Result<Text, OutOfMemory>
    ensures { IfOk result (λ message. message ≡ long_text_message file.now) }
{
    let mut message = Text::new(alloc);
    add_opening(&mut message, file.as_bytes(), b"A", 3)?;
    message.extend(b"the text has more than 8388608 bytes\n")?;
    Ok(message)
}

/// The message for a text that is that of no image: the file, the line of the fault, its number and
/// what is wrong; the line; and what may have led to the fault.
#[tactic(auto, unfolding(crate::specs::Image::image_text_message))]
pub fn image_text_message(
    alloc: Global,
    file: &str,
    text: &[u8],
    number: u8,
    line: u32,
) -> Result<Text, OutOfMemory>
    ensures { IfOk result (λ message.
        message ≡ image_text_message file.now text.now number line) }
{
    if text.len() > LONGEST {
        return long_text_message(alloc, file);
    }
    let mut message = Text::new(alloc);
    add_line_message(
        alloc,
        &mut message,
        file.as_bytes(),
        text,
        number,
        line as usize,
    )?;
    Ok(message)
}
