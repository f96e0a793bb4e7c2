//! `asm` and `dis`.

ghost use Rattle.std.specs.Prelude.{◌∷◌, [], ◌≡◌, ℕ, List, Some, Err, IfOk, length};
ghost use Rattle.command_answers.specs.Acts.{outcome_of};
ghost use Rattle.command_due.specs.AsmDue.{IsAsmDue, IsDisDue, keeps};
ghost use Rattle.assembler.specs.Faults.{longest_text};
ghost use Rattle.command_due.specs.CommandsDue.{told};
ghost use Rattle.command_answers.specs.Acting.{CanBeDone, IsQuiet};
ghost use Rattle.command_answers.specs.Contents.{IsContent};
ghost use Rattle.command_answers.specs.Prepared.{Prepares};
ghost use Rattle.command_answers.specs.OnlyReads.{OnlyReads};
ghost use Rattle.command_answers.specs.Tried.{HasTried, status_of};
ghost use Rattle.image.specs.Raw.{named_of};
ghost use Rattle.command_images.specs.Telling.{LoadsText};
ghost use Rattle.image_reader.specs.Answer.{Tells};
ghost use Rattle.image_reader.specs.File.{longest};
ghost use Rattle.asm_format.specs.Text.{text_of};
ghost use Rattle.command_words.specs.Calls as call;
ghost use Rattle.command_images.specs.Held.{HasNames};
ghost use Rattle.command_refusals.specs.Refusals.{Explains, IsExplained};
ghost use Rattle.command_refusals.specs.Told.{IsBytesTold, IsImageTextTold};
ghost use Rattle.message_log.specs.Image as message_of;

use crate::images::store_image;
use crate::{ImageTextFault, load_text};
use asm_format::dis;
use assembler::LONG_TEXT;
use command_answers::{
    Content, LONGEST_IMAGE, LONGEST_IMAGE_TEXT, PrepareError, PreparedCall, Status, Store,
    image_fault_line, put, read, text_fault_line, valid_fault_line,
};
use image::RawImage;
use image_format::refusal;
use image_loaded::Image;
use image_reader::{ImageFault, read_image};
use message_log::{
    image_message, image_text_message, long_text_message, test_number, valid_message,
};
use out_of_memory::OutOfMemory;
use outside::Files;
use std::alloc::Global;
use syntax_tree::Text;

// ---- `asm`

/// The valid image that the text of a file tells.
///
/// # Errors
///
/// As those of `load_text`; the fault of a text that is too long is 3, on line 0.
fn load_content(alloc: Global, content: &Content) -> Result<Image, ImageTextFault>
    ensures { (text : List ℕ) → IsContent longest_text content.now text → LoadsText text result }
{
    match content {
        Content::Bytes(text) => load_text(alloc, text.as_slice()),
        Content::TooLong => Err(ImageTextFault::Text {
            number: LONG_TEXT,
            line: 0,
        }),
    }
}

/// The message for a fault of what the file of an image's text holds.
#[tactic(auto, using(crate::proofs::Long::long_lines))]
fn message_of_lines(
    alloc: Global,
    file: &str,
    content: &Content,
    number: u8,
    line: u32,
) -> Result<Text, OutOfMemory>
    ensures { IfOk result (λ message. (text : List ℕ) → IsContent longest_text content.now text →
        message ≡ message_of.image_text_message file.now text number line) }
{
    match content {
        Content::Bytes(text) => image_text_message(alloc, file, text.as_slice(), number, line),
        Content::TooLong => long_text_message(alloc, file),
    }
}

/// The line of the fault of a text that is that of no valid image, and the message.
fn line_of_text(
    alloc: Global,
    message: &mut Text,
    file: &str,
    content: &Content,
    fault: ImageTextFault,
) -> Result<Text, OutOfMemory>
    ensures due { IfOk result (λ line. (text : List ℕ) → LoadsText text (Err fault) →
        IsAsmDue text (told 4 line)) }
    ensures told { IfOk result (λ line. (text : List ℕ) → IsContent longest_text content.now text →
        LoadsText text (Err fault) → IsImageTextTold file.now text (told 4 line) message.new) }
{
    match fault {
        ImageTextFault::Text { number, line } => {
            *message = message_of_lines(alloc, file, content, number, line)?;
            text_fault_line(alloc, number, line)
        }
        ImageTextFault::Invalid { raw, fault: found } => {
            *message = valid_message(alloc, file, &raw, found)?;
            valid_fault_line(alloc, test_number(found.subject), found.a, found.b)
        }
        ImageTextFault::Memory(error) => Err(error),
    }
}

/// The act for a file whose text is that of no valid image: it puts the line of the fault, and the
/// message takes the place of the given one.
fn refuse_text<'a>(
    alloc: Global,
    message: &mut Text,
    file: &str,
    content: &Content,
    fault: ImageTextFault,
) -> Result<PreparedCall<'a>, OutOfMemory>
    ensures due { IfOk result (λ act. (text : List ℕ) → LoadsText text (Err fault) →
        IsAsmDue text (outcome_of act)) }
    ensures quiet { IfOk result IsQuiet }
    ensures told { IfOk result (λ act. (text : List ℕ) → IsContent longest_text content.now text →
        LoadsText text (Err fault) → IsImageTextTold file.now text (outcome_of act) message.new) }
{
    let line = line_of_text(alloc, message, file, content, fault)?;
    Ok(put(Status::Image, line))
}

/// The act of `asm` for what the text's file holds.
fn asm_act<'a>(
    alloc: Global,
    message: &mut Text,
    text: &str,
    content: &Content,
    target: &'a str,
) -> Result<PreparedCall<'a>, OutOfMemory>
    ensures due { IfOk result (λ act. (lines : List ℕ) →
        IsContent longest_text content.now lines → IsAsmDue lines (outcome_of act)) }
    ensures done { IfOk result (CanBeDone (Some target.now)) }
    ensures told { IfOk result (λ act. (lines : List ℕ) →
        IsContent longest_text content.now lines →
        Explains (IsImageTextTold text.now lines (outcome_of act) message.new) act) }
{
    match load_content(alloc, content) {
        Ok(image) => store_image(alloc, &image, target),
        Err(fault) => refuse_text(alloc, message, text, content, fault),
    }
}

/// `asm`.
#[tactic(auto, using(command_answers::proofs::Held::first_unread, command_answers::proofs::Trying::tried_last))]
pub fn prepare_asm<'a, F: Files>(
    alloc: Global,
    message: &mut Text,
    text: &'a str,
    image: &'a str,
    files: &mut F,
) -> Result<PreparedCall<'a>, PrepareError<'a>>
    ensures prepared { Prepares F.tells (call.asm text.now image.now) (F.state files.old)
        (F.state files.new) result }
    ensures only_reads { OnlyReads (F.state files.old) (F.state files.new) }
    ensures reads { HasTried (text.now ∷ []) (F.state files.old).reads
        (F.state files.new).reads (status_of result) }
    ensures told { IfOk result (IsExplained F.tells (call.asm text.now image.now)
        (F.state files.old).held message.new) }
{
    let content = read(files, text, LONGEST_IMAGE_TEXT)?;
    match asm_act(alloc, message, text, &content, image) {
        Ok(act) => Ok(act),
        Err(error) => Err(PrepareError::Memory(error)),
    }
}

// ---- `dis`

/// The image that bytes hold, valid or not; each of its parts has a name.
fn read_bytes(alloc: Global, bytes: &[u8]) -> Result<RawImage, ImageFault>
    ensures told { Tells bytes.now result }
    ensures named { IfOk result HasNames }
{
    read_image(alloc, bytes)
}

/// The image that a file holds, valid or not; each of its parts has a name.
///
/// # Errors
///
/// As those of `read_image`; the fault of a file that is too long is 9, behind the most bytes of an
/// image.
fn read_content(alloc: Global, content: &Content) -> Result<RawImage, ImageFault>
    ensures told { (bytes : List ℕ) → IsContent longest content.now bytes → Tells bytes result }
    ensures named { IfOk result HasNames }
{
    match content {
        Content::Bytes(bytes) => read_bytes(alloc, bytes.as_slice()),
        Content::TooLong => Err(ImageFault::Bad {
            number: refusal::LONG,
            offset: LONGEST_IMAGE as u32,
        }),
    }
}

/// The act that stores the text of an image under the name `target`.
fn store_text<'a>(
    alloc: Global,
    raw: &RawImage,
    target: &'a str,
) -> Result<PreparedCall<'a>, OutOfMemory>
    requires { HasNames raw.now }
    ensures outcome { IfOk result (λ act. outcome_of act ≡ keeps (text_of (named_of raw.now))) }
    ensures done { IfOk result (CanBeDone (Some target.now)) }
{
    let text = dis(alloc, raw)?;
    let bytes = Vec::from_slice(alloc, text.as_bytes())?;
    Ok(PreparedCall {
        status: Status::Done,
        text: Text::new(alloc),
        store: Some(Store {
            name: target,
            bytes,
        }),
        run: None,
    })
}

/// The line of the fault of bytes that are no image, and the message.
fn line_of_bytes(
    alloc: Global,
    message: &mut Text,
    file: &str,
    fault: ImageFault,
) -> Result<Text, OutOfMemory>
    ensures due { IfOk result (λ line. (bytes : List ℕ) → Tells bytes (Err fault) →
        IsDisDue bytes (told 4 line)) }
    ensures told { IfOk result (λ line. IsBytesTold file.now (told 4 line) message.new) }
{
    match fault {
        ImageFault::Bad { number, offset } => {
            *message = image_message(alloc, file, number, offset)?;
            image_fault_line(alloc, number, offset)
        }
        ImageFault::Memory(error) => Err(error),
    }
}

/// The act for a file that holds no image: it puts the line of the fault, and the message takes the
/// place of the given one.
fn refuse_bytes<'a>(
    alloc: Global,
    message: &mut Text,
    file: &str,
    fault: ImageFault,
) -> Result<PreparedCall<'a>, OutOfMemory>
    ensures due { IfOk result (λ act. (bytes : List ℕ) → Tells bytes (Err fault) →
        IsDisDue bytes (outcome_of act)) }
    ensures quiet { IfOk result IsQuiet }
    ensures told { IfOk result (λ act. IsBytesTold file.now (outcome_of act) message.new) }
{
    let line = line_of_bytes(alloc, message, file, fault)?;
    Ok(put(Status::Image, line))
}

/// The act of `dis` for what the image's file holds.
fn dis_act<'a>(
    alloc: Global,
    message: &mut Text,
    image: &str,
    content: &Content,
    text: &'a str,
) -> Result<PreparedCall<'a>, OutOfMemory>
    ensures due { IfOk result (λ act. (bytes : List ℕ) → IsContent longest content.now bytes →
        IsDisDue bytes (outcome_of act)) }
    ensures done { IfOk result (CanBeDone (Some text.now)) }
    ensures told { IfOk result (λ act.
        Explains (IsBytesTold image.now (outcome_of act) message.new) act) }
{
    match read_content(alloc, content) {
        Ok(raw) => store_text(alloc, &raw, text),
        Err(fault) => refuse_bytes(alloc, message, image, fault),
    }
}

/// `dis`.
#[tactic(auto, using(command_answers::proofs::Held::first_unread, command_answers::proofs::Trying::tried_last))]
pub fn prepare_dis<'a, F: Files>(
    alloc: Global,
    message: &mut Text,
    image: &'a str,
    text: &'a str,
    files: &mut F,
) -> Result<PreparedCall<'a>, PrepareError<'a>>
    ensures prepared { Prepares F.tells (call.dis image.now text.now) (F.state files.old)
        (F.state files.new) result }
    ensures only_reads { OnlyReads (F.state files.old) (F.state files.new) }
    ensures reads { HasTried (image.now ∷ []) (F.state files.old).reads
        (F.state files.new).reads (status_of result) }
    ensures told { IfOk result (IsExplained F.tells (call.dis image.now text.now)
        (F.state files.old).held message.new) }
{
    let content = read(files, image, LONGEST_IMAGE)?;
    match dis_act(alloc, message, image, &content, text) {
        Ok(act) => Ok(act),
        Err(error) => Err(PrepareError::Memory(error)),
    }
}
