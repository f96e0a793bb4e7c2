//! Image files judged, and `migrate`.

ghost use Rattle.std.specs.Prelude.{◌∷◌, [], ◌≢◌, ◌≡◌, ℕ, List, Some, Err, IfOk};
ghost use Rattle.command_answers.specs.Acts.{number_of, outcome_of};
ghost use Rattle.command_due.specs.AsmDue.{keeps};
ghost use Rattle.command_due.specs.CommandsDue.{IsImageRefused, IsMigrateDue, stored, told};
ghost use Rattle.image_loaded.specs.Answers.{Loads};
ghost use Rattle.image_reader.specs.File.{longest};
ghost use Rattle.command_words.specs.Calls as call;
ghost use Rattle.command_answers.specs.Acting.{CanBeDone, IsQuiet};
ghost use Rattle.command_answers.specs.Contents.{IsContent};
ghost use Rattle.command_answers.specs.Prepared.{Prepares};
ghost use Rattle.command_answers.specs.OnlyReads.{OnlyReads};
ghost use Rattle.command_answers.specs.Tried.{HasTried, status_of};
ghost use Rattle.command_refusals.specs.Refusals.{Explains, IsExplained};
ghost use Rattle.command_refusals.specs.Told.{IsImageTold};

use command_answers::{
    Content, LONGEST_IMAGE, PrepareError, PreparedCall, Status, Store, image_fault_line, put, read,
    valid_fault_line,
};
use image_format::refusal;
use image_loaded::{FileFault, Image};
use message_log::{image_message, test_number, valid_message};
use out_of_memory::OutOfMemory;
use outside::Files;
use std::alloc::Global;
use syntax_tree::Text;

/// The valid image that a file holds.
///
/// # Errors
///
/// As those of `Image::load`; the fault of a file that is too long is 9, behind the most bytes of
/// an image.
pub fn load_content(alloc: Global, content: Content) -> Result<Image, FileFault>
    ensures { (bytes : List ℕ) → IsContent longest content bytes → Loads bytes result }
{
    match content {
        Content::Bytes(bytes) => Image::load(alloc, bytes),
        Content::TooLong => Err(FileFault::Image {
            number: refusal::LONG,
            offset: LONGEST_IMAGE as u32,
        }),
    }
}

/// The line of the fault of bytes that are no valid image, and the message.
fn line_of(
    alloc: Global,
    message: &mut Text,
    file: &str,
    fault: FileFault,
) -> Result<Text, OutOfMemory>
    ensures due { IfOk result (λ line. (bytes : List ℕ) → Loads bytes (Err fault) →
        IsImageRefused bytes (told 4 line)) }
    ensures told { IfOk result (λ line. (bytes : List ℕ) → Loads bytes (Err fault) →
        IsImageTold file.now bytes (told 4 line) message.new) }
{
    match fault {
        FileFault::Image { number, offset } => {
            *message = image_message(alloc, file, number, offset)?;
            image_fault_line(alloc, number, offset)
        }
        FileFault::Invalid { raw, fault: found } => {
            *message = valid_message(alloc, file, &raw, found)?;
            valid_fault_line(alloc, test_number(found.subject), found.a, found.b)
        }
        FileFault::Memory(error) => Err(error),
    }
}

/// The act for a file that holds no valid image: it puts the line of the fault, and the message
/// takes the place of the given one.
pub fn refuse_image<'a>(
    alloc: Global,
    message: &mut Text,
    file: &str,
    fault: FileFault,
) -> Result<PreparedCall<'a>, OutOfMemory>
    ensures due { IfOk result (λ act. (bytes : List ℕ) → Loads bytes (Err fault) →
        IsImageRefused bytes (outcome_of act)) }
    ensures quiet { IfOk result IsQuiet }
    ensures refused { IfOk result (λ act. number_of act.status ≢ 0) }
    ensures told { IfOk result (λ act. (bytes : List ℕ) → Loads bytes (Err fault) →
        IsImageTold file.now bytes (outcome_of act) message.new) }
{
    let line = line_of(alloc, message, file, fault)?;
    Ok(put(Status::Image, line))
}

/// The act that stores an image under the name `target`: its bytes.
pub fn store_image<'a>(
    alloc: Global,
    image: &Image,
    target: &'a str,
) -> Result<PreparedCall<'a>, OutOfMemory>
    ensures outcome { IfOk result (λ act. outcome_of act ≡ keeps (stored image.now)) }
    ensures done { IfOk result (CanBeDone (Some target.now)) }
{
    let bytes = Vec::from_slice(alloc, image.bytes())?;
    Ok(PreparedCall {
        status: Status::Done,
        text: Text::new(alloc),
        store: Some(Store {
            name: target,
            bytes,
        }),
        run: None,
    })
}

/// The act of `migrate` for what the image's file holds.
fn migrate_act<'a>(
    alloc: Global,
    message: &mut Text,
    file: &str,
    content: Content,
    target: &'a str,
) -> Result<PreparedCall<'a>, OutOfMemory>
    ensures due { IfOk result (λ act. (bytes : List ℕ) → IsContent longest content bytes →
        IsMigrateDue bytes (outcome_of act)) }
    ensures done { IfOk result (CanBeDone (Some target.now)) }
    ensures told { IfOk result (λ act. (bytes : List ℕ) → IsContent longest content bytes →
        Explains (IsImageTold file.now bytes (outcome_of act) message.new) act) }
{
    match load_content(alloc, content) {
        Ok(image) => store_image(alloc, &image, target),
        Err(fault) => refuse_image(alloc, message, file, fault),
    }
}

/// `migrate`.
#[tactic(auto, using(command_answers::proofs::Held::first_unread, command_answers::proofs::Trying::tried_last))]
pub fn prepare_migrate<'a, F: Files>(
    alloc: Global,
    message: &mut Text,
    image: &'a str,
    target: &'a str,
    files: &mut F,
) -> Result<PreparedCall<'a>, PrepareError<'a>>
    ensures prepared { Prepares F.tells (call.migrate image.now target.now) (F.state files.old)
        (F.state files.new) result }
    ensures only_reads { OnlyReads (F.state files.old) (F.state files.new) }
    ensures reads { HasTried (image.now ∷ []) (F.state files.old).reads
        (F.state files.new).reads (status_of result) }
    ensures told { IfOk result (IsExplained F.tells (call.migrate image.now target.now)
        (F.state files.old).held message.new) }
{
    let content = read(files, image, LONGEST_IMAGE)?;
    match migrate_act(alloc, message, image, content, target) {
        Ok(act) => Ok(act),
        Err(error) => Err(PrepareError::Memory(error)),
    }
}
