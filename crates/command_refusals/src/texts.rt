//! Program texts that are refused.

ghost use Rattle.std.specs.Prelude.{◌≡◌, ◌≢◌, ◌<◌, ℕ, List, IfOk, length};
ghost use Rattle.syntax.specs.Tokens.{longest_text};
ghost use Rattle.command_due.specs.Source.{fault_line};
ghost use Rattle.command_answers.specs.Acting.{puts};
ghost use Rattle.command_answers.specs.Acts.{number_of, outcome_of};
ghost use Rattle.command_answers.specs.Contents.{IsContent};
ghost use Rattle.command_refusals.specs.Told.{IsTextTold};

use command_answers::{Content, PreparedCall, Status, put_fault};
use message_program::{long_message, program_message};
use out_of_memory::OutOfMemory;
use std::alloc::Global;
use syntax_tree::{Place, Text};

/// The act for a text that is no program text, or that of a program that is too large: it puts the
/// line of the fault, and the message takes the place of the given one.
pub fn refuse_bytes<'a>(
    alloc: Global,
    message: &mut Text,
    file: &str,
    text: &[u8],
    number: u8,
    place: Place,
) -> Result<PreparedCall<'a>, OutOfMemory>
    ensures act { IfOk result (λ act. act ≡ puts Status.Text (fault_line number place)) }
    ensures refused { IfOk result (λ act. number_of act.status ≢ 0) }
    ensures told { IfOk result (λ act. IsTextTold file.now text.now (outcome_of act) message.new) }
{
    *message = program_message(alloc, file, text, number, place)?;
    put_fault(alloc, number, place)
}

/// The act for a file that has more bytes than a program text has.
fn refuse_long<'a>(
    alloc: Global,
    message: &mut Text,
    file: &str,
    number: u8,
    place: Place,
) -> Result<PreparedCall<'a>, OutOfMemory>
    ensures act { IfOk result (λ act. act ≡ puts Status.Text (fault_line number place)) }
    ensures refused { IfOk result (λ act. number_of act.status ≢ 0) }
    ensures told { IfOk result (λ act. (bytes : List ℕ) → longest_text < length bytes →
        IsTextTold file.now bytes (outcome_of act) message.new) }
{
    *message = long_message(alloc, file)?;
    put_fault(alloc, number, place)
}

/// The act for a file that holds no program text, or that of a program that is too large: it puts
/// the line of the fault, and the message takes the place of the given one.
pub fn refuse_text<'a>(
    alloc: Global,
    message: &mut Text,
    file: &str,
    content: &Content,
    number: u8,
    place: Place,
) -> Result<PreparedCall<'a>, OutOfMemory>
    ensures act { IfOk result (λ act. act ≡ puts Status.Text (fault_line number place)) }
    ensures refused { IfOk result (λ act. number_of act.status ≢ 0) }
    ensures told { IfOk result (λ act. (bytes : List ℕ) → IsContent longest_text content.now bytes →
        IsTextTold file.now bytes (outcome_of act) message.new) }
{
    match content {
        Content::Bytes(text) => {
            refuse_bytes(alloc, message, file, text.as_slice(), number, place)
        }
        Content::TooLong => refuse_long(alloc, message, file, number, place),
    }
}
