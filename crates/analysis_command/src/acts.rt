//! The acts, by the text of the program.

ghost use Rattle.std.specs.Prelude.{◌≤◌, ℕ, List, IfOk};
ghost use Rattle.syntax.specs.Tokens.{longest_text};
ghost use Rattle.command_due.specs.FitDue.{IsFitDue};
ghost use Rattle.command_due.specs.WhyDue.{IsWhyDue};
ghost use Rattle.command_answers.specs.Acting.{IsQuiet};
ghost use Rattle.command_answers.specs.Acts.{outcome_of};
ghost use Rattle.command_answers.specs.Contents.{IsContent};
ghost use Rattle.command_refusals.specs.Refusals.{Explains};
ghost use Rattle.command_refusals.specs.Told.{IsLateTold, IsProgramTold, IsTextTold};
ghost use Rattle.analysis_command.specs.Told.{AreBoundsOf};

use crate::texts::{JudgedBounds, bounds_of_text, fit_of_text};
use command_answers::{Content, PreparedCall, Status, put};
use command_refusals::{refuse_bytes, refuse_text};
use compile::ProgramTextFault;
use message_program::late_message;
use out_of_memory::OutOfMemory;
use static_rule::rule;
use std::alloc::Global;
use syntax_tree::{Place, Text};

/// Where a fault of a whole text stands.
const START: Place = Place { line: 1, col: 1 };

/// The act that puts the bounds of a program, taken apart. Of a program that is late the message
/// takes the place of the given one.
fn put_why<'a>(
    alloc: Global,
    message: &mut Text,
    file: &str,
    bounds: JudgedBounds,
    over: u16,
) -> Result<PreparedCall<'a>, OutOfMemory>
    ensures due { IfOk result (λ act. (text : List ℕ) → AreBoundsOf over text bounds →
        IsWhyDue over text (outcome_of act)) }
    ensures quiet { IfOk result IsQuiet }
    ensures told { IfOk result (λ act. (text : List ℕ) → AreBoundsOf over text bounds →
        Explains (IsLateTold over file.now text (outcome_of act) message.new) act) }
{
    let JudgedBounds { text, late } = bounds;
    match late {
        None => Ok(put(Status::Done, text)),
        Some(shown) => {
            *message = late_message(alloc, file, over, &shown.names, &shown.table)?;
            Ok(put(Status::Late, text))
        }
    }
}

/// The act of `why` for a text.
fn why_of_bytes<'a>(
    alloc: Global,
    message: &mut Text,
    file: &str,
    text: &[u8],
    over: u16,
) -> Result<PreparedCall<'a>, OutOfMemory>
    requires { over ≤ 1000 }
    ensures due { IfOk result (λ act. IsWhyDue over text.now (outcome_of act)) }
    ensures quiet { IfOk result IsQuiet }
    ensures told { IfOk result (λ act.
        Explains (IsProgramTold over file.now text.now (outcome_of act) message.new) act) }
{
    match bounds_of_text(alloc, text, over) {
        Ok(bounds) => put_why(alloc, message, file, bounds, over),
        Err(ProgramTextFault::Text { number, place }) => {
            refuse_bytes(alloc, message, file, text, number, place)
        }
        Err(ProgramTextFault::Memory(error)) => Err(error),
    }
}

/// The act of `why` for what the program's file holds.
pub fn why_act<'a>(
    alloc: Global,
    message: &mut Text,
    file: &str,
    content: &Content,
    over: u16,
) -> Result<PreparedCall<'a>, OutOfMemory>
    requires { over ≤ 1000 }
    ensures due { IfOk result (λ act. (text : List ℕ) → IsContent longest_text content.now text →
        IsWhyDue over text (outcome_of act)) }
    ensures quiet { IfOk result IsQuiet }
    ensures told { IfOk result (λ act. (text : List ℕ) → IsContent longest_text content.now text →
        Explains (IsProgramTold over file.now text (outcome_of act) message.new) act) }
{
    match content {
        Content::Bytes(text) => why_of_bytes(alloc, message, file, text.as_slice(), over),
        Content::TooLong => refuse_text(alloc, message, file, content, rule::LONG_TEXT, START),
    }
}

/// The act of `fit` for a text.
fn fit_of_bytes<'a>(
    alloc: Global,
    message: &mut Text,
    file: &str,
    text: &[u8],
    over: u16,
) -> Result<PreparedCall<'a>, OutOfMemory>
    requires { over ≤ 1000 }
    ensures due { IfOk result (λ act. IsFitDue over text.now (outcome_of act)) }
    ensures quiet { IfOk result IsQuiet }
    ensures told { IfOk result (λ act.
        Explains (IsTextTold file.now text.now (outcome_of act) message.new) act) }
{
    match fit_of_text(alloc, text, over) {
        Ok(fits) => Ok(put(Status::Done, fits)),
        Err(ProgramTextFault::Text { number, place }) => {
            refuse_bytes(alloc, message, file, text, number, place)
        }
        Err(ProgramTextFault::Memory(error)) => Err(error),
    }
}

/// The act of `fit` for what the program's file holds.
pub fn fit_act<'a>(
    alloc: Global,
    message: &mut Text,
    file: &str,
    content: &Content,
    over: u16,
) -> Result<PreparedCall<'a>, OutOfMemory>
    requires { over ≤ 1000 }
    ensures due { IfOk result (λ act. (text : List ℕ) → IsContent longest_text content.now text →
        IsFitDue over text (outcome_of act)) }
    ensures quiet { IfOk result IsQuiet }
    ensures told { IfOk result (λ act. (text : List ℕ) → IsContent longest_text content.now text →
        Explains (IsTextTold file.now text (outcome_of act) message.new) act) }
{
    match content {
        Content::Bytes(text) => fit_of_bytes(alloc, message, file, text.as_slice(), over),
        Content::TooLong => refuse_text(alloc, message, file, content, rule::LONG_TEXT, START),
    }
}
