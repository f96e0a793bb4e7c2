//! Programs whose demand is judged.

ghost use Rattle.std.specs.Prelude.{◌≡◌, ◌≢◌, ℕ, List, Option, Some, IfOk, IfErr};
ghost use Rattle.command_answers.specs.Acts.{number_of, outcome_of};
ghost use Rattle.command_due.specs.Source.{IsWritten};
ghost use Rattle.command_answers.specs.Acting.{IsQuiet};
ghost use Rattle.command_answers.specs.Contents.{IsContent};
ghost use Rattle.command_due.specs.EdfDue.{IsEdfDue, IsJudgedText};
ghost use Rattle.command_due.specs.Waits.{HasNoWait};
ghost use Rattle.syntax.specs.Tokens.{longest_text};
ghost use Rattle.edf_command.specs.Judged.{IsSubject, IsSubjectOf, Stops};
ghost use Rattle.command_refusals.specs.Told.{IsTextTold};
ghost use Rattle.syntax_tree.specs.Placed.{placed};

use crate::{Judged, ShapeFault, first_wait, judge_program};
use command_answers::{Content, PreparedCall};
use command_refusals::refuse_text;
use compile::{ProgramTextFault, read_written};
use out_of_memory::OutOfMemory;
use static_rule::rule;
use static_semantics::Checked;
use std::alloc::Global;
use syntax_tree::{Place, Text};

/// Where a fault of a whole text stands.
const START: Place = Place { line: 1, col: 1 };

/// A program without waits, judged.
fn judge_waitless(alloc: Global, program: &Checked) -> Result<Judged, ProgramTextFault>
    ghost text: { List ℕ }
    requires written { IsWritten text (placed program.now) }
    requires waitless { HasNoWait (placed program.now) }
    ensures subject { IfOk result (IsSubjectOf text) }
    ensures fault { IfErr result (Stops text) }
{
    match judge_program(alloc, program) {
        Ok(judged) => Ok(judged),
        Err(ShapeFault::TooLarge { .. }) => unreachable!(),
        Err(ShapeFault::Memory(error)) => Err(ProgramTextFault::Memory(error)),
    }
}

/// The program of a text, judged.
fn judge_written(alloc: Global, program: &Checked) -> Result<Judged, ProgramTextFault>
    ghost text: { List ℕ }
    requires { IsWritten text (placed program.now) }
    ensures subject { IfOk result (IsSubjectOf text) }
    ensures fault { IfErr result (Stops text) }
{
    match first_wait(program.prog()) {
        None => judge_waitless(alloc, program),
        Some(place) => Err(ProgramTextFault::Text {
            number: rule::WAITS,
            place,
        }),
    }
}

/// A text, which has these bytes, read and judged.
fn judge_text(alloc: Global, text: &[u8]) -> Result<Judged, ProgramTextFault>
    ghost bytes: { List ℕ }
    requires { text.now ≡ bytes }
    ensures subject { IfOk result (IsSubjectOf bytes) }
    ensures fault { IfErr result (Stops bytes) }
{
    match read_written(alloc, text) {
        Ok(program) => judge_written(alloc, &program),
        Err(fault) => Err(fault),
    }
}

/// The program of the text that a file holds, judged.
///
/// # Errors
///
/// As those of `read_written`; 48 at the first wait statement; the fault of a text that is too long
/// is 4, at its first byte.
pub fn judge_source(alloc: Global, content: &Content) -> Result<Judged, ProgramTextFault>
    ensures subject { IfOk result IsSubject }
    ensures judged { IfOk result (λ subject. (text : List ℕ) →
        IsContent longest_text content.now text →
        IsJudgedText text subject.image subject.answer) }
    ensures fault { IfErr result (λ why. (text : List ℕ) →
        IsContent longest_text content.now text → Stops text why) }
{
    match content {
        Content::Bytes(text) => judge_text(alloc, text.as_slice()),
        Content::TooLong => Err(ProgramTextFault::Text {
            number: rule::LONG_TEXT,
            place: START,
        }),
    }
}

/// The act for a file that gave no such program: it puts the line of the fault, and the message
/// takes the place of the given one.
pub fn refuse_source<'a>(
    alloc: Global,
    message: &mut Text,
    file: &str,
    content: &Content,
    fault: ProgramTextFault,
) -> Result<PreparedCall<'a>, OutOfMemory>
    ensures due { IfOk result (λ act. (text : List ℕ) (script : Option (List ℕ)) →
        Stops text fault → IsEdfDue (Some text) script (outcome_of act)) }
    ensures quiet { IfOk result IsQuiet }
    ensures refused { IfOk result (λ act. number_of act.status ≢ 0) }
    ensures told { IfOk result (λ act. (text : List ℕ) → IsContent longest_text content.now text →
        IsTextTold file.now text (outcome_of act) message.new) }
{
    match fault {
        ProgramTextFault::Text { number, place } => {
            refuse_text(alloc, message, file, content, number, place)
        }
        ProgramTextFault::Memory(error) => Err(error),
    }
}
