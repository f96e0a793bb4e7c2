//! Programs that are to be replayed.

ghost use Rattle.std.specs.Prelude.{◌≡◌, ◌≢◌, ℕ, List, Option, Some, Err, IfOk, IfErr};
ghost use Rattle.command_answers.specs.Acts.{number_of, outcome_of};
ghost use Rattle.command_due.specs.Source.{IsWritten};
ghost use Rattle.compile.specs.Written.{ReadsWritten};
ghost use Rattle.command_answers.specs.Acting.{IsQuiet};
ghost use Rattle.command_answers.specs.Contents.{IsContent};
ghost use Rattle.syntax.specs.Tokens.{longest_text};
ghost use Rattle.replay.specs.Held.{IsSource};
ghost use Rattle.command_due.specs.ReplayDue.{IsReplayDue};
ghost use Rattle.command_refusals.specs.Told.{IsTextTold};
ghost use Rattle.syntax_tree.specs.Placed.{placed};

use crate::names::program_names;
use command_answers::{Content, PreparedCall};
use command_refusals::refuse_text;
use compile::{ProgramTextFault, read_written};
use image::ImageNames;
use out_of_memory::OutOfMemory;
use static_rule::rule;
use static_semantics::Checked;
use std::alloc::Global;
use syntax_tree::{Place, Text};

/// Where a fault of a whole text stands.
const START: Place = Place { line: 1, col: 1 };

/// A program that has no fault, the text that it was read from, and the names of its parts.
#[derive(Drop)]
pub struct Source<'a> {
    pub text: &'a [u8],
    pub program: Checked,
    pub names: ImageNames,
}

/// The program of a text, with the text.
fn read_text<'a>(alloc: Global, text: &'a [u8]) -> Result<Source<'a>, ProgramTextFault>
    ensures source { IfOk result IsSource }
    ensures text { IfOk result (λ source. source.text.now ≡ text.now) }
    ensures fault { IfErr result (λ why. ReadsWritten text.now (Err why)) }
{
    match read_written(alloc, text) {
        Ok(program) => match program_names(alloc, &program) {
            Ok(names) => Ok(Source {
                text,
                program,
                names,
            }),
            Err(error) => Err(ProgramTextFault::Memory(error)),
        },
        Err(fault) => Err(fault),
    }
}

/// The program of the text that a file holds, with the text.
///
/// # Errors
///
/// As those of `read_written`; the fault of a text that is too long is 4, at its first byte.
pub fn read_source<'a>(alloc: Global, content: &'a Content) -> Result<Source<'a>, ProgramTextFault>
    ensures source { IfOk result IsSource }
    ensures written { IfOk result (λ source. (text : List ℕ) →
        IsContent longest_text content.now text → IsWritten text (placed source.program)) }
    ensures fault { IfErr result (λ why. (text : List ℕ) →
        IsContent longest_text content.now text → ReadsWritten text (Err why)) }
{
    match content {
        Content::Bytes(text) => read_text(alloc, text.as_slice()),
        Content::TooLong => Err(ProgramTextFault::Text {
            number: rule::LONG_TEXT,
            place: START,
        }),
    }
}

/// The act for a file that holds no program text, or that of a program that is too large: it puts
/// the line of the fault, and the message takes the place of the given one.
pub fn refuse_source<'a>(
    alloc: Global,
    message: &mut Text,
    file: &str,
    content: &Content,
    fault: ProgramTextFault,
) -> Result<PreparedCall<'a>, OutOfMemory>
    ensures due { IfOk result (λ act. (text : List ℕ) (script log : Option (List ℕ)) →
        ReadsWritten text (Err fault) → IsReplayDue (Some text) script log (outcome_of act)) }
    ensures quiet { IfOk result IsQuiet }
    ensures refused { IfOk result (λ act. number_of act.status ≢ 0) }
    ensures told { IfOk result (λ act. (text : List ℕ) → IsContent longest_text content.now text →
        IsTextTold file.now text (outcome_of act) message.new) }
{
    match fault {
        ProgramTextFault::Text { number, place } => {
            refuse_text(alloc, message, file, content, number, place)
        }
        ProgramTextFault::Memory(error) => Err(error),
    }
}
