//! `check`, `json`, `slack`, `print` and `compile`.

ghost use Rattle.std.specs.Prelude.{◌∷◌, [], ◌≢◌, ◌≡◌, ◌≤◌, ℕ, List, Some, Ok, Err, IfOk};
ghost use Rattle.syntax.specs.Tokens.{longest_text};
ghost use Rattle.command_due.specs.CommandsDue.{IsRefused, IsReportDue, IsPrintDue, IsCompileDue};
ghost use Rattle.command_due.specs.SpareDue.{IsSlackDue};
ghost use Rattle.compile.specs.Compile.{Compiles};
ghost use Rattle.command_answers.specs.Acts.{number_of, outcome_of};
ghost use Rattle.command_words.specs.Calls as call;
ghost use Rattle.command_answers.specs.Acting.{CanBeDone, IsQuiet, puts};
ghost use Rattle.command_answers.specs.Contents.{IsContent};
ghost use Rattle.command_programs.specs.Formats.{shown, report_call};
ghost use Rattle.command_refusals.specs.Refusals.{Explains, IsExplained};
ghost use Rattle.command_refusals.specs.Told.{IsProgramTold, IsTextTold};
ghost use Rattle.command_answers.specs.Prepared.{Prepares};
ghost use Rattle.command_answers.specs.OnlyReads.{OnlyReads};
ghost use Rattle.command_answers.specs.Tried.{HasTried, status_of};
ghost use Rattle.command_programs.specs.Runnable.{CanBeShown, IsRunnableBuilt, Readies};
ghost use Rattle.command_programs.specs.Scripted.{report_on};
ghost use Rattle.image.specs.Raw.{named_of};

use crate::{compile_content, read_content, slack_text};
use command_answers::{
    Content, LONGEST_PROGRAM, PrepareError, PreparedCall, Status, Store, put, read,
};
use command_refusals::refuse_text;
use compile::{Built, CompileFault, ProgramTextFault};
use image::ImageNames;
use image_loaded::Image;
use message_program::late_message;
use out_of_memory::OutOfMemory;
use outside::Files;
use sched_table::Table;
use std::alloc::Global;
use syntax_tree::{Name, Text};

/// How a report is written.
#[derive(Clone, Copy)]
pub enum Format {
    /// As lines.
    Text,
    /// As JSON.
    Json,
}

/// The report on a table.
pub fn report(
    alloc: Global,
    format: Format,
    names: &ImageNames,
    program: &Name,
    table: &Table,
) -> Result<Text, OutOfMemory>
    requires { CanBeShown names.now program.now table.now }
    ensures { IfOk result (λ text. text ≡ shown format names.now program.now table.now) }
{
    match format {
        Format::Text => sched_table::report(alloc, names, program, table),
        Format::Json => sched_table::report_json(alloc, names, program, table),
    }
}

/// The act for a file that gave no image: it puts the line of its fault, or the report on its
/// program, which is late. The message takes the place of the given one.
pub fn refuse<'a>(
    alloc: Global,
    message: &mut Text,
    file: &str,
    content: &Content,
    over: u16,
    format: Format,
    fault: CompileFault,
) -> Result<PreparedCall<'a>, OutOfMemory>
    requires { Readies (Err fault) }
    ensures due { IfOk result (λ act. (over : ℕ) (text : List ℕ) → Compiles over text (Err fault) →
        IsRefused (shown format) over text (outcome_of act)) }
    ensures quiet { IfOk result IsQuiet }
    ensures refused { IfOk result (λ act. number_of act.status ≢ 0) }
    ensures told { IfOk result (λ act. (text : List ℕ) → IsContent longest_text content.now text →
        Compiles over text (Err fault) →
        IsProgramTold over file.now text (outcome_of act) message.new) }
{
    match fault {
        CompileFault::Text { number, place } => {
            refuse_text(alloc, message, file, content, number, place)
        }
        CompileFault::Untimely(late) => {
            *message = late_message(alloc, file, over, &late.names, &late.table)?;
            let text = report(alloc, format, &late.names, &late.program, &late.table)?;
            Ok(put(Status::Late, text))
        }
        CompileFault::Memory(error) => Err(error),
    }
}

/// The act that puts the report on a program that is timely.
fn put_report<'a>(
    alloc: Global,
    format: Format,
    built: &Built,
) -> Result<PreparedCall<'a>, OutOfMemory>
    requires { IsRunnableBuilt built.now }
    ensures { IfOk result (λ act. act ≡ puts Status.Done
        (shown format built.now.image.names built.now.image.program built.now.table)) }
{
    let image = &built.image;
    let text = report(alloc, format, &image.names, &image.program, &built.table)?;
    Ok(put(Status::Done, text))
}

/// The act of `check` and `json` for what the program's file holds.
fn report_act<'a>(
    alloc: Global,
    message: &mut Text,
    file: &str,
    content: &Content,
    over: u16,
    format: Format,
) -> Result<PreparedCall<'a>, OutOfMemory>
    requires { over ≤ 1000 }
    ensures due { IfOk result (λ act. (text : List ℕ) → IsContent longest_text content.now text →
        IsReportDue (shown format) over text (outcome_of act)) }
    ensures quiet { IfOk result IsQuiet }
    ensures told { IfOk result (λ act. (text : List ℕ) → IsContent longest_text content.now text →
        Explains (IsProgramTold over file.now text (outcome_of act) message.new) act) }
{
    match compile_content(alloc, content, over) {
        Ok(built) => put_report(alloc, format, &built),
        Err(fault) => refuse(alloc, message, file, content, over, format, fault),
    }
}

/// The act that puts what the processes of a program that is timely can spare.
fn put_slack<'a>(alloc: Global, built: &Built) -> Result<PreparedCall<'a>, OutOfMemory>
    requires { IsRunnableBuilt built.now }
    ensures due { IfOk result (λ act. (over : ℕ) (text : List ℕ) →
        Compiles over text (Ok built.now) → IsSlackDue over text (outcome_of act)) }
    ensures quiet { IfOk result IsQuiet }
    ensures succeeds { IfOk result (λ act. number_of act.status ≡ 0) }
{
    let text = slack_text(alloc, &built.image)?;
    Ok(put(Status::Done, text))
}

/// The act of `slack` for what the program's file holds.
fn slack_act<'a>(
    alloc: Global,
    message: &mut Text,
    file: &str,
    content: &Content,
    over: u16,
) -> Result<PreparedCall<'a>, OutOfMemory>
    requires { over ≤ 1000 }
    ensures due { IfOk result (λ act. (text : List ℕ) → IsContent longest_text content.now text →
        IsSlackDue over text (outcome_of act)) }
    ensures quiet { IfOk result IsQuiet }
    ensures told { IfOk result (λ act. (text : List ℕ) → IsContent longest_text content.now text →
        Explains (IsProgramTold over file.now text (outcome_of act) message.new) act) }
{
    match compile_content(alloc, content, over) {
        Ok(built) => put_slack(alloc, &built),
        Err(fault) => refuse(alloc, message, file, content, over, Format::Text, fault),
    }
}

/// The act of `print` for what the program's file holds.
fn print_act<'a>(
    alloc: Global,
    message: &mut Text,
    file: &str,
    content: &Content,
) -> Result<PreparedCall<'a>, OutOfMemory>
    ensures due { IfOk result (λ act. (text : List ℕ) → IsContent longest_text content.now text →
        IsPrintDue text (outcome_of act)) }
    ensures quiet { IfOk result IsQuiet }
    ensures told { IfOk result (λ act. (text : List ℕ) → IsContent longest_text content.now text →
        Explains (IsTextTold file.now text (outcome_of act) message.new) act) }
{
    match read_content(alloc, content) {
        Ok(program) => Ok(put(Status::Done, syntax_printer::print(alloc, program.prog())?)),
        Err(ProgramTextFault::Text { number, place }) => {
            refuse_text(alloc, message, file, content, number, place)
        }
        Err(ProgramTextFault::Memory(error)) => Err(error),
    }
}

/// The report on a program that is timely, and its image.
pub(crate) fn report_and_image(alloc: Global, built: Built) -> Result<(Text, Image), OutOfMemory>
    requires { IsRunnableBuilt built }
    ensures report { IfOk result (λ made. made.0 ≡ report_on built) }
    ensures image { IfOk result (λ made. made.1 ≡ named_of built.image) }
{
    let Built { image: raw, table } = built;
    let text = sched_table::report(alloc, &raw.names, &raw.program, &table)?;
    let image = Image::of_valid(alloc, raw)?;
    Ok((text, image))
}

/// The act that stores the image of a program that is timely, and puts the report.
fn store_built<'a>(
    alloc: Global,
    built: Built,
    target: &'a str,
) -> Result<PreparedCall<'a>, OutOfMemory>
    requires { IsRunnableBuilt built }
    ensures due { IfOk result (λ act. (over : ℕ) (text : List ℕ) →
        Compiles over text (Ok built) → IsCompileDue over text (outcome_of act)) }
    ensures done { IfOk result (CanBeDone (Some target.now)) }
    ensures succeeds { IfOk result (λ act. number_of act.status ≡ 0) }
{
    let (text, image) = report_and_image(alloc, built)?;
    let bytes = Vec::from_slice(alloc, image.bytes())?;
    Ok(PreparedCall {
        status: Status::Done,
        text,
        store: Some(Store {
            name: target,
            bytes,
        }),
        run: None,
    })
}

/// The act of `compile` for what the program's file holds.
fn compile_act<'a>(
    alloc: Global,
    message: &mut Text,
    file: &str,
    content: &Content,
    image: &'a str,
    over: u16,
) -> Result<PreparedCall<'a>, OutOfMemory>
    requires { over ≤ 1000 }
    ensures due { IfOk result (λ act. (text : List ℕ) → IsContent longest_text content.now text →
        IsCompileDue over text (outcome_of act)) }
    ensures done { IfOk result (CanBeDone (Some image.now)) }
    ensures told { IfOk result (λ act. (text : List ℕ) → IsContent longest_text content.now text →
        Explains (IsProgramTold over file.now text (outcome_of act) message.new) act) }
{
    match compile_content(alloc, content, over) {
        Ok(built) => store_built(alloc, built, image),
        Err(fault) => refuse(alloc, message, file, content, over, Format::Text, fault),
    }
}

/// `check` and `json`, by the format of the report.
#[tactic(auto, using(crate::proofs::Read::report_unread, command_answers::proofs::Trying::tried_last))]
pub fn prepare_report<'a, F: Files>(
    alloc: Global,
    message: &mut Text,
    format: Format,
    program: &'a str,
    over: u16,
    files: &mut F,
) -> Result<PreparedCall<'a>, PrepareError<'a>>
    requires { over ≤ 1000 }
    ensures prepared { Prepares F.tells (report_call format program.now over) (F.state files.old)
        (F.state files.new) result }
    ensures only_reads { OnlyReads (F.state files.old) (F.state files.new) }
    ensures reads { HasTried (program.now ∷ []) (F.state files.old).reads
        (F.state files.new).reads (status_of result) }
    ensures told { IfOk result (IsExplained F.tells (report_call format program.now over)
        (F.state files.old).held message.new) }
{
    let content = read(files, program, LONGEST_PROGRAM)?;
    match report_act(alloc, message, program, &content, over, format) {
        Ok(act) => Ok(act),
        Err(error) => Err(PrepareError::Memory(error)),
    }
}

/// `slack`.
#[tactic(auto, using(command_answers::proofs::Held::first_unread, command_answers::proofs::Trying::tried_last))]
pub fn prepare_slack<'a, F: Files>(
    alloc: Global,
    message: &mut Text,
    program: &'a str,
    over: u16,
    files: &mut F,
) -> Result<PreparedCall<'a>, PrepareError<'a>>
    requires { over ≤ 1000 }
    ensures prepared { Prepares F.tells (call.slack program.now over) (F.state files.old)
        (F.state files.new) result }
    ensures only_reads { OnlyReads (F.state files.old) (F.state files.new) }
    ensures reads { HasTried (program.now ∷ []) (F.state files.old).reads
        (F.state files.new).reads (status_of result) }
    ensures told { IfOk result (IsExplained F.tells (call.slack program.now over)
        (F.state files.old).held message.new) }
{
    let content = read(files, program, LONGEST_PROGRAM)?;
    match slack_act(alloc, message, program, &content, over) {
        Ok(act) => Ok(act),
        Err(error) => Err(PrepareError::Memory(error)),
    }
}

/// `print`.
#[tactic(auto, using(command_answers::proofs::Held::first_unread, command_answers::proofs::Trying::tried_last))]
pub fn prepare_print<'a, F: Files>(
    alloc: Global,
    message: &mut Text,
    program: &'a str,
    files: &mut F,
) -> Result<PreparedCall<'a>, PrepareError<'a>>
    ensures prepared { Prepares F.tells (call.print program.now) (F.state files.old)
        (F.state files.new) result }
    ensures only_reads { OnlyReads (F.state files.old) (F.state files.new) }
    ensures reads { HasTried (program.now ∷ []) (F.state files.old).reads
        (F.state files.new).reads (status_of result) }
    ensures told { IfOk result (IsExplained F.tells (call.print program.now)
        (F.state files.old).held message.new) }
{
    let content = read(files, program, LONGEST_PROGRAM)?;
    match print_act(alloc, message, program, &content) {
        Ok(act) => Ok(act),
        Err(error) => Err(PrepareError::Memory(error)),
    }
}

/// `compile`.
#[tactic(auto, using(command_answers::proofs::Held::first_unread, command_answers::proofs::Trying::tried_last))]
pub fn prepare_compile<'a, F: Files>(
    alloc: Global,
    message: &mut Text,
    program: &'a str,
    image: &'a str,
    over: u16,
    files: &mut F,
) -> Result<PreparedCall<'a>, PrepareError<'a>>
    requires { over ≤ 1000 }
    ensures prepared { Prepares F.tells (call.compile program.now image.now over)
        (F.state files.old) (F.state files.new) result }
    ensures only_reads { OnlyReads (F.state files.old) (F.state files.new) }
    ensures reads { HasTried (program.now ∷ []) (F.state files.old).reads
        (F.state files.new).reads (status_of result) }
    ensures told { IfOk result (IsExplained F.tells (call.compile program.now image.now over)
        (F.state files.old).held message.new) }
{
    let content = read(files, program, LONGEST_PROGRAM)?;
    match compile_act(alloc, message, program, &content, image, over) {
        Ok(act) => Ok(act),
        Err(error) => Err(PrepareError::Memory(error)),
    }
}
