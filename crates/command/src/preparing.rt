//! What is due of a command, prepared: files are read, texts are judged, and what is left is an
//! act.
//!
//! `command_answers` says what is due of a call (`IsDue`), what an act comes to (`outcome_of`), and
//! what each answer of `prepare` means (`Prepares`): an act that comes to what is due, and that the
//! machine can run; or a read that failed. Nothing is stored or put here.

ghost use Rattle.std.specs.Prelude.{◌≤◌, IfOk};
ghost use Rattle.command_words.specs.Calls.{over_of};
ghost use Rattle.command_words.specs.Words.{call_of};
ghost use Rattle.command_answers.specs.Files.{sources_of};
ghost use Rattle.command_answers.specs.Prepared.{Prepares};
ghost use Rattle.command_answers.specs.OnlyReads.{OnlyReads};
ghost use Rattle.command_answers.specs.Tried.{HasTried, status_of};
ghost use Rattle.command_refusals.specs.Refusals.{IsExplained};

use analysis_command::{prepare_fit, prepare_why};
use command_answers::{PrepareError, PreparedCall};
use command_images::{
    prepare_asm, prepare_chart, prepare_dis, prepare_migrate, prepare_run, prepare_watch,
};
use command_programs::{
    Format, prepare_compile, prepare_go, prepare_print, prepare_report, prepare_slack,
};
use command_words::Command;
use edf_command::prepare_edf;
use outside::Files;
use replay::prepare_replay;
use std::alloc::Global;
use syntax_tree::Text;
use table_command::prepare_table;

/// Reads what the command names, judges it, and makes what is left to be done: what is stored, what
/// is put, and what is run. Where it is refused, the message for a person takes the place of the
/// given one. An overhead is at most 1,000 ticks.
///
/// # Errors
///
/// `Unread`, with the name of the file, only where its read failed, that of the script only where
/// what comes before has no fault.
/// `Memory` where there is not enough memory.
pub fn prepare<'a, F: Files>(
    alloc: Global,
    message: &mut Text,
    command: &Command<'a>,
    files: &mut F,
) -> Result<PreparedCall<'a>, PrepareError<'a>>
    requires overhead { over_of (call_of command.now) ≤ 1000 }
    ensures prepared { Prepares F.tells (call_of command.now) (F.state files.old)
        (F.state files.new) result }
    ensures only_reads { OnlyReads (F.state files.old) (F.state files.new) }
    ensures reads { HasTried (sources_of (call_of command.now)) (F.state files.old).reads
        (F.state files.new).reads (status_of result) }
    ensures told { IfOk result (IsExplained F.tells (call_of command.now)
        (F.state files.old).held message.new) }
{
    match *command {
        Command::Go {
            program,
            image,
            script,
            overhead,
        } => prepare_go(alloc, message, program, image, script, overhead, files),
        Command::Check { program, overhead } => {
            prepare_report(alloc, message, Format::Text, program, overhead, files)
        }
        Command::Compile {
            program,
            image,
            overhead,
        } => prepare_compile(alloc, message, program, image, overhead, files),
        Command::Json { program, overhead } => {
            prepare_report(alloc, message, Format::Json, program, overhead, files)
        }
        Command::Slack { program, overhead } => prepare_slack(
            alloc, message, program, overhead, files,
        ),
        Command::Print { program } => prepare_print(alloc, message, program, files),
        Command::Run { image, script } => prepare_run(alloc, message, image, script, files),
        Command::Migrate { image, target } => prepare_migrate(alloc, message, image, target, files),
        Command::Asm { text, image } => prepare_asm(alloc, message, text, image, files),
        Command::Dis { image, text } => prepare_dis(alloc, message, image, text, files),
        Command::Watch {
            image,
            script,
            stop,
        } => prepare_watch(alloc, message, image, script, stop, files),
        Command::Replay {
            program,
            script,
            log,
        } => prepare_replay(alloc, message, program, script, log, files),
        Command::Edf { program, script } => prepare_edf(alloc, message, program, script, files),
        Command::Why { program, overhead } => prepare_why(alloc, message, program, overhead, files),
        Command::Fit { program, overhead } => prepare_fit(alloc, message, program, overhead, files),
        Command::Chart {
            image,
            script,
            first,
            end,
        } => prepare_chart(alloc, message, image, script, first, end, files),
        Command::Table { tasks, program } => prepare_table(alloc, message, tasks, program, files),
    }
}
