//! Logs, judged by the program.

ghost use Rattle.std.specs.Prelude.{◌≡◌, ◌≢◌, ◌<◌, ◌≤◌, ◌^◌, ℕ, List, IfOk, length};
ghost use Rattle.out_of_memory.specs.Refused.{refused};
ghost use Rattle.command_answers.specs.Acts.{outcome_of};
ghost use Rattle.command_answers.specs.Acting.{IsQuiet, puts};
ghost use Rattle.command_answers.specs.Contents.{IsContent};
ghost use Rattle.event_log.specs.Logs.{longest_text};
ghost use Rattle.event_log.specs.declared.fault.LogFault.TheVariants as log_fault;
ghost use Rattle.replay.specs.Held.{IsSource};
ghost use Rattle.replay.specs.Lines.{line_of, status_of};
ghost use Rattle.command_due.specs.ReplayDue as due;
ghost use Rattle.command_due.specs.ReplayDue.{IsJudged};
ghost use Rattle.command_refusals.specs.Refusals.{Explains};
ghost use Rattle.command_refusals.specs.Told.{IsLogTold, IsMisreadTold};
ghost use Rattle.message_log.specs.Log as message_of;
ghost use Rattle.message_log.specs.Refused as refused_by;
ghost use Rattle.replay_reason_spec.specs.Findings.{verdict_of};
ghost use Rattle.replay.specs.Explained.{IsFindingTold};
ghost use Rattle.syntax_tree.specs.Placed.{placed};

use crate::logs::{JudgedLog, judge_log};
use crate::sources::Source;
use command_answers::{Content, PreparedCall, Status, log_fault_line, put, refused_line, run_line};
use event_log::LogFault;
use image::ImageNames;
use message_log::{log_message, long_message, refused_message};
use out_of_memory::OutOfMemory;
use replay_reason_spec::{Finding, Reason};
use script::Script;
use std::alloc::Global;
use syntax_tree::Text;

/// The message for a log for these names whose event on this line is refused, for this reason.
fn message_of_refused(
    alloc: Global,
    file: &str,
    content: &Content,
    names: &ImageNames,
    line: u32,
    why: &Reason,
) -> Result<Text, OutOfMemory>
    ensures { IfOk result (λ message. (log : List ℕ) → IsContent longest_text content.now log →
        length log ≤ longest_text →
        message ≡ refused_by.refused_message file.now log line names.now why.now) }
{
    match content {
        Content::Bytes(text) => refused_message(alloc, file, text.as_slice(), line, names, why),
        Content::TooLong => long_message(alloc, file),
    }
}

/// The act that puts the verdict on a log for these names, of which this is found. Where it is
/// refused, the message takes the place of the given one.
fn put_verdict<'a>(
    alloc: Global,
    message: &mut Text,
    file: &str,
    content: &Content,
    names: &ImageNames,
    judged: &JudgedLog,
) -> Result<PreparedCall<'a>, OutOfMemory>
    ensures act { IfOk result (λ act. act ≡ puts (status_of (verdict_of judged.now.finding))
        (line_of (verdict_of judged.now.finding) judged.now.count)) }
    ensures told { IfOk result (λ act. (log : List ℕ) → IsContent longest_text content.now log →
        length log ≤ longest_text →
        Explains (IsFindingTold names.now file.now log judged.now.finding (outcome_of act)
        message.new) act) }
{
    match &judged.finding {
        Finding::Run => Ok(put(Status::Done, run_line(alloc, u64::from(judged.count))?)),
        Finding::Refused { line, reason } => {
            *message = message_of_refused(alloc, file, content, names, *line, reason)?;
            Ok(put(Status::Log, refused_line(alloc, *line)?))
        }
    }
}

/// The message for a fault of what a log's file holds, for these names.
fn message_of_fault(
    alloc: Global,
    file: &str,
    content: &Content,
    names: &ImageNames,
    fault: &LogFault,
) -> Result<Text, OutOfMemory>
    ensures { IfOk result (λ message. (log : List ℕ) → IsContent longest_text content.now log →
        message ≡ message_of.log_message file.now log names.now fault.now) }
{
    match content {
        Content::Bytes(text) => log_message(alloc, file, text.as_slice(), names, fault),
        Content::TooLong => long_message(alloc, file),
    }
}

/// The act for a file that holds no log for these names: it puts the line of the fault, and the
/// message takes the place of the given one.
fn refuse_log<'a>(
    alloc: Global,
    message: &mut Text,
    file: &str,
    content: &Content,
    names: &ImageNames,
    fault: &LogFault,
) -> Result<PreparedCall<'a>, OutOfMemory>
    ensures act { IfOk result (λ act. act ≡ puts Status.Log (due.log_fault_line fault.now)) }
    ensures is_fault { IfOk result (λ act. fault.now ≢ log_fault.Memory refused) }
    ensures told { IfOk result (λ act. (log : List ℕ) → IsContent longest_text content.now log →
        IsMisreadTold names.now file.now log (outcome_of act) message.new) }
{
    *message = message_of_fault(alloc, file, content, names, fault)?;
    match fault {
        LogFault::Memory(error) => Err(*error),
        LogFault::Line(_) | LogFault::Long => Ok(put(Status::Log, log_fault_line(alloc, fault)?)),
    }
}

/// The act of `replay` for what the log's file holds, where program and script have no fault.
pub fn log_act<'a>(
    alloc: Global,
    message: &mut Text,
    file: &str,
    source: &Source<'_>,
    script: &Script,
    content: &Content,
) -> Result<PreparedCall<'a>, OutOfMemory>
    requires source { IsSource source.now }
    requires end { script.now.end < 2 ^ 61 }
    ensures due { IfOk result (λ act. (log : List ℕ) → IsContent longest_text content.now log →
        IsJudged (placed source.now.program) script.now.lines script.now.end log
        (outcome_of act)) }
    ensures quiet { IfOk result IsQuiet }
    ensures told { IfOk result (λ act. (log : List ℕ) → IsContent longest_text content.now log →
        Explains (IsLogTold (placed source.now.program) script.now.lines script.now.end file.now
        log (outcome_of act) message.new) act) }
{
    match judge_log(alloc, source, script, content) {
        Ok(judged) => put_verdict(alloc, message, file, content, &source.names, &judged),
        Err(fault) => refuse_log(alloc, message, file, content, &source.names, &fault),
    }
}
