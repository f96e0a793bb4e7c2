//! Logs judged.

ghost use Rattle.std.specs.Prelude.{◌<◌, ◌^◌, ℕ, List, [], IfErr, IfOk};
ghost use Rattle.command_answers.specs.Contents.{IsContent};
ghost use Rattle.command_due.specs.Source.{IsWritten};
ghost use Rattle.event_log.specs.Finding.{AreFound};
ghost use Rattle.event_log.specs.Logs.{longest_text};
ghost use Rattle.event_log.specs.Reader.{HasRead, IsReader, names_of};
ghost use Rattle.replay.specs.Held.{IsSource};
ghost use Rattle.replay.specs.Judging.{IsFaultOf, IsFoundOf};
ghost use Rattle.script.specs.Meaning.{said};
ghost use Rattle.source_semantics.specs.Config.{start};
ghost use Rattle.syntax_tree.specs.Placed.{placed, plain};

use crate::replay;
use crate::sources::Source;
use command_answers::Content;
use event_log::{LogFault, LogReader, NameIndex, condition_names};
use replay_reason_spec::Finding;
use script::Script;
use std::alloc::Global;

/// What is found of a log, and how many events it has.
#[derive(Drop)]
pub struct JudgedLog {
    pub finding: Finding,
    pub count: u32,
}

/// What is found of the log of which no line is read yet, by a program that has no fault.
fn finding_on(
    alloc: Global,
    source: &Source<'_>,
    script: &Script,
    reader: &mut LogReader<'_>,
) -> Result<Finding, LogFault>
    ghost text: { List ℕ }
    requires written { IsWritten text (placed source.now.program) }
    requires end { script.now.end < 2 ^ 61 }
    requires reader { IsReader reader.old }
    ensures found { IfOk result (λ found. (log : List ℕ) → HasRead log [] reader.old →
        IsFoundOf (plain (placed source.now.program)) (said script.now.lines script.now.end)
        (start (plain (placed source.now.program))) (names_of reader.old) log found
        reader.new.lines) }
    ensures fault { IfErr result (λ why. (log : List ℕ) → HasRead log [] reader.old →
        IsFaultOf (names_of reader.old) log why) }
{
    replay(alloc, &source.program, script, reader)
}

/// What is found of the log that a text is, by a program that has no fault, whose names have these
/// numbers.
fn judge_lines(
    alloc: Global,
    source: &Source<'_>,
    script: &Script,
    index: &NameIndex<'_, '_>,
    text: &[u8],
) -> Result<JudgedLog, LogFault>
    requires source { IsSource source.now }
    requires end { script.now.end < 2 ^ 61 }
    requires found { AreFound index.now }
    ensures found { IfOk result (λ it. IsFoundOf (plain (placed source.now.program))
        (said script.now.lines script.now.end) (start (plain (placed source.now.program)))
        index.now.names.now text.now it.finding it.count) }
    ensures fault { IfErr result (IsFaultOf index.now.names.now text.now) }
{
    let mut reader = LogReader::new(index, text)?;
    let finding = finding_on(alloc, source, script, &mut reader)?;
    Ok(JudgedLog {
        finding,
        count: reader.lines(),
    })
}

/// What is found of the log that a text is, by a program that has no fault.
fn judge_text(
    alloc: Global,
    source: &Source<'_>,
    script: &Script,
    text: &[u8],
) -> Result<JudgedLog, LogFault>
    requires source { IsSource source.now }
    requires end { script.now.end < 2 ^ 61 }
    ensures found { IfOk result (λ it. IsFoundOf (plain (placed source.now.program))
        (said script.now.lines script.now.end) (start (plain (placed source.now.program)))
        source.now.names text.now it.finding it.count) }
    ensures fault { IfErr result (IsFaultOf source.now.names text.now) }
{
    let conditions = condition_names(alloc, &source.names)?;
    let index = NameIndex::new(alloc, &source.names, &conditions)?;
    judge_lines(alloc, source, script, &index, text)
}

/// What is found of the log that a file holds, by a program that has no fault.
///
/// # Errors
///
/// The text is no log for the names of the program, or memory is wanting.
pub fn judge_log(
    alloc: Global,
    source: &Source<'_>,
    script: &Script,
    content: &Content,
) -> Result<JudgedLog, LogFault>
    requires source { IsSource source.now }
    requires end { script.now.end < 2 ^ 61 }
    ensures found { IfOk result (λ it. (text : List ℕ) → IsContent longest_text content.now text →
        IsFoundOf (plain (placed source.now.program)) (said script.now.lines script.now.end)
        (start (plain (placed source.now.program))) source.now.names text it.finding it.count) }
    ensures fault { IfErr result (λ why. (text : List ℕ) → IsContent longest_text content.now text →
        IsFaultOf source.now.names text why) }
{
    match content {
        Content::Bytes(text) => judge_text(alloc, source, script, text.as_slice()),
        Content::TooLong => Err(LogFault::Long),
    }
}
