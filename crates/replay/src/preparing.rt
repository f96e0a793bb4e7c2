//! `replay`.

ghost use Rattle.std.specs.Prelude.{◌∷◌, [], ◌<◌, ◌^◌, IfErr, IfOk, IsSomeAnd};
ghost use Rattle.std.specs.Bool.{OnTrue};
ghost use Rattle.command_answers.specs.Acts.{outcome_of};
ghost use Rattle.command_answers.specs.Acting.{IsQuiet};
ghost use Rattle.command_answers.specs.Prepared.{IsReadError, Prepares};
ghost use Rattle.command_answers.specs.OnlyReads.{OnlyReads};
ghost use Rattle.command_answers.specs.Tried.{HasTried, status_of};
ghost use Rattle.replay.specs.Held.{IsSource};
ghost use Rattle.replay.specs.Scripted.{IsLaterError, IsReplayed};
ghost use Rattle.command_due.specs.ReplayDue.{IsJudged};
ghost use Rattle.syntax_tree.specs.Placed.{placed};
ghost use Rattle.command_refusals.specs.Refusals.{Explains, IsExplained};
ghost use Rattle.command_refusals.specs.Told.{IsLogTold};
ghost use Rattle.replay.specs.Explained.{IsScriptOrLogTold};
ghost use Rattle.command_words.specs.Calls as call;

use crate::judge_log::log_act;
use crate::sources::{Source, read_source, refuse_source};
use command_answers::{
    LONGEST_LOG, LONGEST_PROGRAM, LONGEST_SCRIPT, PrepareError, PreparedCall, judge_script, read,
};
use command_refusals::refuse_script;
use outside::Files;
use script::Script;
use std::alloc::Global;
use syntax_tree::Text;

/// The last third of `replay`: the log of a program over a script.
#[tactic(auto, using(command_answers::proofs::Trying::tried_last))]
fn log_on<'a, F: Files>(
    alloc: Global,
    message: &mut Text,
    source: &Source<'_>,
    script: &Script,
    log: &'a str,
    files: &mut F,
) -> Result<PreparedCall<'a>, PrepareError<'a>>
    requires source { IsSource source.now }
    requires end { script.now.end < 2 ^ 61 }
    ensures due { IfOk result (λ act. OnTrue F.tells
        (IsSomeAnd ((F.state files.old).held log.now) (λ other.
        IsJudged (placed source.now.program) script.now.lines script.now.end other
        (outcome_of act)))) }
    ensures quiet { IfOk result IsQuiet }
    ensures failed { IfErr result
        (IsReadError log.now (F.state files.old) (F.state files.new)) }
    ensures only_reads { OnlyReads (F.state files.old) (F.state files.new) }
    ensures reads { HasTried (log.now ∷ []) (F.state files.old).reads
        (F.state files.new).reads (status_of result) }
    ensures told { IfOk result (λ act. OnTrue F.tells
        (IsSomeAnd ((F.state files.old).held log.now) (λ other. Explains
        (IsLogTold (placed source.now.program) script.now.lines script.now.end log.now other
        (outcome_of act) message.new) act))) }
{
    let content = read(files, log, LONGEST_LOG)?;
    match log_act(alloc, message, log, source, script, &content) {
        Ok(act) => Ok(act),
        Err(error) => Err(PrepareError::Memory(error)),
    }
}

/// The second third of `replay`: the script for a program, and the log where it is one.
#[tactic(auto, using(command_answers::proofs::Trying::tried_first, command_answers::proofs::Trying::tried_on, command_answers::proofs::Trying::tried_alone, command_answers::proofs::OnlyReads::reads_on))]
fn script_on<'a, F: Files>(
    alloc: Global,
    message: &mut Text,
    source: &Source<'_>,
    script: &'a str,
    log: &'a str,
    files: &mut F,
) -> Result<PreparedCall<'a>, PrepareError<'a>>
    requires { IsSource source.now }
    ensures due { IfOk result (λ act. OnTrue F.tells (IsReplayed (placed source.now.program)
        ((F.state files.old).held script.now) ((F.state files.old).held log.now)
        (outcome_of act))) }
    ensures quiet { IfOk result IsQuiet }
    ensures failed { IfErr result (IsLaterError F.tells (placed source.now.program)
        (F.state files.old) (F.state files.new) script.now log.now) }
    ensures only_reads { OnlyReads (F.state files.old) (F.state files.new) }
    ensures reads { HasTried (script.now ∷ log.now ∷ []) (F.state files.old).reads
        (F.state files.new).reads (status_of result) }
    ensures told { IfOk result (λ act. OnTrue F.tells (Explains (IsScriptOrLogTold
        (placed source.now.program) script.now log.now ((F.state files.old).held script.now)
        ((F.state files.old).held log.now) (outcome_of act) message.new) act)) }
{
    let content = read(files, script, LONGEST_SCRIPT)?;
    match judge_script(alloc, &content, &source.names) {
        Ok(lines) => log_on(alloc, message, source, &lines, log, files),
        Err(fault) => match refuse_script(alloc, message, script, &content, &source.names, &fault) {
            Ok(act) => Ok(act),
            Err(error) => Err(PrepareError::Memory(error)),
        },
    }
}

/// `replay`: the program is read and judged, the script only where the program has no fault, and
/// the log only where the script has none.
#[tactic(auto, using(command_answers::proofs::Held::first_unread, command_answers::proofs::Trying::tried_first, command_answers::proofs::Trying::tried_on, command_answers::proofs::Trying::tried_alone, command_answers::proofs::OnlyReads::reads_on))]
pub fn prepare_replay<'a, F: Files>(
    alloc: Global,
    message: &mut Text,
    program: &'a str,
    script: &'a str,
    log: &'a str,
    files: &mut F,
) -> Result<PreparedCall<'a>, PrepareError<'a>>
    ensures prepared { Prepares F.tells (call.replay program.now script.now log.now)
        (F.state files.old) (F.state files.new) result }
    ensures only_reads { OnlyReads (F.state files.old) (F.state files.new) }
    ensures reads { HasTried (program.now ∷ script.now ∷ log.now ∷ []) (F.state files.old).reads
        (F.state files.new).reads (status_of result) }
    ensures told { IfOk result (IsExplained F.tells (call.replay program.now script.now log.now)
        (F.state files.old).held message.new) }
{
    let content = read(files, program, LONGEST_PROGRAM)?;
    match read_source(alloc, &content) {
        Ok(source) => script_on(alloc, message, &source, script, log, files),
        Err(fault) => match refuse_source(alloc, message, program, &content, fault) {
            Ok(act) => Ok(act),
            Err(error) => Err(PrepareError::Memory(error)),
        },
    }
}
