//! `edf`.

ghost use Rattle.std.specs.Prelude.{◌∷◌, [], None, IfErr, IfOk, IsSomeAnd};
ghost use Rattle.std.specs.Bool.{OnTrue};
ghost use Rattle.command_answers.specs.Acts.{outcome_of};
ghost use Rattle.command_answers.specs.Acting.{CanBeDone};
ghost use Rattle.command_answers.specs.Prepared.{IsReadError, Prepares};
ghost use Rattle.command_answers.specs.OnlyReads.{OnlyReads};
ghost use Rattle.command_answers.specs.Tried.{HasTried, MayHaveTried, status_of};
ghost use Rattle.edf_command.specs.Judged.{IsMet, IsScriptDue, IsScriptError, IsSubject, IsSubjectDue};
ghost use Rattle.command_refusals.specs.Refusals.{Explains, IsExplained};
ghost use Rattle.command_refusals.specs.Told.{IsScriptTold};
ghost use Rattle.edf_command.specs.Told.{IsSubjectTold};
ghost use Rattle.command_words.specs.Calls as call;

use crate::Judged;
use crate::judging::{judge_source, refuse_source};
use crate::running::{refuse_unfit, run_act};
use command_answers::{LONGEST_PROGRAM, LONGEST_SCRIPT, PrepareError, PreparedCall, read};
use outside::Files;
use sched_demand::Judgement;
use std::alloc::Global;
use syntax_tree::Text;

/// The last part of `edf`: the script of a program whose demand is met.
#[tactic(auto, using(command_answers::proofs::Trying::tried_last))]
fn run_on<'a, F: Files>(
    alloc: Global,
    message: &mut Text,
    subject: Judged,
    script: &'a str,
    files: &mut F,
) -> Result<PreparedCall<'a>, PrepareError<'a>>
    requires subject { IsSubject subject }
    requires met { IsMet subject.answer }
    ensures due { IfOk result (λ act. OnTrue F.tells
        (IsSomeAnd ((F.state files.old).held script.now) (λ text.
        IsScriptDue subject.image subject.answer text (outcome_of act)))) }
    ensures done { IfOk result (CanBeDone None) }
    ensures failed { IfErr result
        (IsReadError script.now (F.state files.old) (F.state files.new)) }
    ensures only_reads { OnlyReads (F.state files.old) (F.state files.new) }
    ensures reads { HasTried (script.now ∷ []) (F.state files.old).reads
        (F.state files.new).reads (status_of result) }
    ensures told { IfOk result (λ act. OnTrue F.tells
        (IsSomeAnd ((F.state files.old).held script.now) (λ text. Explains
        (IsScriptTold subject.image.names script.now text (outcome_of act) message.new) act))) }
{
    let content = read(files, script, LONGEST_SCRIPT)?;
    match run_act(alloc, message, script, subject, &content) {
        Ok(act) => Ok(act),
        Err(error) => Err(PrepareError::Memory(error)),
    }
}

/// The second part of `edf`, of a program that was judged.
fn judged_on<'a, F: Files>(
    alloc: Global,
    message: &mut Text,
    program: &str,
    subject: Judged,
    script: &'a str,
    files: &mut F,
) -> Result<PreparedCall<'a>, PrepareError<'a>>
    requires { IsSubject subject }
    ensures due { IfOk result (λ act. OnTrue F.tells (IsSubjectDue subject.image
        subject.answer ((F.state files.old).held script.now) (outcome_of act))) }
    ensures done { IfOk result (CanBeDone None) }
    ensures failed { IfErr result (IsScriptError subject.answer script.now (F.state files.old)
        (F.state files.new)) }
    ensures only_reads { OnlyReads (F.state files.old) (F.state files.new) }
    ensures reads { MayHaveTried (script.now ∷ []) (F.state files.old).reads
        (F.state files.new).reads (status_of result) }
    ensures told { IfOk result (λ act. OnTrue F.tells (Explains (IsSubjectTold program.now
        subject ((F.state files.old).held script.now) script.now (outcome_of act) message.new)
        act)) }
{
    if let Judgement::Feasible { .. } = subject.answer {
        return run_on(alloc, message, subject, script, files);
    }
    match refuse_unfit(alloc, message, program, &subject) {
        Ok(act) => Ok(act),
        Err(error) => Err(PrepareError::Memory(error)),
    }
}

/// `edf`: the program is read and judged, and the script only where its demand is met.
#[tactic(auto, using(command_answers::proofs::Held::first_unread, command_answers::proofs::Trying::tried_first, command_answers::proofs::Trying::tried_perhaps, command_answers::proofs::Trying::tried_alone, command_answers::proofs::OnlyReads::reads_on))]
pub fn prepare_edf<'a, F: Files>(
    alloc: Global,
    message: &mut Text,
    program: &'a str,
    script: &'a str,
    files: &mut F,
) -> Result<PreparedCall<'a>, PrepareError<'a>>
    ensures prepared { Prepares F.tells (call.edf program.now script.now)
        (F.state files.old) (F.state files.new) result }
    ensures only_reads { OnlyReads (F.state files.old) (F.state files.new) }
    ensures reads { HasTried (program.now ∷ script.now ∷ []) (F.state files.old).reads
        (F.state files.new).reads (status_of result) }
    ensures told { IfOk result (IsExplained F.tells (call.edf program.now script.now)
        (F.state files.old).held message.new) }
{
    let content = read(files, program, LONGEST_PROGRAM)?;
    match judge_source(alloc, &content) {
        Ok(subject) => judged_on(alloc, message, program, subject, script, files),
        Err(fault) => match refuse_source(alloc, message, program, &content, fault) {
            Ok(act) => Ok(act),
            Err(error) => Err(PrepareError::Memory(error)),
        },
    }
}
