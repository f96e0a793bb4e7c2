//! `why` and `fit`.

ghost use Rattle.std.specs.Prelude.{◌∷◌, [], ◌≤◌, IfOk};
ghost use Rattle.command_words.specs.Calls as call;
ghost use Rattle.command_answers.specs.Prepared.{Prepares};
ghost use Rattle.command_answers.specs.OnlyReads.{OnlyReads};
ghost use Rattle.command_answers.specs.Tried.{HasTried, status_of};
ghost use Rattle.command_refusals.specs.Refusals.{IsExplained};

use crate::acts::{fit_act, why_act};
use command_answers::{LONGEST_PROGRAM, PrepareError, PreparedCall, read};
use outside::Files;
use std::alloc::Global;
use syntax_tree::Text;

/// `why`.
#[tactic(auto, using(command_answers::proofs::Held::first_unread, command_answers::proofs::Trying::tried_last))]
pub fn prepare_why<'a, F: Files>(
    alloc: Global,
    message: &mut Text,
    program: &'a str,
    over: u16,
    files: &mut F,
) -> Result<PreparedCall<'a>, PrepareError<'a>>
    requires { over ≤ 1000 }
    ensures prepared { Prepares F.tells (call.why program.now over) (F.state files.old)
        (F.state files.new) result }
    ensures only_reads { OnlyReads (F.state files.old) (F.state files.new) }
    ensures reads { HasTried (program.now ∷ []) (F.state files.old).reads
        (F.state files.new).reads (status_of result) }
    ensures told { IfOk result (IsExplained F.tells (call.why program.now over)
        (F.state files.old).held message.new) }
{
    let content = read(files, program, LONGEST_PROGRAM)?;
    match why_act(alloc, message, program, &content, over) {
        Ok(act) => Ok(act),
        Err(error) => Err(PrepareError::Memory(error)),
    }
}

/// `fit`.
#[tactic(auto, using(command_answers::proofs::Held::first_unread, command_answers::proofs::Trying::tried_last))]
pub fn prepare_fit<'a, F: Files>(
    alloc: Global,
    message: &mut Text,
    program: &'a str,
    over: u16,
    files: &mut F,
) -> Result<PreparedCall<'a>, PrepareError<'a>>
    requires { over ≤ 1000 }
    ensures prepared { Prepares F.tells (call.fit program.now over) (F.state files.old)
        (F.state files.new) result }
    ensures only_reads { OnlyReads (F.state files.old) (F.state files.new) }
    ensures reads { HasTried (program.now ∷ []) (F.state files.old).reads
        (F.state files.new).reads (status_of result) }
    ensures told { IfOk result (IsExplained F.tells (call.fit program.now over)
        (F.state files.old).held message.new) }
{
    let content = read(files, program, LONGEST_PROGRAM)?;
    match fit_act(alloc, message, program, &content, over) {
        Ok(act) => Ok(act),
        Err(error) => Err(PrepareError::Memory(error)),
    }
}
