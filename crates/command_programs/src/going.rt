//! `go`.

ghost use Rattle.std.specs.Prelude.{◌∷◌, [], ◌≡◌, ◌≤◌, ℕ, List, Some, IfErr, IfOk, IsSomeAnd};
ghost use Rattle.std.specs.Bool.{OnTrue};
ghost use Rattle.command_answers.specs.Acts.{outcome_of};
ghost use Rattle.script.specs.Scripts.{longest_text};
ghost use Rattle.command_words.specs.Calls as call;
ghost use Rattle.command_answers.specs.Acting.{CanBeDone};
ghost use Rattle.command_answers.specs.Contents.{IsContent};
ghost use Rattle.command_answers.specs.Prepared.{IsReadError, Prepares};
ghost use Rattle.command_answers.specs.OnlyReads.{OnlyReads};
ghost use Rattle.command_answers.specs.Tried.{HasTried, status_of};
ghost use Rattle.command_programs.specs.Runnable.{IsRunnableBuilt, RunsBuilt};
ghost use Rattle.command_programs.specs.Scripted.{IsBuiltRunDue, built_run};
ghost use Rattle.command_refusals.specs.Refusals.{Explains, IsExplained};
ghost use Rattle.command_refusals.specs.Told.{IsScriptTold};

use crate::compile_content;
use crate::programs::{Format, refuse, report_and_image};
use command_answers::{
    Content, LONGEST_PROGRAM, LONGEST_SCRIPT, PrepareError, PreparedCall, PreparedRun,
    RunnableImage, Status, Store, judge_script, read,
};
use command_refusals::refuse_script;
use compile::Built;
use out_of_memory::OutOfMemory;
use outside::Files;
use script::Script;
use std::alloc::Global;
use syntax_tree::Text;

/// The act that stores the image of a program that is timely, puts the report, and runs the image
/// over the script.
fn run_built<'a>(
    alloc: Global,
    built: Built,
    script: Script,
    target: &'a str,
) -> Result<PreparedCall<'a>, OutOfMemory>
    requires ready { IsRunnableBuilt built }
    requires runs { RunsBuilt built script }
    ensures outcome { IfOk result (λ act. outcome_of act ≡ built_run built script) }
    ensures done { IfOk result (CanBeDone (Some target.now)) }
{
    let (text, image) = report_and_image(alloc, built)?;
    let bytes = Vec::from_slice(alloc, image.bytes())?;
    Ok(PreparedCall {
        status: Status::Done,
        text,
        store: Some(Store {
            name: target,
            bytes,
        }),
        run: Some(PreparedRun {
            image: RunnableImage::Ranks(image),
            script,
        }),
    })
}

/// The act of `go` for what the script's file holds, where the program is timely.
fn go_act<'a>(
    alloc: Global,
    message: &mut Text,
    built: Built,
    script: &str,
    content: &Content,
    image: &'a str,
) -> Result<PreparedCall<'a>, OutOfMemory>
    requires { IsRunnableBuilt built }
    ensures due { IfOk result (λ act. (text : List ℕ) → IsContent longest_text content.now text →
        IsBuiltRunDue built text (outcome_of act)) }
    ensures done { IfOk result (CanBeDone (Some image.now)) }
    ensures told { IfOk result (λ act. (text : List ℕ) → IsContent longest_text content.now text →
        Explains (IsScriptTold built.image.names script.now text (outcome_of act) message.new) act) }
{
    match judge_script(alloc, content, &built.image.names) {
        Ok(lines) => run_built(alloc, built, lines, image),
        Err(fault) => refuse_script(alloc, message, script, content, &built.image.names, &fault),
    }
}

/// The second half of `go`: the script of a program that is timely.
#[tactic(auto, using(command_answers::proofs::Trying::tried_last))]
fn go_on<'a, F: Files>(
    alloc: Global,
    message: &mut Text,
    built: Built,
    image: &'a str,
    script: &'a str,
    files: &mut F,
) -> Result<PreparedCall<'a>, PrepareError<'a>>
    requires { IsRunnableBuilt built }
    ensures due { IfOk result (λ act. OnTrue F.tells
        (IsSomeAnd ((F.state files.old).held script.now)
        (λ text. IsBuiltRunDue built text (outcome_of act)))) }
    ensures done { IfOk result (CanBeDone (Some image.now)) }
    ensures failed { IfErr result
        (IsReadError script.now (F.state files.old) (F.state files.new)) }
    ensures only_reads { OnlyReads (F.state files.old) (F.state files.new) }
    ensures reads { HasTried (script.now ∷ []) (F.state files.old).reads
        (F.state files.new).reads (status_of result) }
    ensures told { IfOk result (λ act. OnTrue F.tells
        (IsSomeAnd ((F.state files.old).held script.now) (λ text. Explains
        (IsScriptTold built.image.names script.now text (outcome_of act) message.new) act))) }
{
    let content = read(files, script, LONGEST_SCRIPT)?;
    match go_act(alloc, message, built, script, &content, image) {
        Ok(act) => Ok(act),
        Err(error) => Err(PrepareError::Memory(error)),
    }
}

/// `go`: the program is read and judged, and the script only where the program is timely.
#[tactic(auto, using(command_answers::proofs::Held::first_unread, command_answers::proofs::Trying::tried_first, command_answers::proofs::Trying::tried_on, command_answers::proofs::Trying::tried_alone, command_answers::proofs::OnlyReads::reads_on))]
pub fn prepare_go<'a, F: Files>(
    alloc: Global,
    message: &mut Text,
    program: &'a str,
    image: &'a str,
    script: &'a str,
    over: u16,
    files: &mut F,
) -> Result<PreparedCall<'a>, PrepareError<'a>>
    requires { over ≤ 1000 }
    ensures prepared { Prepares F.tells (call.go program.now image.now script.now over)
        (F.state files.old) (F.state files.new) result }
    ensures only_reads { OnlyReads (F.state files.old) (F.state files.new) }
    ensures reads { HasTried (program.now ∷ script.now ∷ []) (F.state files.old).reads
        (F.state files.new).reads (status_of result) }
    ensures told { IfOk result (IsExplained F.tells
        (call.go program.now image.now script.now over) (F.state files.old).held message.new) }
{
    let content = read(files, program, LONGEST_PROGRAM)?;
    match compile_content(alloc, &content, over) {
        Ok(built) => go_on(alloc, message, built, image, script, files),
        Err(fault) => match refuse(alloc, message, program, &content, over, Format::Text, fault) {
            Ok(act) => Ok(act),
            Err(error) => Err(PrepareError::Memory(error)),
        },
    }
}
