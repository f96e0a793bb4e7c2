//! `run`.

ghost use Rattle.std.specs.Prelude.{◌∷◌, [], ◌≡◌, ℕ, List, None, IfErr, IfOk, IsSomeAnd};
ghost use Rattle.std.specs.Bool.{OnTrue};
ghost use Rattle.command_answers.specs.Acts.{outcome_of};
ghost use Rattle.script.specs.Scripts.{longest_text};
ghost use Rattle.command_words.specs.Calls as call;
ghost use Rattle.command_answers.specs.Acting.{CanBeDone};
ghost use Rattle.command_answers.specs.Contents.{IsContent};
ghost use Rattle.command_answers.specs.Prepared.{IsReadError, Prepares};
ghost use Rattle.command_answers.specs.OnlyReads.{OnlyReads};
ghost use Rattle.command_answers.specs.Tried.{HasTried, status_of};
ghost use Rattle.command_answers.specs.Acts.{CanRunByRanks};
ghost use Rattle.command_images.specs.Scripted.{IsImageRunDue, image_run};
ghost use Rattle.command_refusals.specs.Refusals.{Explains, IsExplained};
ghost use Rattle.command_refusals.specs.Told.{IsScriptTold};

use crate::images::{load_content, refuse_image};
use crate::scripts::script_for;
use command_answers::{
    Content, LONGEST_IMAGE, LONGEST_SCRIPT, PrepareError, PreparedCall, PreparedRun, RunnableImage,
    Status, read,
};
use command_refusals::refuse_script;
use image_loaded::Image;
use out_of_memory::OutOfMemory;
use outside::Files;
use script::Script;
use std::alloc::Global;
use syntax_tree::Text;

/// The act that runs an image over a script.
fn run_image<'a>(alloc: Global, image: Image, script: Script) -> PreparedCall<'a>
    requires { CanRunByRanks image script }
    ensures outcome { outcome_of result ≡ image_run image script }
    ensures done { CanBeDone None result }
{
    PreparedCall {
        status: Status::Done,
        text: Text::new(alloc),
        store: None,
        run: Some(PreparedRun {
            image: RunnableImage::Ranks(image),
            script,
        }),
    }
}

/// The act of `run` for what the script's file holds, where the image is a valid one.
fn run_act<'a>(
    alloc: Global,
    message: &mut Text,
    file: &str,
    image: Image,
    content: &Content,
) -> Result<PreparedCall<'a>, OutOfMemory>
    ensures due { IfOk result (λ act. (text : List ℕ) → IsContent longest_text content.now text →
        IsImageRunDue image text (outcome_of act)) }
    ensures done { IfOk result (CanBeDone None) }
    ensures told { IfOk result (λ act. (text : List ℕ) → IsContent longest_text content.now text →
        Explains (IsScriptTold image.names file.now text (outcome_of act) message.new) act) }
{
    match script_for(alloc, content, &image) {
        Ok(script) => Ok(run_image(alloc, image, script)),
        Err(fault) => refuse_script(alloc, message, file, content, image.names(), &fault),
    }
}

/// The second half of `run`: the script of an image that is valid.
#[tactic(auto, using(command_answers::proofs::Trying::tried_last))]
fn run_on<'a, F: Files>(
    alloc: Global,
    message: &mut Text,
    image: Image,
    script: &'a str,
    files: &mut F,
) -> Result<PreparedCall<'a>, PrepareError<'a>>
    ensures due { IfOk result (λ act. OnTrue F.tells
        (IsSomeAnd ((F.state files.old).held script.now)
        (λ text. IsImageRunDue image text (outcome_of act)))) }
    ensures done { IfOk result (CanBeDone None) }
    ensures failed { IfErr result
        (IsReadError script.now (F.state files.old) (F.state files.new)) }
    ensures only_reads { OnlyReads (F.state files.old) (F.state files.new) }
    ensures reads { HasTried (script.now ∷ []) (F.state files.old).reads
        (F.state files.new).reads (status_of result) }
    ensures told { IfOk result (λ act. OnTrue F.tells
        (IsSomeAnd ((F.state files.old).held script.now) (λ text. Explains
        (IsScriptTold image.names script.now text (outcome_of act) message.new) act))) }
{
    let content = read(files, script, LONGEST_SCRIPT)?;
    match run_act(alloc, message, script, image, &content) {
        Ok(act) => Ok(act),
        Err(error) => Err(PrepareError::Memory(error)),
    }
}

/// `run`: the image is read and judged, and the script only where the image is valid.
#[tactic(auto, using(command_answers::proofs::Held::first_unread, command_answers::proofs::Trying::tried_first, command_answers::proofs::Trying::tried_on, command_answers::proofs::Trying::tried_alone, command_answers::proofs::OnlyReads::reads_on))]
pub fn prepare_run<'a, F: Files>(
    alloc: Global,
    message: &mut Text,
    image: &'a str,
    script: &'a str,
    files: &mut F,
) -> Result<PreparedCall<'a>, PrepareError<'a>>
    ensures prepared { Prepares F.tells (call.run image.now script.now) (F.state files.old)
        (F.state files.new) result }
    ensures only_reads { OnlyReads (F.state files.old) (F.state files.new) }
    ensures reads { HasTried (image.now ∷ script.now ∷ []) (F.state files.old).reads
        (F.state files.new).reads (status_of result) }
    ensures told { IfOk result (IsExplained F.tells (call.run image.now script.now)
        (F.state files.old).held message.new) }
{
    let content = read(files, image, LONGEST_IMAGE)?;
    match load_content(alloc, content) {
        Ok(loaded) => run_on(alloc, message, loaded, script, files),
        Err(fault) => match refuse_image(alloc, message, image, fault) {
            Ok(act) => Ok(act),
            Err(error) => Err(PrepareError::Memory(error)),
        },
    }
}
