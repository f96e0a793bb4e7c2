//! `watch`.

ghost use Rattle.std.specs.Prelude.{◌∷◌, [], ℕ, List, None, IfErr, IfOk, IsSomeAnd};
ghost use Rattle.std.specs.Bool.{OnTrue};
ghost use Rattle.command_answers.specs.Acts.{outcome_of};
ghost use Rattle.script.specs.Scripts.{longest_text};
ghost use Rattle.command_words.specs.Calls as call;
ghost use Rattle.command_answers.specs.Acting.{IsQuiet};
ghost use Rattle.command_answers.specs.Contents.{IsContent};
ghost use Rattle.command_answers.specs.Prepared.{IsReadError, Prepares};
ghost use Rattle.command_answers.specs.OnlyReads.{OnlyReads};
ghost use Rattle.command_answers.specs.Tried.{HasTried, status_of};
ghost use Rattle.command_answers.specs.Acts.{CanRunByRanks};
ghost use Rattle.command_images.specs.Watched.{IsSeenDue, IsTold};
ghost use Rattle.command_refusals.specs.Refusals.{Explains, IsExplained};
ghost use Rattle.command_refusals.specs.Told.{IsScriptTold};

use crate::images::{load_content, refuse_image};
use crate::scripts::script_for;
use command_answers::{
    Content, LONGEST_IMAGE, LONGEST_SCRIPT, PrepareError, PreparedCall, Status, put, read,
};
use command_refusals::refuse_script;
use command_words::Breakpoint;
use image_loaded::Image;
use out_of_memory::OutOfMemory;
use outside::Files;
use script::Script;
use std::alloc::Global;
use syntax_tree::Text;
use vm_watch::watch;

/// The act that puts the state of the run of an image over a script where it stops.
fn put_seen<'a>(
    alloc: Global,
    image: &Image,
    script: &Script,
    stop: Breakpoint,
) -> Result<PreparedCall<'a>, OutOfMemory>
    requires { CanRunByRanks image.now script.now }
    ensures told { IfOk result (λ act. IsTold stop image.now script.now (outcome_of act)) }
    ensures quiet { IfOk result IsQuiet }
{
    let text = watch(alloc, image.image(), script, stop)?;
    Ok(put(Status::Done, text))
}

/// The act of `watch` for what the script's file holds, where the image is a valid one.
fn watch_act<'a>(
    alloc: Global,
    message: &mut Text,
    file: &str,
    image: &Image,
    content: &Content,
    stop: Breakpoint,
) -> Result<PreparedCall<'a>, OutOfMemory>
    ensures due { IfOk result (λ act. (text : List ℕ) → IsContent longest_text content.now text →
        IsSeenDue stop image.now text (outcome_of act)) }
    ensures quiet { IfOk result IsQuiet }
    ensures told { IfOk result (λ act. (text : List ℕ) → IsContent longest_text content.now text →
        Explains (IsScriptTold image.now.names file.now text (outcome_of act) message.new) act) }
{
    match script_for(alloc, content, image) {
        Ok(script) => put_seen(alloc, image, &script, stop),
        Err(fault) => refuse_script(alloc, message, file, content, image.names(), &fault),
    }
}

/// The second half of `watch`: the script of an image that is valid.
#[tactic(auto, using(command_answers::proofs::Trying::tried_last))]
fn watch_on<'a, F: Files>(
    alloc: Global,
    message: &mut Text,
    image: &Image,
    script: &'a str,
    stop: Breakpoint,
    files: &mut F,
) -> Result<PreparedCall<'a>, PrepareError<'a>>
    ensures due { IfOk result (λ act. OnTrue F.tells
        (IsSomeAnd ((F.state files.old).held script.now)
        (λ text. IsSeenDue stop image.now text (outcome_of act)))) }
    ensures quiet { IfOk result IsQuiet }
    ensures failed { IfErr result
        (IsReadError script.now (F.state files.old) (F.state files.new)) }
    ensures only_reads { OnlyReads (F.state files.old) (F.state files.new) }
    ensures reads { HasTried (script.now ∷ []) (F.state files.old).reads
        (F.state files.new).reads (status_of result) }
    ensures told { IfOk result (λ act. OnTrue F.tells
        (IsSomeAnd ((F.state files.old).held script.now) (λ text. Explains
        (IsScriptTold image.now.names script.now text (outcome_of act) message.new) act))) }
{
    let content = read(files, script, LONGEST_SCRIPT)?;
    match watch_act(alloc, message, script, image, &content, stop) {
        Ok(act) => Ok(act),
        Err(error) => Err(PrepareError::Memory(error)),
    }
}

/// `watch`: the image is read and judged, and the script only where the image is valid.
#[tactic(auto, using(command_answers::proofs::Held::first_unread, command_answers::proofs::Trying::tried_first, command_answers::proofs::Trying::tried_on, command_answers::proofs::Trying::tried_alone, command_answers::proofs::OnlyReads::reads_on))]
pub fn prepare_watch<'a, F: Files>(
    alloc: Global,
    message: &mut Text,
    image: &'a str,
    script: &'a str,
    stop: Breakpoint,
    files: &mut F,
) -> Result<PreparedCall<'a>, PrepareError<'a>>
    ensures prepared { Prepares F.tells (call.watch image.now script.now stop)
        (F.state files.old) (F.state files.new) result }
    ensures only_reads { OnlyReads (F.state files.old) (F.state files.new) }
    ensures reads { HasTried (image.now ∷ script.now ∷ []) (F.state files.old).reads
        (F.state files.new).reads (status_of result) }
    ensures told { IfOk result (IsExplained F.tells (call.watch image.now script.now stop)
        (F.state files.old).held message.new) }
{
    let content = read(files, image, LONGEST_IMAGE)?;
    match load_content(alloc, content) {
        Ok(loaded) => watch_on(alloc, message, &loaded, script, stop, files),
        Err(fault) => match refuse_image(alloc, message, image, fault) {
            Ok(act) => Ok(act),
            Err(error) => Err(PrepareError::Memory(error)),
        },
    }
}
