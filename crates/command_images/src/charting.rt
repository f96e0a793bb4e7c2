//! `chart`.

ghost use Rattle.std.specs.Prelude.{◌∷◌, [], ℕ, List, None, IfErr, IfOk, IsSomeAnd};
ghost use Rattle.std.specs.Bool.{OnTrue};
ghost use Rattle.command_answers.specs.Acts.{outcome_of};
ghost use Rattle.script.specs.Scripts.{longest_text};
ghost use Rattle.command_words.specs.Calls as call;
ghost use Rattle.command_answers.specs.Acting.{IsQuiet};
ghost use Rattle.command_answers.specs.Contents.{IsContent};
ghost use Rattle.command_answers.specs.Prepared.{IsReadError, Prepares};
ghost use Rattle.command_answers.specs.OnlyReads.{OnlyReads};
ghost use Rattle.command_answers.specs.Tried.{HasTried, status_of};
ghost use Rattle.command_answers.specs.Acts.{CanRunByRanks};
ghost use Rattle.command_images.specs.Charted.{IsDrawnDue, IsDrawnOver};
ghost use Rattle.command_refusals.specs.Refusals.{Explains, IsExplained};
ghost use Rattle.command_refusals.specs.Told.{IsScriptTold};

use crate::images::{load_content, refuse_image};
use crate::scripts::script_for;
use command_answers::{
    Content, LONGEST_IMAGE, LONGEST_SCRIPT, PrepareError, PreparedCall, Status, put, read,
};
use command_refusals::refuse_script;
use image_loaded::Image;
use out_of_memory::OutOfMemory;
use outside::Files;
use script::Script;
use std::alloc::Global;
use syntax_tree::Text;
use vm_chart::chart;
use vm_plan::plan_of;

/// The act that puts the chart of the run of an image over a script.
fn put_drawn<'a>(
    alloc: Global,
    image: &Image,
    script: &Script,
    first: u64,
    end: u64,
) -> Result<PreparedCall<'a>, OutOfMemory>
    requires { CanRunByRanks image.now script.now }
    ensures told { IfOk result (λ act. IsDrawnOver first end image.now script.now (outcome_of act)) }
    ensures quiet { IfOk result IsQuiet }
{
    let image = image.image();
    let plan = plan_of(alloc, image)?;
    let text = chart(alloc, image, &plan, script, first, end)?;
    Ok(put(Status::Done, text))
}

/// The act of `chart` for what the script's file holds, where the image is a valid one.
fn chart_act<'a>(
    alloc: Global,
    message: &mut Text,
    file: &str,
    image: &Image,
    content: &Content,
    first: u64,
    end: u64,
) -> Result<PreparedCall<'a>, OutOfMemory>
    ensures due { IfOk result (λ act. (text : List ℕ) → IsContent longest_text content.now text →
        IsDrawnDue first end image.now text (outcome_of act)) }
    ensures quiet { IfOk result IsQuiet }
    ensures told { IfOk result (λ act. (text : List ℕ) → IsContent longest_text content.now text →
        Explains (IsScriptTold image.now.names file.now text (outcome_of act) message.new) act) }
{
    match script_for(alloc, content, image) {
        Ok(script) => put_drawn(alloc, image, &script, first, end),
        Err(fault) => refuse_script(alloc, message, file, content, image.names(), &fault),
    }
}

/// The second half of `chart`: the script of an image that is valid.
#[tactic(auto, using(command_answers::proofs::Trying::tried_last))]
fn chart_on<'a, F: Files>(
    alloc: Global,
    message: &mut Text,
    image: &Image,
    script: &'a str,
    first: u64,
    end: u64,
    files: &mut F,
) -> Result<PreparedCall<'a>, PrepareError<'a>>
    ensures due { IfOk result (λ act. OnTrue F.tells
        (IsSomeAnd ((F.state files.old).held script.now)
        (λ text. IsDrawnDue first end image.now text (outcome_of act)))) }
    ensures quiet { IfOk result IsQuiet }
    ensures failed { IfErr result
        (IsReadError script.now (F.state files.old) (F.state files.new)) }
    ensures only_reads { OnlyReads (F.state files.old) (F.state files.new) }
    ensures reads { HasTried (script.now ∷ []) (F.state files.old).reads
        (F.state files.new).reads (status_of result) }
    ensures told { IfOk result (λ act. OnTrue F.tells
        (IsSomeAnd ((F.state files.old).held script.now) (λ text. Explains
        (IsScriptTold image.now.names script.now text (outcome_of act) message.new) act))) }
{
    let content = read(files, script, LONGEST_SCRIPT)?;
    match chart_act(alloc, message, script, image, &content, first, end) {
        Ok(act) => Ok(act),
        Err(error) => Err(PrepareError::Memory(error)),
    }
}

/// `chart`: the image is read and judged, and the script only where the image is valid.
#[tactic(auto, using(command_answers::proofs::Held::first_unread, command_answers::proofs::Trying::tried_first, command_answers::proofs::Trying::tried_on, command_answers::proofs::Trying::tried_alone, command_answers::proofs::OnlyReads::reads_on))]
pub fn prepare_chart<'a, F: Files>(
    alloc: Global,
    message: &mut Text,
    image: &'a str,
    script: &'a str,
    first: u64,
    end: u64,
    files: &mut F,
) -> Result<PreparedCall<'a>, PrepareError<'a>>
    ensures prepared { Prepares F.tells (call.chart image.now script.now first end)
        (F.state files.old) (F.state files.new) result }
    ensures only_reads { OnlyReads (F.state files.old) (F.state files.new) }
    ensures reads { HasTried (image.now ∷ script.now ∷ []) (F.state files.old).reads
        (F.state files.new).reads (status_of result) }
    ensures told { IfOk result (IsExplained F.tells (call.chart image.now script.now first end)
        (F.state files.old).held message.new) }
{
    let content = read(files, image, LONGEST_IMAGE)?;
    match load_content(alloc, content) {
        Ok(loaded) => chart_on(alloc, message, &loaded, script, first, end, files),
        Err(fault) => match refuse_image(alloc, message, image, fault) {
            Ok(act) => Ok(act),
            Err(error) => Err(PrepareError::Memory(error)),
        },
    }
}
