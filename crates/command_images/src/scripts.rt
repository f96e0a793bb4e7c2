//! Scripts for images.

ghost use Rattle.std.specs.Prelude.{◌≡◌, ◌⊎◌, ℕ, List, IfErr, IfOk};
ghost use Rattle.out_of_memory.specs.Refused.{refused};
ghost use Rattle.command_answers.specs.Acts.{CanRunByRanks};
ghost use Rattle.command_answers.specs.Contents.{IsContent};
ghost use Rattle.script.specs.Faults.{IsFault};
ghost use Rattle.script.specs.Scripts.{IsScript, longest_text};
ghost use Rattle.script.specs.declared.fault.ScriptFault.TheVariants as fault;

use command_answers::{Content, judge_script, valid_images_can_be_run};
use image_loaded::Image;
use script::{Script, ScriptFault};
use std::alloc::Global;

/// The script that the text of a file is for the names of an image, over which the image can be
/// run.
///
/// # Errors
///
/// As those of `judge_script`.
pub(crate) fn script_for(
    alloc: Global,
    content: &Content,
    image: &Image,
) -> Result<Script, ScriptFault>
    ensures can { IfOk result (λ script. CanRunByRanks image.now script) }
    ensures script { IfOk result (λ script. (text : List ℕ) →
        IsContent longest_text content.now text →
        IsScript image.now.names text script.lines script.end) }
    ensures fault { IfErr result (λ why. (text : List ℕ) → IsContent longest_text content.now text →
        (why ≡ fault.Memory refused) ⊎ IsFault image.now.names text why) }
{
    valid_images_can_be_run(image);
    judge_script(alloc, content, image.names())
}
