//! Script texts judged.

ghost use Rattle.std.specs.Prelude.{◌≡◌, ◌≢◌, ◌≤◌, ◌^◌, ◌⊎◌, ℕ, List, length, IfOk, IfErr};
ghost use Rattle.out_of_memory.specs.Refused.{refused};
ghost use Rattle.script.specs.declared.fault.ScriptFault.TheVariants as fault;
ghost use Rattle.script.specs.Faults.{IsFault};
ghost use Rattle.script.specs.Scripts.{IsScript, longest_text};
ghost use Rattle.command_due.specs.Script.{script_fault_line};
ghost use Rattle.command_answers.specs.Acting.{puts};
ghost use Rattle.command_answers.specs.Acts.{number_of};
ghost use Rattle.command_answers.specs.Contents.{IsContent};

use crate::acts::put;
use crate::reading::Content;
use crate::{PreparedCall, Status, script_fault_line};
use image::ImageNames;
use out_of_memory::OutOfMemory;
use script::{Script, ScriptFault, read_script, refusal};
use std::alloc::Global;

/// The script that the text of a file is, for these names.
///
/// # Errors
///
/// As those of `read_script`; the fault of a text that is too long is 6, on line 0.
pub fn judge_script(
    alloc: Global,
    content: &Content,
    names: &ImageNames,
) -> Result<Script, ScriptFault>
    requires devices { length names.now.devices ≤ 2 ^ 16 }
    requires events { length names.now.events ≤ 2 ^ 16 }
    ensures script { IfOk result (λ script. (text : List ℕ) →
        IsContent longest_text content.now text → IsScript names.now text script.lines script.end) }
    ensures some { IfOk result (λ script. (text : List ℕ) ×
        IsScript names.now text script.lines script.end) }
    ensures fault { IfErr result (λ why. (text : List ℕ) → IsContent longest_text content.now text →
        (why ≡ fault.Memory refused) ⊎ IsFault names.now text why) }
{
    match content {
        Content::Bytes(text) => read_script(alloc, text.as_slice(), names),
        Content::TooLong => Err(ScriptFault::Bad {
            number: refusal::LONG,
            line: 0,
            a: 0,
            b: 0,
        }),
    }
}

/// The act for a text that is no script: it puts the line of its fault.
pub fn refuse_script<'a>(
    alloc: Global,
    fault: &ScriptFault,
) -> Result<PreparedCall<'a>, OutOfMemory>
    ensures act { IfOk result (λ act. act ≡ puts Status.Script (script_fault_line fault.now)) }
    ensures is_fault { IfOk result (λ act. fault.now ≢ ScriptFault.Memory refused) }
    ensures refused { IfOk result (λ act. number_of act.status ≢ 0) }
{
    match fault {
        ScriptFault::Bad { .. } => Ok(put(Status::Script, script_fault_line(alloc, fault)?)),
        ScriptFault::Memory(error) => Err(*error),
    }
}
