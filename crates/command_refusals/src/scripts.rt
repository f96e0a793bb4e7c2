//! Scripts that are refused.

ghost use Rattle.std.specs.Prelude.{◌≡◌, ◌≢◌, ℕ, List, IfOk};
ghost use Rattle.out_of_memory.specs.Refused.{refused};
ghost use Rattle.script.specs.Scripts.{longest_text};
ghost use Rattle.command_due.specs.Script.{script_fault_line};
ghost use Rattle.command_answers.specs.Acting.{puts};
ghost use Rattle.command_answers.specs.Acts.{number_of, outcome_of};
ghost use Rattle.command_answers.specs.Contents.{IsContent};
ghost use Rattle.command_refusals.specs.Told.{IsScriptTold};
ghost use Rattle.message_script.specs.Message.{script_message};

use command_answers::{Content, PreparedCall, Status};
use image::ImageNames;
use message_script::{long_message, script_message};
use out_of_memory::OutOfMemory;
use script::ScriptFault;
use std::alloc::Global;
use syntax_tree::Text;

/// The message for a fault of what a script's file holds, for these names.
fn message_of(
    alloc: Global,
    file: &str,
    content: &Content,
    names: &ImageNames,
    fault: &ScriptFault,
) -> Result<Text, OutOfMemory>
    ensures { IfOk result (λ message. (bytes : List ℕ) → IsContent longest_text content.now bytes →
        message ≡ script_message file.now bytes names.now fault.now) }
{
    match content {
        Content::Bytes(text) => script_message(alloc, file, text.as_slice(), names, fault),
        Content::TooLong => long_message(alloc, file),
    }
}

/// The act for a file that holds no script for these names: it puts the line of the fault, and the
/// message takes the place of the given one.
pub fn refuse_script<'a>(
    alloc: Global,
    message: &mut Text,
    file: &str,
    content: &Content,
    names: &ImageNames,
    fault: &ScriptFault,
) -> Result<PreparedCall<'a>, OutOfMemory>
    ensures act { IfOk result (λ act. act ≡ puts Status.Script (script_fault_line fault.now)) }
    ensures is_fault { IfOk result (λ act. fault.now ≢ ScriptFault.Memory refused) }
    ensures refused { IfOk result (λ act. number_of act.status ≢ 0) }
    ensures told { IfOk result (λ act. (bytes : List ℕ) → IsContent longest_text content.now bytes →
        IsScriptTold names.now file.now bytes (outcome_of act) message.new) }
{
    *message = message_of(alloc, file, content, names, fault)?;
    command_answers::refuse_script(alloc, fault)
}
