//! Programs run, where their demand is met.

ghost use Rattle.std.specs.Prelude.{◌≡◌, ◌≢◌, ◌++◌, ℕ, List, None, IfOk};
ghost use Rattle.command_answers.specs.Acts.{CanRun, by_deadlines, number_of, outcome_of};
ghost use Rattle.command_due.specs.CommandsDue.{told};
ghost use Rattle.command_answers.specs.Acting.{CanBeDone, IsQuiet, puts};
ghost use Rattle.command_answers.specs.Contents.{IsContent};
ghost use Rattle.command_due.specs.EdfDue.{edf_log};
ghost use Rattle.command_due.specs.Report.{edf_report};
ghost use Rattle.edf_command.specs.Judged.{IsMet, IsScriptDue, IsSubject};
ghost use Rattle.script.specs.Scripts.{IsScript, longest_text};
ghost use Rattle.command_refusals.specs.Refusals.{Explains};
ghost use Rattle.command_refusals.specs.Told.{IsScriptTold};
ghost use Rattle.message_program.specs.Late as message_of;

use crate::{Judged, report};
use command_answers::{Content, PreparedCall, PreparedRun, Status, judge_script, put};
use command_refusals::refuse_script;
use edf_admission::EdfImage;
use edf_correct::edf_admitted::{edf_images_are_admitted, edf_images_can_be_run, edf_scripts_suit};
use edf_correct::edf_waits::waitless_trees_have_no_wait;
use message_program::demand_message;
use out_of_memory::OutOfMemory;
use script::Script;
use std::alloc::Global;
use syntax_tree::Text;

/// The act for a program whose demand is not met: it puts the report, and the message takes the
/// place of the given one.
pub fn refuse_unfit<'a>(
    alloc: Global,
    message: &mut Text,
    file: &str,
    subject: &Judged,
) -> Result<PreparedCall<'a>, OutOfMemory>
    requires { IsSubject subject.now }
    ensures act { IfOk result (λ act. act ≡
        puts Status.Late (edf_report subject.now.image subject.now.answer)) }
    ensures quiet { IfOk result IsQuiet }
    ensures refused { IfOk result (λ act. number_of act.status ≢ 0) }
    ensures told { IfOk result (λ act.
        message.new ≡ message_of.demand_message file.now subject.now.answer) }
{
    *message = demand_message(alloc, file, &subject.answer)?;
    let text = report(alloc, &subject.image, subject.answer)?;
    Ok(put(Status::Late, text))
}

/// The run over a script of a program whose demand is met.
fn run_over(subject: Judged, script: Script) -> PreparedRun
    requires subject { IsSubject subject }
    requires met { IsMet subject.answer }
    requires script { (text : List ℕ) ×
        IsScript subject.image.names text script.lines script.end }
    ensures run { result ≡ by_deadlines subject.image script }
    ensures can { CanRun result }
{
    waitless_trees_have_no_wait();
    edf_images_are_admitted();
    edf_images_can_be_run();
    edf_scripts_suit();
    EdfImage::of_admitted(subject.image).over(script)
}

/// The act that puts the report and runs the image over a script.
fn run_image<'a>(
    alloc: Global,
    subject: Judged,
    script: Script,
) -> Result<PreparedCall<'a>, OutOfMemory>
    requires subject { IsSubject subject }
    requires met { IsMet subject.answer }
    requires script { (text : List ℕ) ×
        IsScript subject.image.names text script.lines script.end }
    ensures outcome { IfOk result (λ act. outcome_of act ≡ told 0
        (edf_report subject.image subject.answer ++
        edf_log subject.image script.lines script.end)) }
    ensures done { IfOk result (CanBeDone None) }
{
    let text = report(alloc, &subject.image, subject.answer)?;
    Ok(PreparedCall {
        status: Status::Done,
        text,
        store: None,
        run: Some(run_over(subject, script)),
    })
}

/// The act of `edf` for what the script's file holds, where the demand is met.
pub fn run_act<'a>(
    alloc: Global,
    message: &mut Text,
    file: &str,
    subject: Judged,
    content: &Content,
) -> Result<PreparedCall<'a>, OutOfMemory>
    requires subject { IsSubject subject }
    requires met { IsMet subject.answer }
    ensures due { IfOk result (λ act. (text : List ℕ) → IsContent longest_text content.now text →
        IsScriptDue subject.image subject.answer text (outcome_of act)) }
    ensures done { IfOk result (CanBeDone None) }
    ensures told { IfOk result (λ act. (text : List ℕ) → IsContent longest_text content.now text →
        Explains (IsScriptTold subject.image.names file.now text (outcome_of act) message.new)
        act) }
{
    match judge_script(alloc, content, subject.image.names()) {
        Ok(script) => run_image(alloc, subject, script),
        Err(fault) => {
            refuse_script(alloc, message, file, content, subject.image.names(), &fault)
        }
    }
}
