//! The report.

ghost use Rattle.std.specs.Prelude.{◌≡◌, ◌++◌, length, IfOk, OnOk};
ghost use Rattle.image_bytes.specs.Standing.{process_in};
ghost use Rattle.command_due.specs.Report.{edf_report, judgement_lines, points_text, process_line, processes_lines, times_text, verdict_text};

use image_bytes::{ImageBytes, ProcessRef};
use out_of_memory::OutOfMemory;
use sched_demand::Judgement;
use sched_table::{add_name, add_number};
use std::alloc::Global;
use syntax_tree::{Name, Text};

/// Puts the times of a process at the end of a text.
#[tactic(auto, unfolding(command_due::specs::Report::times_text))]
fn add_times(text: &mut Text, process: &ProcessRef<'_>) -> Result<(), OutOfMemory>
    ensures { OnOk result (text.new ≡ text.old ++ times_text (process_in process.now)) }
{
    add_number(text, " frame ", u64::from(process.frame))?;
    add_number(text, " deadline ", u64::from(process.deadline))?;
    add_number(text, " cost ", u64::from(process.run))
}

/// Puts the line of a process at the end of a text.
#[tactic(auto, unfolding(command_due::specs::Report::process_line))]
fn add_process(text: &mut Text, name: &Name, process: &ProcessRef<'_>) -> Result<(), OutOfMemory>
    ensures { OnOk result (text.new ≡ text.old ++ process_line name.now
        (process_in process.now)) }
{
    add_name(text, "process ", name)?;
    add_times(text, process)?;
    add_number(text, " data ", u64::from(process.words))?;
    add_number(text, " stack ", u64::from(process.stack))?;
    text.extend(b"\n")
}

/// Puts the lines of the processes at the end of a text.
fn add_processes(text: &mut Text, image: &ImageBytes) -> Result<(), OutOfMemory>
    requires { length image.now.names.processes ≡ length image.now.image.processes }
    ensures { OnOk result (text.new ≡ text.old ++ processes_lines image.now.names.processes
        image.now.image.processes) }
{
    let names = image.names().processes.as_slice();
    for number in 0..image.processes() {
        add_process(text, &names[number as usize], &image.process(number))?;
    }
    Ok(())
}

/// Puts how many points there are at the end of a text.
fn add_points(text: &mut Text, answer: Judgement) -> Result<(), OutOfMemory>
    ensures { OnOk result (text.new ≡ text.old ++ points_text answer) }
{
    match answer {
        Judgement::Feasible { points } => add_number(text, "points ", points),
        Judgement::Late { points, .. } => add_number(text, "points ", points),
        Judgement::Many => text.extend(b"points over"),
    }
}

/// Puts what the test of the demand says at the end of a text.
fn add_verdict(text: &mut Text, answer: Judgement) -> Result<(), OutOfMemory>
    ensures { OnOk result (text.new ≡ text.old ++ verdict_text answer) }
{
    match answer {
        Judgement::Feasible { .. } => text.extend(b"feasible"),
        Judgement::Late { at, demand, .. } => {
            add_number(text, "late ", at)?;
            add_number(text, " demand ", demand)
        }
        Judgement::Many => text.extend(b"too many"),
    }
}

/// Puts the lines of what the test says at the end of a text.
#[tactic(auto, unfolding(command_due::specs::Report::judgement_lines))]
fn add_judgement(text: &mut Text, answer: Judgement) -> Result<(), OutOfMemory>
    ensures { OnOk result (text.new ≡ text.old ++ judgement_lines answer) }
{
    add_points(text, answer)?;
    text.extend(b"\n")?;
    add_verdict(text, answer)?;
    text.extend(b"\n")
}

/// The report on an image with one name for each process, of which the test of the demand says
/// this.
///
/// Its lines are the program's name, each process with its times in ticks and its words of data and
/// of stack, the number of instructions, the number of points, and `feasible`, `late` with the
/// first point at which the demand is not met and the demand there, or `too many`. A number above
/// 1,000,000,000 is `over`. Only want of memory is an error.
#[tactic(auto, unfolding(command_due::specs::Report::edf_report))]
pub fn report(alloc: Global, image: &ImageBytes, answer: Judgement) -> Result<Text, OutOfMemory>
    requires { length image.now.names.processes ≡ length image.now.image.processes }
    ensures { IfOk result (λ text. text ≡ edf_report image.now answer) }
{
    let mut text = Text::new(alloc);
    add_name(&mut text, "program ", image.program())?;
    text.extend(b"\n")?;
    add_processes(&mut text, image)?;
    add_number(&mut text, "code ", u64::from(image.code_len()))?;
    text.extend(b"\n")?;
    add_judgement(&mut text, answer)?;
    Ok(text)
}
