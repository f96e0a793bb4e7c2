//! The lines.

ghost use Rattle.std.specs.Prelude.{◌≡◌, ◌++◌, IfOk, OnOk};
ghost use Rattle.sched_table.specs.Report.{with_optional};
ghost use Rattle.sched_sensitivity.specs.Lines.{fits_text as defined_text, process_line, process_lines, suspension_text};

use crate::rows::{ProcessFit, SuspensionFit};
use out_of_memory::OutOfMemory;
use sched_table::{add_name, add_number};
use std::alloc::Global;
use syntax_tree::Text;

/// Puts some words, and a number or `none`, at the end of a text.
fn add_optional(text: &mut Text, words: &str, number: Option<u64>) -> Result<(), OutOfMemory>
    ensures { OnOk result (text.new ≡ text.old ++ with_optional words.now number) }
{
    match number {
        Some(number) => add_number(text, words, number),
        None => {
            text.extend(words.as_bytes())?;
            text.extend(b"none")
        }
    }
}

/// Puts a suspension, and what fits in its place, at the end of a text.
#[tactic(auto, unfolding(crate::specs::Lines::suspension_text))]
fn add_suspension(text: &mut Text, suspension: Option<SuspensionFit>) -> Result<(), OutOfMemory>
    ensures { OnOk result (text.new ≡ text.old ++ suspension_text suspension) }
{
    match suspension {
        None => Ok(()),
        Some(suspension) => {
            add_number(text, " suspend ", suspension.ticks)?;
            add_optional(text, " fits ", suspension.fits)
        }
    }
}

/// Puts the line of a process at the end of a text.
#[tactic(auto, unfolding(crate::specs::Lines::process_line))]
fn add_process(text: &mut Text, process: &ProcessFit) -> Result<(), OutOfMemory>
    ensures { OnOk result (text.new ≡ text.old ++ process_line process.now) }
{
    add_name(text, "process ", &process.name)?;
    add_number(text, " cost ", process.cost)?;
    add_optional(text, " fits ", process.cost_fits)?;
    add_suspension(text, process.suspension)?;
    text.extend(b"\n")
}

/// Puts the lines of processes at the end of a text.
fn add_processes(text: &mut Text, processes: &[ProcessFit]) -> Result<(), OutOfMemory>
    ensures { OnOk result (text.new ≡ text.old ++ process_lines processes.now) }
{
    for process in processes {
        add_process(text, process)?;
    }
    Ok(())
}

/// The text that tells what fits: the overhead, and for each process its cost and what fits in its
/// place, and where it waits its suspension and what fits there. What does not fit at all is
/// `none`, a number above 1,000,000,000 `over`. Only want of memory is an error.
#[tactic(auto, unfolding(crate::specs::Lines::fits_text))]
pub fn fits_text(
    alloc: Global,
    overhead: Option<u64>,
    processes: &[ProcessFit],
) -> Result<Text, OutOfMemory>
    ensures { IfOk result (λ text. text ≡ defined_text overhead processes.now) }
{
    let mut text = Text::new(alloc);
    add_optional(&mut text, "overhead ", overhead)?;
    text.extend(b"\n")?;
    add_processes(&mut text, processes)?;
    Ok(text)
}
