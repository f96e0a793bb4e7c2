//! The report as text.

ghost use Rattle.std.specs.Prelude.{◌≡◌, ◌++◌, length, IfOk, OnOk};
ghost use Rattle.std.specs.Option.{option_copied};
ghost use Rattle.sched_table.specs.Late.{IsNamed};
ghost use Rattle.sched_table.specs.Report.{with_number, with_optional, deadline_text, costs_text, sizes_text, times_text, process_text, processes_text, monitor_text, monitors_text, verdict_text, report_text};

use crate::late::late;
use crate::{Row, Size, Table};
use base::Cost;
use image::ImageNames;
use itoa::Buffer;
use out_of_memory::OutOfMemory;
use std::alloc::Global;
use syntax_tree::{Name, Text};

/// The greatest number that is shown.
pub(crate) const GREATEST: u64 = 1_000_000_000;

/// Puts some words and a number at the end of a text; `over` in place of a number above
/// 1,000,000,000. After an error, which is that memory is short, the text may hold a part of it.
pub fn add_number(text: &mut Text, words: &str, number: u64) -> Result<(), OutOfMemory>
    ensures { OnOk result (text.new ≡ text.old ++ with_number words.now number) }
{
    text.extend(words.as_bytes())?;
    if number > GREATEST {
        return text.extend(b"over");
    }
    let mut buffer = Buffer::new();
    text.extend(buffer.format(number).as_bytes())
}

/// Puts some words, and a number or `none`, at the end of a text.
fn add_optional(text: &mut Text, words: &str, number: Option<u64>) -> Result<(), OutOfMemory>
    ensures { OnOk result (text.new ≡ text.old ++ with_optional words.now number) }
{
    match number {
        Some(number) => add_number(text, words, number),
        None => {
            text.extend(words.as_bytes())?;
            text.extend(b"none")
        }
    }
}

/// Puts some words and a name at the end of a text. After an error, which is that memory is short,
/// the text may hold a part of it.
pub fn add_name(text: &mut Text, words: &str, name: &Name) -> Result<(), OutOfMemory>
    ensures { OnOk result (text.new ≡ text.old ++ (words.now ++ name.now)) }
{
    text.extend(words.as_bytes())?;
    text.extend(name.as_bytes())
}

/// Puts the deadline at the end of a text, where it is not the frame.
#[tactic(auto, unfolding(crate::specs::Report::deadline_text))]
fn add_deadline(text: &mut Text, frame: u64, deadline: u64) -> Result<(), OutOfMemory>
    ensures { OnOk result (text.new ≡ text.old ++ deadline_text frame deadline) }
{
    if deadline == frame {
        return Ok(());
    }
    add_number(text, " deadline ", deadline)
}

/// Puts a cost at the end of a text.
#[tactic(auto, unfolding(crate::specs::Report::costs_text))]
fn add_costs(text: &mut Text, cost: Cost) -> Result<(), OutOfMemory>
    ensures { OnOk result (text.new ≡ text.old ++ costs_text cost) }
{
    add_number(text, " cost ", cost.run)?;
    add_number(text, " suspend ", cost.susp)?;
    add_number(text, " waits ", cost.waits)
}

/// Puts the words of memory at the end of a line.
#[tactic(auto, unfolding(crate::specs::Report::sizes_text))]
fn add_sizes(text: &mut Text, size: Size) -> Result<(), OutOfMemory>
    ensures { OnOk result (text.new ≡ text.old ++ sizes_text size) }
{
    add_number(text, " data ", u64::from(size.words))?;
    add_number(text, " stack ", u64::from(size.stack))?;
    text.extend(b"\n")
}

/// Puts the rank, the cost, the block and the bound at the end of a text.
#[tactic(auto, unfolding(crate::specs::Report::times_text))]
fn add_times(text: &mut Text, row: &Row) -> Result<(), OutOfMemory>
    ensures { OnOk result (text.new ≡ text.old ++ times_text row.now) }
{
    add_number(text, " rank ", u64::from(row.rank))?;
    add_costs(text, row.cost)?;
    add_number(text, " block ", row.block)?;
    add_optional(text, " bound ", row.bound)
}

/// Puts the line of a process at the end of a text.
#[tactic(auto, unfolding(crate::specs::Report::process_text))]
fn add_process(text: &mut Text, name: &Name, row: &Row) -> Result<(), OutOfMemory>
    ensures { OnOk result (text.new ≡ text.old ++ process_text name.now row.now) }
{
    add_name(text, "process ", name)?;
    add_number(text, " frame ", row.frame)?;
    add_deadline(text, row.frame, row.deadline)?;
    add_times(text, row)?;
    add_sizes(text, row.size)
}

/// Puts the lines of the processes at the end of a text.
fn add_processes(text: &mut Text, names: &[Name], rows: &[Row]) -> Result<(), OutOfMemory>
    requires { length names.now ≡ length rows.now }
    ensures { OnOk result (text.new ≡ text.old ++ processes_text names.now rows.now) }
{
    for (at, row) in rows.iter().enumerate() {
        add_process(text, &names[at], row)?;
    }
    Ok(())
}

/// A rank as a number of 64 bits.
pub(crate) fn widened(rank: Option<u16>) -> Option<u64>
    ensures { result ≡ rank }
{
    rank.map(u64::from)
}

/// Puts the line of a monitor at the end of a text.
#[tactic(auto, unfolding(crate::specs::Report::monitor_text))]
fn add_monitor(
    text: &mut Text,
    name: &Name,
    ceiling: Option<u16>,
    words: u32,
) -> Result<(), OutOfMemory>
    ensures { OnOk result (text.new ≡ text.old ++ monitor_text name.now ceiling words) }
{
    add_name(text, "monitor ", name)?;
    add_optional(text, " ceiling ", widened(ceiling))?;
    add_number(text, " words ", u64::from(words))?;
    text.extend(b"\n")
}

/// Puts the lines of the monitors at the end of a text.
fn add_monitors(
    text: &mut Text,
    names: &[Name],
    ceilings: &[Option<u16>],
    words: &[u32],
) -> Result<(), OutOfMemory>
    requires ceilings { length names.now ≡ length ceilings.now }
    requires words { length names.now ≡ length words.now }
    ensures { OnOk result (text.new ≡ text.old ++ monitors_text names.now ceilings.now words.now) }
{
    for (at, name) in names.iter().enumerate() {
        add_monitor(text, name, ceilings[at], words[at])?;
    }
    Ok(())
}

/// Puts whether the program is timely at the end of a text.
fn add_verdict(text: &mut Text, late: Option<&Name>) -> Result<(), OutOfMemory>
    ensures { OnOk result (text.new ≡ text.old ++ verdict_text (option_copied late.entry)) }
{
    match late {
        None => text.extend(b"timely\n"),
        Some(name) => {
            add_name(text, "untimely ", name)?;
            text.extend(b"\n")
        }
    }
}

/// The report on a program, for a table with one row per process and one ceiling and one number of
/// words per monitor of the names.
///
/// Its lines are the program's name, each process with its times in ticks, each monitor with its
/// ceiling and its words, the number of instructions, and `timely`, or `untimely` with the first
/// process without a bound. The deadline stands where it is not the frame, a number above
/// 1,000,000,000 is `over`, and a bound or a ceiling that is not there `none`. Only want of memory
/// is an error.
#[tactic(auto, unfolding(crate::specs::Report::report_text))]
pub fn report(
    alloc: Global,
    names: &ImageNames,
    program: &Name,
    table: &Table,
) -> Result<Text, OutOfMemory>
    requires { IsNamed names.now table.now }
    ensures { IfOk result (λ text. text ≡ report_text names.now program.now table.now) }
{
    let rows = table.rows.as_slice();
    let processes = names.processes.as_slice();
    let mut text = Text::new(alloc);
    add_name(&mut text, "program ", program)?;
    text.extend(b"\n")?;
    add_processes(&mut text, processes, rows)?;
    add_monitors(
        &mut text,
        names.monitors.as_slice(),
        table.ceilings.as_slice(),
        table.monitor_words.as_slice(),
    )?;
    add_number(&mut text, "code ", u64::from(table.code))?;
    text.extend(b"\n")?;
    add_verdict(&mut text, late(processes, rows))?;
    Ok(text)
}
