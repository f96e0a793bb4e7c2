//! Sections, and the whole text.

ghost use Rattle.std.specs.Prelude.{◌≡◌, ◌≤◌, ◌<◌, ◌++◌, length, All, IfOk, OnOk};
ghost use Rattle.std.specs.Option.{option_copied};
ghost use Rattle.sched_response.specs.Demand.{AreTasks, IsTask};
ghost use Rattle.sched_table.specs.Report.{verdict_text};
ghost use Rattle.sched_sections.specs.Levels.{level_at, shown_at, tasks_in};
ghost use Rattle.sched_sections.specs.Sections.{bounds_text as defined_text, first_late as defined_first_late, load_text, rank_line, rank_lines, section_text, sections_text, sum_line, taken_text};

use crate::Level;
use crate::levels::task_of;
use crate::lines::{activation_of, add_block, add_cost, add_process, add_waits, ticks_of};
use crate::sums::{all_taken, load_of, sum_of};
use base::ceil_div;
use out_of_memory::OutOfMemory;
use sched_table::{add_name, add_number};
use std::alloc::Global;
use syntax_tree::{Name, Text};

/// Puts what a higher task takes from one of this block in r ticks at the end of a text.
#[tactic(auto, unfolding(crate::specs::Sections::taken_text))]
fn add_taken(
    text: &mut Text,
    levels: &[Level],
    level: usize,
    r: u64,
    higher: usize,
) -> Result<(), OutOfMemory>
    requires tasks { All IsTask (tasks_in levels.now) }
    requires level { level < length levels.now }
    requires higher { higher < level }
    requires r { r ≤ 1000000000 }
    ensures { OnOk result (text.new ≡ text.old ++ taken_text (tasks_in levels.now) level r higher) }
{
    let task = task_of(levels, higher);
    let block = task_of(levels, level).block;
    add_number(text, " releases ", ceil_div(r, task.frame))?;
    add_number(text, " each ", activation_of(task, block))?;
    add_number(text, " total ", all_taken(task, block, r))?;
    text.extend(b"\n")
}

/// Puts the line of what a higher level takes in r ticks at the end of a text.
#[tactic(auto, unfolding(crate::specs::Sections::rank_line))]
fn add_rank(
    text: &mut Text,
    levels: &[Level],
    level: usize,
    r: u64,
    higher: usize,
) -> Result<(), OutOfMemory>
    requires tasks { All IsTask (tasks_in levels.now) }
    requires level { level < length levels.now }
    requires higher { higher < level }
    requires r { r ≤ 1000000000 }
    ensures { OnOk result (text.new ≡ text.old ++ rank_line levels.now level r higher) }
{
    add_number(text, "rank ", higher as u64 + 1)?;
    add_name(text, " ", &levels[higher].name)?;
    add_number(text, " frame ", task_of(levels, higher).frame)?;
    add_taken(text, levels, level, r, higher)
}

/// Puts the lines of what the higher levels take in r ticks at the end of a text.
fn add_ranks(text: &mut Text, levels: &[Level], level: usize, r: u64) -> Result<(), OutOfMemory>
    requires tasks { All IsTask (tasks_in levels.now) }
    requires level { level < length levels.now }
    requires r { r ≤ 1000000000 }
    ensures { OnOk result (text.new ≡ text.old ++ rank_lines levels.now level r level) }
{
    for higher in 0..level {
        add_rank(text, levels, level, r, higher)?;
    }
    Ok(())
}

/// Puts the line of the sum at the end of a text.
#[tactic(auto, unfolding(crate::specs::Sections::sum_line))]
fn add_sum(text: &mut Text, levels: &[Level], level: usize, r: u64) -> Result<(), OutOfMemory>
    requires tasks { All IsTask (tasks_in levels.now) }
    requires level { level < length levels.now }
    requires r { r ≤ 1000000000 }
    ensures { OnOk result (text.new ≡ text.old ++ sum_line levels.now level r) }
{
    add_number(text, "sum ", sum_of(levels, level, r))?;
    text.extend(b"\n")
}

/// Puts the section of a level at the end of a text.
#[tactic(auto, unfolding(crate::specs::Sections::section_text))]
fn add_section(text: &mut Text, levels: &[Level], level: usize) -> Result<(), OutOfMemory>
    requires tasks { All IsTask (tasks_in levels.now) }
    requires level { level < length levels.now }
    requires ticks { shown_at (level_at levels.now level) ≤ 1000000000 }
    ensures { OnOk result (text.new ≡ text.old ++ section_text levels.now level) }
{
    let own = &levels[level];
    add_process(text, level as u64 + 1, own)?;
    add_block(text, own)?;
    add_cost(text, own.task)?;
    add_waits(text, task_of(levels, level))?;
    add_ranks(text, levels, level, ticks_of(own))?;
    add_sum(text, levels, level, ticks_of(own))
}

/// Puts the sections of levels at the end of a text.
fn add_sections(text: &mut Text, levels: &[Level], order: &[usize]) -> Result<(), OutOfMemory>
    requires tasks { All IsTask (tasks_in levels.now) }
    requires ticks { All (λ l. shown_at l ≤ 1000000000) levels.now }
    requires order { All (λ level. level < length levels.now) order.now }
    ensures { OnOk result (text.new ≡ text.old ++ sections_text levels.now order.now) }
{
    for level in order {
        add_section(text, levels, *level)?;
    }
    Ok(())
}

/// The name of the first level, in an order, that has no bound.
fn first_late<'a>(levels: &'a [Level], order: &[usize]) -> Option<&'a Name>
    requires { All (λ level. level < length levels.now) order.now }
    ensures { option_copied result ≡ defined_first_late levels.now order.now }
{
    for level in order {
        if levels[*level].bound.is_none() {
            return Some(&levels[*level].name);
        }
    }
    None
}

/// Puts the load, and whether each level has a bound, at the end of a text.
fn add_end(text: &mut Text, load: u64, late: Option<&Name>) -> Result<(), OutOfMemory>
    ensures { OnOk result (text.new ≡ text.old ++
        (load_text load ++ verdict_text (option_copied late.entry))) }
{
    add_number(text, "load ", load)?;
    text.extend(b" of 1000000\n")?;
    match late {
        None => text.extend(b"timely\n"),
        Some(name) => {
            add_name(text, "untimely ", name)?;
            text.extend(b"\n")
        }
    }
}

/// The text that takes the bounds of levels apart, which stand in the order of ranks; the order is
/// that of their processes in the program, each by its level, which counts from 0.
///
/// Each process has a section: its bound, or none, its block with what makes it, its cost, its
/// waits, what each process of higher rank takes, and their sum; all in the ticks of its bound, or
/// of its deadline where it has none. The load and the verdict stand last. A number above
/// 1,000,000,000 is `over`. Only want of memory is an error.
#[tactic(auto, unfolding(crate::specs::Sections::bounds_text))]
pub fn bounds_text(alloc: Global, levels: &[Level], order: &[usize]) -> Result<Text, OutOfMemory>
    requires tasks { AreTasks (tasks_in levels.now) }
    requires ticks { All (λ l. shown_at l ≤ 1000000000) levels.now }
    requires order { All (λ level. level < length levels.now) order.now }
    ensures { IfOk result (λ text. text ≡ defined_text levels.now order.now) }
{
    let late = first_late(levels, order);
    let load = load_of(levels);
    let mut text = Text::new(alloc);
    add_sections(&mut text, levels, order)?;
    add_end(&mut text, load, late)?;
    Ok(text)
}
