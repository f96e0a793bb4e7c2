//! The lines of a section.

ghost use Rattle.std.specs.Prelude.{◌≡◌, ◌≤◌, ◌<◌, ◌+◌, ◌++◌, length, All, OnOk};
ghost use Rattle.base.specs.Capped.{cap};
ghost use Rattle.sched_response.specs.Demand.{activation, IsTask};
ghost use Rattle.sched_table.specs.Report.{with_optional};
ghost use Rattle.sched_sections.specs.Levels.{shown_at};
ghost use Rattle.sched_sections.specs.Sections.{block_line, blocker_text, bound_text, cost_line, optional_waits, process_line, waits_lines};

use crate::{Blocker, Level};
use base::{cap_add, cap_mul};
use out_of_memory::OutOfMemory;
use sched_response::Task;
use sched_table::{add_name, add_number};
use syntax_tree::Text;

/// Puts some words, and a number or `none`, at the end of a text.
fn add_optional(text: &mut Text, words: &str, number: Option<u64>) -> Result<(), OutOfMemory>
    ensures { OnOk result (text.new ≡ text.old ++ with_optional words.now number) }
{
    match number {
        Some(number) => add_number(text, words, number),
        None => {
            text.extend(words.as_bytes())?;
            text.extend(b"none")
        }
    }
}

/// The ticks in which the demand of a level is taken: its bound, or its deadline where it has none.
pub fn ticks_of(level: &Level) -> u64
    ensures { result ≡ shown_at level.now }
{
    match level.bound {
        Some(bound) => bound,
        None => level.task.deadline,
    }
}

/// Puts the bound of a level at the end of a text, with the ticks in which its demand is taken.
#[tactic(auto, unfolding(crate::specs::Sections::bound_text))]
fn add_bound(text: &mut Text, level: &Level) -> Result<(), OutOfMemory>
    ensures { OnOk result (text.new ≡ text.old ++ bound_text level.now) }
{
    add_optional(text, " bound ", level.bound)?;
    add_number(text, " at ", ticks_of(level))?;
    text.extend(b"\n")
}

/// Puts the line of a process at the end of a text.
#[tactic(auto, unfolding(crate::specs::Sections::process_line))]
pub fn add_process(text: &mut Text, rank: u64, level: &Level) -> Result<(), OutOfMemory>
    ensures { OnOk result (text.new ≡ text.old ++ process_line rank level.now) }
{
    add_name(text, "process ", &level.name)?;
    add_number(text, " frame ", level.task.frame)?;
    add_number(text, " deadline ", level.task.deadline)?;
    add_number(text, " rank ", rank)?;
    add_bound(text, level)
}

/// Puts what makes a block at the end of a text.
#[tactic(auto, unfolding(crate::specs::Sections::blocker_text))]
fn add_blocker(text: &mut Text, blocker: &Option<Blocker>) -> Result<(), OutOfMemory>
    ensures { OnOk result (text.new ≡ text.old ++ blocker_text blocker.now) }
{
    match blocker {
        None => Ok(()),
        Some(blocker) => {
            add_name(text, " ", &blocker.monitor)?;
            add_name(text, ".", &blocker.entry)?;
            add_name(text, " ", &blocker.process)
        }
    }
}

/// Puts the line of a block at the end of a text.
#[tactic(auto, unfolding(crate::specs::Sections::block_line))]
pub fn add_block(text: &mut Text, level: &Level) -> Result<(), OutOfMemory>
    ensures { OnOk result (text.new ≡ text.old ++ block_line level.now) }
{
    add_number(text, "block ", level.task.block)?;
    add_blocker(text, &level.blocker)?;
    text.extend(b"\n")
}

/// Puts the line of a cost at the end of a text.
#[tactic(auto, unfolding(crate::specs::Sections::cost_line))]
pub fn add_cost(text: &mut Text, task: Task) -> Result<(), OutOfMemory>
    ensures { OnOk result (text.new ≡ text.old ++ cost_line task) }
{
    add_number(text, "cost ", task.run)?;
    text.extend(b"\n")
}

/// Puts the lines of the waits at the end of a text.
#[tactic(auto, unfolding(crate::specs::Sections::waits_lines))]
fn add_some_waits(text: &mut Text, task: Task) -> Result<(), OutOfMemory>
    requires { IsTask task }
    ensures { OnOk result (text.new ≡ text.old ++ waits_lines task) }
{
    add_number(text, "suspend ", task.susp)?;
    text.extend(b"\n")?;
    add_number(text, "waits ", task.waits)?;
    add_number(text, " each ", task.block)?;
    add_number(text, " total ", cap_mul(task.waits, task.block))?;
    text.extend(b"\n")
}

/// Puts the lines of the waits at the end of a text, where the process waits at all.
pub fn add_waits(text: &mut Text, task: Task) -> Result<(), OutOfMemory>
    requires { IsTask task }
    ensures { OnOk result (text.new ≡ text.old ++ optional_waits task) }
{
    if task.waits == 0 {
        return Ok(());
    }
    add_some_waits(text, task)
}

/// What an activation of a task takes, where each wait of it is followed by a block.
pub fn activation_of(task: Task, block: u64) -> u64
    requires task { IsTask task }
    requires block { block ≤ 1000000001 }
    ensures { result ≡ cap (activation block task) }
{
    cap_add(cap_add(task.run, task.susp), cap_mul(task.waits, block))
}
