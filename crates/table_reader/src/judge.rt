//! What is wrong with a process line behind the lines before it.

ghost use Rattle.std.specs.Prelude.{◌≡◌, ◌↔◌, ◌||◌, IfOk, IsTrue};
ghost use Rattle.std.specs.List.{list_any};
ghost use Rattle.table_format.specs.Rules.{CanBeMet, IsSmall, names, names_of_tasks, same_name, task_names};
ghost use Rattle.table_format.specs.Faults.{HasTakenName, meant};
ghost use Rattle.table_reader.specs.Judging.{is_among, is_event_taken, is_task_taken as is_task_name_taken};
ghost use Rattle.table_reader.specs.Reading.{line_seen};

use crate::line::{LineWords, StayWords};
use out_of_memory::OutOfMemory;
use std::alloc::Global;
use table_format::{TaskLine, TaskStay, TaskTable, all_stays, monitor_names};
use text_fields::is_same;

/// Whether the name is that of the process or of the event of a line.
fn is_of_task(task: &TaskLine, name: &[u8]) -> bool
    ensures { result ≡ is_among (task_names task.now) name.now }
{
    if task.name.as_bytes() == name {
        return true;
    }
    match &task.event {
        None => false,
        Some(event) => event.as_bytes() == name,
    }
}

/// Whether the name is that of a process or of an event of some lines.
fn is_of_lines(tasks: &[TaskLine], name: &[u8]) -> bool
    ensures { result ≡ list_any (λ p. is_among (task_names p) name.now) tasks.now }
{
    tasks.iter().any(|task| is_of_task(task, name))
}

/// Whether the name is that of a table, of a process or of an event.
fn is_of_tasks(table: &TaskTable, name: &[u8]) -> bool
    ensures { result ≡ is_among (names_of_tasks table.now) name.now }
{
    table.name.as_bytes() == name || is_of_lines(table.tasks.as_slice(), name)
}

/// Whether the name is that of a monitor of some stays.
fn is_of_stays(stays: &[TaskStay], name: &[u8]) -> bool
    ensures { result ≡ list_any (λ s. same_name s.monitor name.now) stays.now }
{
    stays.iter().any(|stay| stay.monitor.as_bytes() == name)
}

/// Whether the name is that of a monitor of some lines.
fn is_of_monitors(tasks: &[TaskLine], name: &[u8]) -> bool
    ensures { result ≡ list_any (λ p. list_any (λ s. same_name s.monitor name.now) p.stays) tasks.now }
{
    tasks
        .iter()
        .any(|task| is_of_stays(task.stays.as_slice(), name))
}

/// Whether the name is one of a table.
fn is_of_table(table: &TaskTable, name: &[u8]) -> bool
    ensures { result ≡ is_among (names table.now) name.now }
{
    is_of_tasks(table, name) || is_of_monitors(table.tasks.as_slice(), name)
}

/// Whether the name is that of the process or of the event of these words.
fn is_own(line: &LineWords<'_>, name: &[u8]) -> bool
    ensures { result ≡ is_among (task_names (meant (line_seen line.now))) name.now }
{
    if line.head.name == name {
        return true;
    }
    match line.head.event {
        None => false,
        Some(event) => event == name,
    }
}

/// Whether the event of a line has a name that is taken by the lines before it or by its process.
fn has_event_taken(table: &TaskTable, line: &LineWords<'_>) -> bool
    ensures { result ≡ is_event_taken table.now (meant (line_seen line.now))
        (meant (line_seen line.now)).event }
{
    match line.head.event {
        None => false,
        Some(event) => event == line.head.name || is_of_table(table, event),
    }
}

/// Whether the name of the process of a line or that of its event is taken by the lines before it or
/// in itself.
fn is_task_taken(table: &TaskTable, line: &LineWords<'_>) -> bool
    ensures { result ≡ is_task_name_taken table.now (meant (line_seen line.now)) }
{
    is_of_table(table, line.head.name) || has_event_taken(table, line)
}

/// Whether a monitor of these stays has a name that is taken by a table, a process or an event.
fn is_monitor_taken(table: &TaskTable, line: &LineWords<'_>, stays: &[StayWords<'_>]) -> bool
    ensures { result ≡ list_any (λ s. is_among (names_of_tasks table.now) s.monitor.now
        || is_among (task_names (meant (line_seen line.now))) s.monitor.now) stays.now }
{
    stays.iter().any(|stay| is_of_tasks(table, stay.monitor) || is_own(line, stay.monitor))
}

/// Whether a line has a name that is taken by the lines before it or in itself.
pub fn has_taken_name(table: &TaskTable, line: &LineWords<'_>) -> bool
    ensures { IsTrue result ↔ HasTakenName table.now (meant (line_seen line.now)) }
{
    is_task_taken(table, line) || is_monitor_taken(table, line, line.stays.as_slice())
}

/// Whether all stays and the cost of a line can be met.
pub fn can_be_met(task: &TaskLine) -> bool
    ensures { IsTrue result ↔ CanBeMet task.now }
{
    let mut left = task.cost.saturating_sub(3);
    for stay in task.stays.as_slice() {
        if stay.ticks != 3 && stay.ticks < 6 {
            return false;
        }
        left = left.saturating_sub(15).saturating_sub(stay.ticks);
    }
    left == 1 || left >= 4
}

/// Whether a table has at most 64 processes, 64 monitors and 512 stays.
pub fn is_small(alloc: Global, table: &TaskTable) -> Result<bool, OutOfMemory>
    ensures { IfOk result (λ small. IsTrue small ↔ IsSmall table.now) }
{
    let stays = all_stays(alloc, table.tasks.as_slice())?;
    if table.tasks.len() > 64 || stays.len() > 512 {
        return Ok(false);
    }
    let names = monitor_names(alloc, stays.as_slice())?;
    Ok(names.len() <= 64)
}
