//! The text of the program of a table.

ghost use Rattle.std.specs.Prelude.{◌≡◌, ◌++◌, flat_map, map, IfOk, OnOk};
ghost use Rattle.syntax_printer.specs.Canonical.{canonical};
ghost use Rattle.syntax_tree.specs.Placed.{monitor, process};
ghost use Rattle.table_format.specs.Rules.{stays as stays_of};
ghost use Rattle.table_format.specs.Program.{event_of, program_with, table_process, table_text as text_of_table};
ghost use Rattle.table_format.specs.Parts.{declarations_text, monitor_with, monitors_of, seen};

use crate::monitors::{add_monitor, monitor_names};
use crate::names::{all_stays, made_tail};
use crate::parts::add_parts;
use crate::processes::add_process;
use crate::{TaskLine, TaskStay, TaskTable};
use out_of_memory::OutOfMemory;
use std::alloc::Global;
use syntax_tree::{Name, Text};

/// Puts the event of a process line, if it has one, at the end of a text.
fn add_event(text: &mut Text, event: &Option<Name>) -> Result<(), OutOfMemory>
    ensures { OnOk result (text.new ≡ text.old ++ declarations_text (event_of event.now)) }
{
    match event {
        None => Ok(()),
        Some(event) => add_parts(text, &[b"event ", event.as_bytes(), b"\n"]),
    }
}

/// Puts the events of some process lines at the end of a text.
fn add_events(text: &mut Text, tasks: &[TaskLine]) -> Result<(), OutOfMemory>
    ensures { OnOk result (text.new ≡ text.old ++
        declarations_text (flat_map (λ p. event_of p.event) tasks.now)) }
{
    for task in tasks {
        add_event(text, &task.event)?;
    }
    Ok(())
}

/// Puts the monitors of these names at the end of a text.
fn add_monitors(
    alloc: Global,
    text: &mut Text,
    tail: &[u8],
    stays: &[&TaskStay],
    names: &[&[u8]],
) -> Result<(), OutOfMemory>
    ensures { OnOk result (text.new ≡ text.old ++ declarations_text
        (map (λ name. monitor (monitor_with tail.now (seen stays.now) name)) (seen names.now))) }
{
    for listed in names {
        let name = *listed;
        add_monitor(alloc, text, tail, stays, name)?;
    }
    Ok(())
}

/// Puts the processes of some process lines at the end of a text.
fn add_processes(text: &mut Text, tail: &[u8], tasks: &[TaskLine]) -> Result<(), OutOfMemory>
    ensures { OnOk result (text.new ≡ text.old ++ declarations_text
        (map (λ p. process (table_process tail.now p)) tasks.now)) }
{
    for task in tasks {
        add_process(text, tail, task)?;
    }
    Ok(())
}

/// Puts the monitors of these stays at the end of a text.
fn add_all_monitors(
    alloc: Global,
    text: &mut Text,
    tail: &[u8],
    stays: &[&TaskStay],
) -> Result<(), OutOfMemory>
    ensures { OnOk result (text.new ≡ text.old ++ declarations_text
        (map (λ name. monitor (monitor_with tail.now (seen stays.now) name))
        (monitors_of (seen stays.now)))) }
{
    let names = monitor_names(alloc, stays)?;
    add_monitors(alloc, text, tail, stays, names.as_slice())
}

/// The text of the program of a table with these stays and this tail.
fn text_with(
    alloc: Global,
    table: &TaskTable,
    stays: &[&TaskStay],
    tail: &[u8],
) -> Result<Text, OutOfMemory>
    requires { seen stays.now ≡ stays_of table.now }
    ensures { IfOk result (λ text. text ≡ canonical (program_with tail.now table.now)) }
{
    let name = table.name.as_bytes();
    let tasks = table.tasks.as_slice();
    let mut text = Text::new(alloc);
    add_parts(&mut text, &[b"program ", name, b"\n"])?;
    add_events(&mut text, tasks)?;
    add_all_monitors(alloc, &mut text, tail, stays)?;
    add_processes(&mut text, tail, tasks)?;
    add_parts(&mut text, &[b"end ", name, b"\n"])?;
    Ok(text)
}

/// The canonical text of the program of the table: each process has the frame, the deadline and
/// the cost of its line, in ticks, and stays in monitors for as many ticks as its line says.
///
/// # Errors
///
/// Only where there is not enough memory.
pub fn table_text(alloc: Global, table: &TaskTable) -> Result<Text, OutOfMemory>
    ensures { IfOk result (λ text. text ≡ text_of_table table.now) }
{
    let stays = all_stays(alloc, table.tasks.as_slice())?;
    let tail = made_tail(alloc, table, stays.as_slice())?;
    text_with(alloc, table, stays.as_slice(), tail.as_bytes())
}
