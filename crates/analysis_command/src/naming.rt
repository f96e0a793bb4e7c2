//! The names of what makes a block.

ghost use Rattle.std.specs.Prelude.{◌≡◌, ◌<◌, IfOk, Some, length, slice_get};
ghost use Rattle.syntax_tree.specs.Placed.{placed, plain};
ghost use Rattle.code_names.specs.Parts.{monitor_of, process_of, seen_monitors, seen_processes};
ghost use Rattle.analysis_command.specs.Found.{IsNamedAt, IsSomeBlockerAt};

use code_names::{Directory, RoutineOwner};
use out_of_memory::OutOfMemory;
use sched_sections::Blocker;
use std::alloc::Global;
use syntax_tree::{Monitor, Name, Process};

/// The monitor of the number.
fn monitor_at<'a>(monitors: &[&'a Monitor], number: usize) -> &'a Monitor
    requires { number < length monitors.now }
    ensures { slice_get (seen_monitors monitors.now) number ≡ Some (monitor_of result) }
{
    monitors[number]
}

/// The process of the number.
fn process_at<'a>(processes: &[&'a Process], number: usize) -> &'a Process
    requires { number < length processes.now }
    ensures { slice_get (seen_processes processes.now) number ≡ Some (process_of result) }
{
    processes[number]
}

/// The names of the entry at a place of the text, of its monitor, and of the process of the number,
/// which make the block of some rank.
pub fn named_blocker(
    alloc: Global,
    directory: &Directory<'_>,
    place: usize,
    process: usize,
) -> Result<Blocker, OutOfMemory>
    requires { IsSomeBlockerAt (plain (placed directory.now)) place process }
    ensures { IfOk result (IsNamedAt (plain (placed directory.now)) place process) }
{
    let Some(text) = directory.texts().get(place) else {
        unreachable!()
    };
    let RoutineOwner::Monitor(monitor) = text.owner else {
        unreachable!()
    };
    let owner = monitor_at(directory.monitors(), monitor);
    let inside = process_at(directory.processes(), process);
    Ok(Blocker {
        monitor: Name::new(alloc, owner.name.as_bytes())?,
        entry: Name::new(alloc, text.routine.name.as_bytes())?,
        process: Name::new(alloc, inside.name.as_bytes())?,
    })
}
