//! Places of the monitors, the routines and the processes.

ghost use Rattle.std.specs.Prelude.{◌≡◌, ◌+◌, All, length, map, IfOk};
ghost use Rattle.std.specs.List.{flat_map};
ghost use Rattle.image.specs.Bytes.{Second, monitors_bytes, processes_bytes, routine_bytes};
ghost use Rattle.image.specs.InRange.{IsProcessInRange};
ghost use Rattle.image.specs.Raw.{monitor_of, process_of, routine_of};
ghost use Rattle.image_bytes.specs.Fields.{process_fields, routine_fields};
ghost use Rattle.image_bytes.specs.Placing.{AreAmong, HasEnd};
ghost use Rattle.image_reader.specs.Grammar.{monitor_format};
ghost use Rattle.valid_image.specs.Valid.{HasHandler};

use crate::names::after_name;
use crate::parts::{after_process, after_routine};
use crate::{monitor_is_read, process_is_read, routine_is_read};
use image::{RawMonitor, RawProcess, RawRoutine};
use out_of_memory::OutOfMemory;
use std::alloc::Global;
use syntax_tree::{List, Name};

/// So many bytes of a monitor stand after its name.
const MONITOR_NUMBERS: usize = 10;

/// Where the monitors begin, each after its name, and the place after them.
pub(crate) fn monitors_from(
    alloc: Global,
    start: usize,
    names: &[Name],
    monitors: &[RawMonitor],
) -> Result<(List<usize>, usize), OutOfMemory>
    requires each { length names.now ≡ length monitors.now }
    requires room { HasEnd start (monitors_bytes names.now (map monitor_of monitors.now)) }
    ensures places { IfOk result (λ x. AreAmong monitor_format start
        (monitors_bytes names.now (map monitor_of monitors.now)) x.0
        (map monitor_of monitors.now)) }
    ensures after { IfOk result (λ x. x.1 ≡
        start + length (monitors_bytes names.now (map monitor_of monitors.now))) }
{
    let mut places = List::new(alloc);
    let mut at = start;
    for (number, monitor) in monitors.iter().enumerate() {
        monitor_is_read(monitor);
        let numbers = after_name(at, &names[number]);
        places.push(numbers)?;
        at = numbers + MONITOR_NUMBERS;
    }
    Ok((places, at))
}

/// Where the routines begin, and the place after them.
pub(crate) fn routines_from(
    alloc: Global,
    start: usize,
    routines: &[RawRoutine],
) -> Result<(List<usize>, usize), OutOfMemory>
    requires { HasEnd start (flat_map routine_bytes (map routine_of routines.now)) }
    ensures places { IfOk result (λ x. AreAmong routine_fields start
        (flat_map routine_bytes (map routine_of routines.now)) x.0
        (map routine_of routines.now)) }
    ensures after { IfOk result (λ x. x.1 ≡
        start + length (flat_map routine_bytes (map routine_of routines.now))) }
{
    let mut places = List::new(alloc);
    let mut at = start;
    for routine in routines {
        routine_is_read(routine);
        places.push(at)?;
        at = after_routine(at, routine);
    }
    Ok((places, at))
}

/// Where the processes begin, each after its name, and the place after them.
pub(crate) fn processes_from(
    alloc: Global,
    start: usize,
    names: &[Name],
    processes: &[RawProcess],
) -> Result<(List<usize>, usize), OutOfMemory>
    requires each { length names.now ≡ length processes.now }
    requires handlers { All (λ p. HasHandler p p.handler_tree) (map process_of processes.now) }
    requires in_range { All IsProcessInRange (map process_of processes.now) }
    requires room { HasEnd start (processes_bytes Second names.now (map process_of processes.now)) }
    ensures places { IfOk result (λ x. AreAmong process_fields start
        (processes_bytes Second names.now (map process_of processes.now)) x.0
        (map process_of processes.now)) }
    ensures after { IfOk result (λ x. x.1 ≡
        start + length (processes_bytes Second names.now (map process_of processes.now))) }
{
    let mut places = List::new(alloc);
    let mut at = start;
    for (number, process) in processes.iter().enumerate() {
        process_is_read(process);
        let place = after_name(at, &names[number]);
        places.push(place)?;
        at = after_process(place, process);
    }
    Ok((places, at))
}
