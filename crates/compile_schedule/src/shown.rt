//! The table that is shown.

ghost use Rattle.std.specs.Prelude.{◌≡◌, ◌<◌, ◌^◌, IfOk, length, map};
ghost use Rattle.built_image.specs.Shown.{ceiling_shown, row_of, rows_of, table_of};
ghost use Rattle.image.specs.Raw.{image_of, monitor_of, process_of};

use base::Cost;
use image::{RawImage, RawMonitor, RawProcess};
use out_of_memory::OutOfMemory;
use sched_table::{Row, Size, Table};
use std::alloc::Global;
use syntax_tree::List;

/// The ceiling of a monitor that no process enters.
const NO_RANK: u16 = 65_535;

/// A number of ticks as a row has it.
fn ticks(bound: Option<u32>) -> Option<u64>
    ensures { result ≡ bound }
{
    match bound {
        Some(ticks) => Some(ticks as u64),
        None => None,
    }
}

/// The row of a process with its bound, if it has one.
fn process_row(process: &RawProcess, bound: Option<u32>) -> Row
    ensures { result ≡ row_of (process_of process.now) bound }
{
    Row {
        frame: process.frame as u64,
        deadline: process.deadline as u64,
        rank: process.rank,
        cost: Cost {
            run: process.run as u64,
            susp: process.susp as u64,
            waits: process.waits as u64,
        },
        block: process.block as u64,
        bound: ticks(bound),
        size: Size {
            words: process.words,
            stack: process.stack,
        },
    }
}

/// The rows of processes with their bounds.
fn rows(
    alloc: Global,
    processes: &[RawProcess],
    bounds: &[Option<u32>],
) -> Result<List<Row>, OutOfMemory>
    requires { length bounds.now ≡ length processes.now }
    ensures { IfOk result (λ rows. rows ≡ rows_of (map process_of processes.now) bounds.now) }
{
    let mut all = List::new(alloc);
    for number in 0..processes.len() {
        let row = process_row(&processes[number], bounds[number]);
        all.push(row)?;
    }
    Ok(all)
}

/// The ceiling of a monitor, if a process enters it.
fn monitor_ceiling(monitor: &RawMonitor) -> Option<u16>
    ensures { result ≡ ceiling_shown (monitor_of monitor.now) }
{
    if monitor.ceiling == NO_RANK {
        None
    } else {
        Some(monitor.ceiling)
    }
}

/// The ceilings of monitors.
fn ceilings(alloc: Global, monitors: &[RawMonitor]) -> Result<List<Option<u16>>, OutOfMemory>
    ensures { IfOk result (λ all. all ≡ map ceiling_shown (map monitor_of monitors.now)) }
{
    let mut all = List::new(alloc);
    for monitor in monitors {
        let ceiling = monitor_ceiling(monitor);
        all.push(ceiling)?;
    }
    Ok(all)
}

/// The words of monitors.
fn words(alloc: Global, monitors: &[RawMonitor]) -> Result<List<u32>, OutOfMemory>
    ensures { IfOk result (λ all. all ≡ map (λ x. x.words) (map monitor_of monitors.now)) }
{
    let mut all = List::new(alloc);
    for monitor in monitors {
        all.push(monitor.words)?;
    }
    Ok(all)
}

/// The table of an image with the bounds of its processes. It fails only where memory is wanting.
pub fn table(
    alloc: Global,
    image: &RawImage,
    bounds: &List<Option<u32>>,
) -> Result<Table, OutOfMemory>
    requires one_each { length bounds.now ≡ length image.now.processes }
    requires code { length image.now.code < 2 ^ 32 }
    ensures { IfOk result (λ table. table ≡ table_of (image_of image.now) bounds.now) }
{
    let rows = rows(alloc, image.processes.as_slice(), bounds.as_slice())?;
    let ceilings = ceilings(alloc, image.monitors.as_slice())?;
    let monitor_words = words(alloc, image.monitors.as_slice())?;
    Ok(Table {
        rows,
        ceilings,
        monitor_words,
        code: image.code.len() as u32,
    })
}
