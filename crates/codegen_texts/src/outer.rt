//! The variables of processes and monitors.

ghost use Rattle.std.specs.Prelude.{◌≡◌, ◌+◌, IfOk, min};
ghost use Rattle.syntax_tree.specs.Placed.{placed, placed_process, plain, plain_process};
ghost use Rattle.source_semantics.specs.Names.{monitors as monitors_in, processes as processes_in};
ghost use Rattle.code_names.specs.Parts.{seen_monitors, seen_processes};
ghost use Rattle.codegen_texts.specs.Shared.{monitor_tables, process_table, process_tables};

use code_layout::{ConstantValues, Tables, VarLocations, laid_monitor, laid_process};
use out_of_memory::OutOfMemory;
use std::alloc::Global;
use syntax_tree::{Monitor, Process};

/// The variables of each process and of each monitor.
#[derive(Drop)]
pub struct OuterLocations<'a> {
    pub processes: Vec<VarLocations<'a>>,
    pub monitors: Vec<VarLocations<'a>>,
}

/// The variables of a process.
fn process_spots<'a>(
    alloc: Global,
    values: &ConstantValues<'_>,
    process: &'a Process,
) -> Result<VarLocations<'a>, OutOfMemory>
    ensures { IfOk result (λ spots. spots ≡ process_table (plain (placed values.now))
        (plain_process (placed_process process.now))) }
{
    let laid = laid_process(alloc, values, process)?;
    let spots = VarLocations::new(alloc, laid)?;
    Ok(spots)
}

/// The variables of each process.
fn processes_spots<'a>(
    alloc: Global,
    values: &ConstantValues<'_>,
    processes: &[&'a Process],
) -> Result<Vec<VarLocations<'a>>, OutOfMemory>
    ensures { IfOk result (λ tables. tables.items ≡
        process_tables (plain (placed values.now)) (seen_processes processes.now)) }
{
    let mut tables = Vec::new(alloc);
    for process in processes {
        let spots = process_spots(alloc, values, process)?;
        tables.push(spots)?;
    }
    Ok(tables)
}

/// A word behind those of a monitor, or the first that is told as this one is: 2^32 is greater than
/// any operand.
fn behind(word: u128) -> u128
    ensures { result ≡ min word 4294967296 }
{
    word.min(4_294_967_296)
}

/// The variables of each monitor, in one area: the words of each behind those of the one before.
fn monitors_spots<'a>(
    alloc: Global,
    values: &ConstantValues<'_>,
    monitors: &[&'a Monitor],
) -> Result<Vec<VarLocations<'a>>, OutOfMemory>
    ensures { IfOk result (λ tables. tables.items ≡
        monitor_tables (plain (placed values.now)) 0 (seen_monitors monitors.now)) }
{
    let mut tables = Vec::new(alloc);
    let mut base = 0;
    for monitor in monitors {
        let laid = laid_monitor(alloc, values, base, monitor)?;
        let end = laid.word;
        base = behind(end);
        let spots = VarLocations::new(alloc, laid)?;
        tables.push(spots)?;
    }
    Ok(tables)
}

/// The variables of the processes and of the monitors of a program.
pub fn outer_spots<'a>(
    alloc: Global,
    tables: &Tables<'a>,
) -> Result<OuterLocations<'a>, OutOfMemory>
    ensures processes { IfOk result (λ outer. outer.processes.items ≡
        process_tables (plain (placed tables.now)) (processes_in (plain (placed tables.now)))) }
    ensures monitors { IfOk result (λ outer. outer.monitors.items ≡
        monitor_tables (plain (placed tables.now)) 0 (monitors_in (plain (placed tables.now)))) }
{
    let directory = tables.numbering().directory();
    let processes = processes_spots(alloc, tables.values(), directory.processes())?;
    let monitors = monitors_spots(alloc, tables.values(), directory.monitors())?;
    Ok(OuterLocations {
        processes,
        monitors,
    })
}
