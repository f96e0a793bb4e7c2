//! The processes of an image.

ghost use Rattle.std.specs.Prelude.{◌≡◌, ◌≤◌, IfOk, length, map};
ghost use Rattle.base.specs.Capped.{cap};
ghost use Rattle.syntax_tree.specs.Placed.{placed, placed_process, plain, plain_process};
ghost use Rattle.image.specs.Raw.{process_of};
ghost use Rattle.valid_image.specs.Sizes.{with_dispatch};
ghost use Rattle.code_spec.specs.Layout.{words_of};
ghost use Rattle.code_names.specs.Parts.{seen_processes};
ghost use Rattle.compile_image.specs.Rows.{FitSizes, FitsSize, IsCapped};
ghost use Rattle.compile_image.specs.Told.{process_told, processes_told};

use crate::errors::tri;
use crate::handlers::{handler_numbers, handler_start, handler_tree};
use crate::loops::frame;
use crate::releases::released;
use base::{Cost, OVER};
use code_cost::ProcessMeasure;
use code_layout::{ConstantValues, laid_process};
use code_names::NameList;
use codegen_spec::ProcessParts;
use image::RawProcess;
use image_format::SegTree;
use out_of_memory::OutOfMemory;
use std::alloc::Global;
use syntax_tree::{List, Process};

/// The ticks of an activation, with two dispatches at the release and two after each wait, where
/// the overhead is the ticks of one; up to 1,000,000,001.
#[tactic(auto, using(crate::proofs::Costs::dispatch_low))]
fn with_dispatches(over: u16, cost: Cost) -> u32
    requires over { over ≤ 1000 }
    requires capped { IsCapped cost }
    ensures { result ≡ cap (with_dispatch over cost) }
{
    let dispatches = 2 * u64::from(over) * (1 + cost.waits);
    (cost.run + dispatches).min(OVER) as u32
}

/// The words of a process's variables.
fn data_words(
    alloc: Global,
    values: &ConstantValues<'_>,
    process: &Process,
) -> Result<u32, OutOfMemory>
    requires { words_of (plain (placed values.now)) (plain_process
        (placed_process process.now)).vars ≤ 1048576 }
    ensures { IfOk result (λ words. words ≡ words_of (plain (placed values.now))
        (plain_process (placed_process process.now)).vars) }
{
    let laid = tri!(laid_process(alloc, values, process));
    Ok(laid.word as u32)
}

/// A process with its parts of the code and its measures.
fn raw_process(
    alloc: Global,
    values: &ConstantValues<'_>,
    events: &NameList<'_>,
    over: u16,
    process: &Process,
    parts: &ProcessParts,
    size: ProcessMeasure,
) -> Result<RawProcess, OutOfMemory>
    requires over { over ≤ 1000 }
    requires events { length events.now ≤ 64 }
    requires fits { FitsSize (plain (placed values.now))
        (plain_process (placed_process process.now)) parts.now size }
    ensures { IfOk result (λ raw. process_of raw ≡ process_told
        (plain (placed values.now)) events.now over (plain_process
        (placed_process process.now)) parts.now size) }
{
    let release = released(values, events, &process.activation);
    let words = tri!(data_words(alloc, values, process));
    let numbers = tri!(handler_numbers(alloc, values, &process.handler));
    let body = tri!(SegTree::of(alloc, parts.body.tree.as_slice()));
    let handler_tree = tri!(handler_tree(alloc, &parts.handler));
    Ok(RawProcess {
        kind: release.kind,
        frame: release.frame,
        deadline: release.deadline,
        first: release.first,
        event: release.event,
        rank: 0,
        run: with_dispatches(over, size.cost),
        susp: size.cost.susp as u32,
        waits: size.cost.waits as u32,
        block: 0,
        bound: 0,
        words,
        stack: size.stack as u32,
        locals: frame(process),
        start: parts.body.start as u32,
        handler: handler_start(&parts.handler),
        numbers,
        body,
        handler_tree,
    })
}

/// The processes in the order of the text.
pub fn raw_processes(
    alloc: Global,
    values: &ConstantValues<'_>,
    events: &NameList<'_>,
    over: u16,
    processes: &[&Process],
    parts: &[ProcessParts],
    sizes: &[ProcessMeasure],
) -> Result<List<RawProcess>, OutOfMemory>
    requires over { over ≤ 1000 }
    requires events { length events.now ≤ 64 }
    requires parts { length parts.now ≡ length processes.now }
    requires sizes { length sizes.now ≡ length processes.now }
    requires fits { FitSizes (plain (placed values.now))
        (seen_processes processes.now) parts.now sizes.now }
    ensures { IfOk result (λ list. map process_of list ≡
        processes_told (plain (placed values.now)) events.now over
        (seen_processes processes.now) parts.now sizes.now) }
{
    let mut list = List::new(alloc);
    for (number, process) in processes.iter().enumerate() {
        let raw = tri!(raw_process(
            alloc,
            values,
            events,
            over,
            process,
            &parts[number],
            sizes[number],
        ));
        tri!(list.push(raw));
    }
    Ok(list)
}
