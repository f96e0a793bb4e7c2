//! The processes of a plan.

ghost use Rattle.std.specs.Prelude.{◌≡◌, ◌≤◌, ◌<◌, All, IfOk, length, true, false};
ghost use Rattle.image_bytes.specs.Standing.{process_in};
ghost use Rattle.machine_semantics.specs.Image.{end_of};
ghost use Rattle.vm_state.specs.Plan.{AreProcesses, IsProcess, IsRelease};
ghost use Rattle.vm_plan.specs.HasPlan.{CanRun, HandlerEnds};

use image_bytes::{ImageBytes, ProcessRef};
use loader_code::tree_end;
use out_of_memory::OutOfMemory;
use std::alloc::Global;
use vm_instructions::Ends;
use vm_state::{DecodedProcess, Release};

/// When a process is released.
fn release(process: &ProcessRef<'_>) -> Release
    requires kind { process.now.kind ≤ 1 }
    requires frame { 0 < process.now.frame }
    ensures { IsRelease (process_in process.now) result }
{
    if process.kind == 0 {
        Release::Periodic {
            first: u64::from(process.first),
            frame: u64::from(process.frame),
        }
    } else {
        Release::Event {
            event: process.event,
        }
    }
}

/// The address of the END of the body, in code of so many instructions.
fn body_end(process: &ProcessRef<'_>, code: usize) -> usize
    requires { end_of (process_in process.now) false ≤ code }
    ensures { result ≡ end_of (process_in process.now) false }
{
    match tree_end(process.body(), process.start as usize, code) {
        Some(end) => end,
        None => unreachable!(),
    }
}

/// The address of the END of the handler; without a handler its declared address.
fn handler_end(process: &ProcessRef<'_>, code: usize) -> usize
    requires { HandlerEnds code (process_in process.now).handler (process_in process.now).handler_tree }
    ensures { result ≡ end_of (process_in process.now) true }
{
    let start = process.handler as usize;
    match process.handler() {
        None => start,
        Some(tree) => match tree_end(tree, start, code) {
            Some(end) => end,
            None => unreachable!(),
        },
    }
}

/// The numbers that the handler takes, in order.
fn handler_numbers(alloc: Global, process: &ProcessRef<'_>) -> Result<Vec<u16>, OutOfMemory>
    ensures { IfOk result (λ numbers. numbers.items ≡ (process_in process.now).numbers) }
{
    Ok(process.numbers().collect(alloc)?)
}

/// What a run needs of a process.
fn process_of(
    alloc: Global,
    process: &ProcessRef<'_>,
    code: usize,
) -> Result<DecodedProcess, OutOfMemory>
    requires { CanRun code (process_in process.now) }
    ensures { IfOk result (λ kept. IsProcess (process_in process.now) kept) }
{
    Ok(DecodedProcess {
        release: release(process),
        rank: process.rank,
        start: process.start as usize,
        ends: Ends {
            handler: process.handler as usize,
            body: body_end(process, code),
            handled: handler_end(process, code),
        },
        numbers: handler_numbers(alloc, process)?,
        words: process.words as usize,
        stack: process.stack as usize,
        locals: process.locals as usize,
    })
}

/// What a run needs of each process.
pub(crate) fn processes(
    alloc: Global,
    image: &ImageBytes,
) -> Result<Vec<DecodedProcess>, OutOfMemory>
    requires { All (λ process. CanRun (length image.now.image.code) process) image.now.image.processes }
    ensures { IfOk result (λ processes. AreProcesses image.now.image.processes processes.items) }
{
    let code = image.code_len() as usize;
    let mut processes = Vec::with_capacity(alloc, usize::from(image.processes()))?;
    for number in 0..image.processes() {
        let process = image.process(number);
        processes.push(process_of(alloc, &process, code)?)?;
    }
    Ok(processes)
}
