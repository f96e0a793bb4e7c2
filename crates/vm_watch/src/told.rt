//! The lines of processes and monitors.

ghost use Rattle.std.specs.Prelude.{◌≡◌, ◌++◌, ◌≤◌, ◌<◌, IfOk, OnOk, length, take};
ghost use Rattle.std.specs.List.{flat_map, range_with_len};
ghost use Rattle.machine_semantics.specs.Run.{state_at};
ghost use Rattle.vm_runner.specs.Standing.{StandsIn};
ghost use Rattle.vm_runner.specs.Turn.{Run};
ghost use Rattle.vm_state.specs.Plan.{IsOf};
ghost use Rattle.command_due.specs.Text.{monitor_line, process_line, state_text};
ghost use Rattle.vm_stretch.specs.View.{monitor_words, process_words};
ghost use Rattle.vm_watch.specs.Inspect.{HasItsWords};
ghost use Rattle.vm_watch.specs.Shown.{IsShownOfMonitor, IsShownOfProcess};

use crate::{monitor_word, occupant, put_monitor, put_process, view, word};
use image_bytes::ImageBytes;
use out_of_memory::OutOfMemory;
use std::alloc::Global;
use syntax_tree::Text;
use vm_runner::{Machine, Ranking};
use vm_state::DecodedImage;

/// How many words are shown at most.
const SHOWN_WORDS: usize = 16;

/// How many words of a process are shown.
fn shown_of_process(image: &ImageBytes, process: u16) -> usize
    requires { process < length image.now.image.processes }
    ensures { IsShownOfProcess image.now.image process result }
{
    let count = image.process(process).words as usize;
    count.min(SHOWN_WORDS)
}

/// How many words of a monitor are shown.
fn shown_of_monitor(image: &ImageBytes, monitor: u16) -> usize
    requires { monitor < length image.now.image.monitors }
    ensures { IsShownOfMonitor image.now.image monitor result }
{
    let count = image.monitor(monitor).words as usize;
    count.min(SHOWN_WORDS)
}

/// The first words of a process, so many.
fn words_of_process(
    alloc: Global,
    machine: &Machine<Ranking>,
    process: usize,
    count: usize,
) -> Result<Vec<i32>, OutOfMemory>
    ghost run: { Run }
    requires stands { StandsIn run.image run.script machine.now }
    requires count { count ≤
        length (process_words (state_at run.image run.script machine.now.tick) process) }
    ensures { IfOk result (λ words. words.items ≡
        take count (process_words (state_at run.image run.script machine.now.tick) process)) }
{
    let mut words = Vec::new(alloc);
    for number in 0..count {
        words.push(word(machine, process, number))?;
    }
    Ok(words)
}

/// The first words of a monitor, so many.
fn words_of_monitor(
    alloc: Global,
    image: &ImageBytes,
    machine: &Machine<Ranking>,
    monitor: u16,
    count: usize,
) -> Result<Vec<i32>, OutOfMemory>
    ghost run: { Run }
    requires image { run.image ≡ image.now.image }
    requires stands { StandsIn run.image run.script machine.now }
    requires count { count ≤ length (monitor_words run.image
        (state_at run.image run.script machine.now.tick) monitor) }
    ensures { IfOk result (λ words. words.items ≡ take count (monitor_words run.image
        (state_at run.image run.script machine.now.tick) monitor)) }
{
    let mut words = Vec::new(alloc);
    for number in 0..count {
        words.push(monitor_word(image, machine, monitor, number))?;
    }
    Ok(words)
}

/// Puts the line of a process.
fn put_one_process(
    alloc: Global,
    text: &mut Text,
    image: &ImageBytes,
    plan: &DecodedImage,
    machine: &Machine<Ranking>,
    process: u16,
) -> Result<(), OutOfMemory>
    ghost run: { Run }
    requires image { run.image ≡ image.now.image }
    requires plan { IsOf run.image plan.now }
    requires stands { StandsIn run.image run.script machine.now }
    requires words { HasItsWords run.image (state_at run.image run.script machine.now.tick) }
    requires process { process < length image.now.image.processes }
    ensures { OnOk result (text.new ≡ text.old ++ process_line image.now.names run.image
        (state_at run.image run.script machine.now.tick) process) }
{
    let at = usize::from(process);
    let count = shown_of_process(image, process);
    let words = words_of_process(alloc, machine, at, count)?;
    let seen = view(plan, machine, at);
    put_process(text, image.names(), at, seen, words.as_slice())
}

/// Puts the line of a monitor.
fn put_one_monitor(
    alloc: Global,
    text: &mut Text,
    image: &ImageBytes,
    machine: &Machine<Ranking>,
    monitor: u16,
) -> Result<(), OutOfMemory>
    ghost run: { Run }
    requires image { run.image ≡ image.now.image }
    requires stands { StandsIn run.image run.script machine.now }
    requires words { HasItsWords run.image (state_at run.image run.script machine.now.tick) }
    requires monitor { monitor < length image.now.image.monitors }
    ensures { OnOk result (text.new ≡ text.old ++ monitor_line image.now.names run.image
        (state_at run.image run.script machine.now.tick) monitor) }
{
    let count = shown_of_monitor(image, monitor);
    let words = words_of_monitor(alloc, image, machine, monitor, count)?;
    let inside = occupant(machine, monitor);
    let at = usize::from(monitor);
    put_monitor(text, image.names(), at, inside, words.as_slice())
}

/// Puts the lines of all processes.
fn put_processes(
    alloc: Global,
    text: &mut Text,
    image: &ImageBytes,
    plan: &DecodedImage,
    machine: &Machine<Ranking>,
) -> Result<(), OutOfMemory>
    ghost run: { Run }
    requires image { run.image ≡ image.now.image }
    requires plan { IsOf run.image plan.now }
    requires stands { StandsIn run.image run.script machine.now }
    requires words { HasItsWords run.image (state_at run.image run.script machine.now.tick) }
    ensures { OnOk result (text.new ≡ text.old ++ flat_map (process_line image.now.names run.image
        (state_at run.image run.script machine.now.tick))
        (range_with_len 0 (length image.now.image.processes))) }
{
    for process in 0..image.processes() {
        put_one_process(alloc, text, image, plan, machine, process)?;
    }
    Ok(())
}

/// Puts the lines of all monitors.
fn put_monitors(
    alloc: Global,
    text: &mut Text,
    image: &ImageBytes,
    machine: &Machine<Ranking>,
) -> Result<(), OutOfMemory>
    ghost run: { Run }
    requires image { run.image ≡ image.now.image }
    requires stands { StandsIn run.image run.script machine.now }
    requires words { HasItsWords run.image (state_at run.image run.script machine.now.tick) }
    ensures { OnOk result (text.new ≡ text.old ++ flat_map (monitor_line image.now.names run.image
        (state_at run.image run.script machine.now.tick))
        (range_with_len 0 (length image.now.image.monitors))) }
{
    for monitor in 0..image.monitors() {
        put_one_monitor(alloc, text, image, machine, monitor)?;
    }
    Ok(())
}

/// Puts the lines of all processes and monitors.
pub(crate) fn put_state(
    alloc: Global,
    text: &mut Text,
    image: &ImageBytes,
    plan: &DecodedImage,
    machine: &Machine<Ranking>,
) -> Result<(), OutOfMemory>
    ghost run: { Run }
    requires image { run.image ≡ image.now.image }
    requires plan { IsOf run.image plan.now }
    requires stands { StandsIn run.image run.script machine.now }
    requires words { HasItsWords run.image (state_at run.image run.script machine.now.tick) }
    ensures { OnOk result (text.new ≡ text.old ++ state_text image.now.names run.image
        (state_at run.image run.script machine.now.tick)) }
{
    put_processes(alloc, text, image, plan, machine)?;
    put_monitors(alloc, text, image, machine)
}
