//! Processes and monitors.

ghost use Rattle.std.specs.Prelude.{◌≡◌, ◌++◌, OnOk, codes};
ghost use Rattle.std.specs.Fmt.{signed_decimal};
ghost use Rattle.command_due.specs.Text.{inside_text, occupant_text, view_text, words_text};
ghost use Rattle.vm_watch.specs.Told.{told_monitor, told_process};

use crate::names::{monitor_of, process_of, put_condition};
use image::ImageNames;
use itoa::Buffer;
use out_of_memory::OutOfMemory;
use syntax_tree::Text;
use vm_stretch::View;

/// Puts a space and a number with its sign.
fn put_word(text: &mut Text, word: i32) -> Result<(), OutOfMemory>
    ensures { OnOk result (text.new ≡ text.old ++ (codes " " ++ signed_decimal word)) }
{
    let mut digits = Buffer::new();
    text.extend(b" ")?;
    text.extend(digits.format(word).as_bytes())?;
    Ok(())
}

/// Puts words, each after a space, and ends the line.
fn put_words(text: &mut Text, words: &[i32]) -> Result<(), OutOfMemory>
    ensures { OnOk result (text.new ≡ text.old ++ words_text words.now) }
{
    for word in words {
        put_word(text, *word)?;
    }
    text.extend(b"\n")?;
    Ok(())
}

/// Puts the monitor that a process is inside, or a dash.
fn put_inside(text: &mut Text, names: &ImageNames, inside: Option<u16>) -> Result<(), OutOfMemory>
    ensures { OnOk result (text.new ≡ text.old ++ inside_text names.now inside) }
{
    match inside {
        Some(monitor) => text.extend(monitor_of(names, monitor as usize)),
        None => text.extend(b"-"),
    }
}

/// Puts how a process stands that is ready.
fn put_ready(
    text: &mut Text,
    names: &ImageNames,
    at: usize,
    left: u32,
    inside: Option<u16>,
) -> Result<(), OutOfMemory>
    ensures { OnOk result (text.new ≡ text.old ++ view_text names.now (View.Ready at left inside)) }
{
    let mut address = Buffer::new();
    let mut ticks = Buffer::new();
    text.extend(b" ready ")?;
    text.extend(address.format(at).as_bytes())?;
    text.extend(b" ")?;
    text.extend(ticks.format(left).as_bytes())?;
    text.extend(b" ")?;
    put_inside(text, names, inside)
}

/// Puts how a process stands that waits.
fn put_waiting(
    text: &mut Text,
    names: &ImageNames,
    condition: u16,
    due: u64,
) -> Result<(), OutOfMemory>
    ensures { OnOk result (text.new ≡ text.old ++
        view_text names.now (View.Waiting condition due)) }
{
    let mut tick = Buffer::new();
    text.extend(b" waiting ")?;
    put_condition(text, names, condition as usize)?;
    text.extend(b" ")?;
    text.extend(tick.format(due).as_bytes())?;
    Ok(())
}

/// Puts how a process stands.
fn put_view(text: &mut Text, names: &ImageNames, view: View) -> Result<(), OutOfMemory>
    ensures { OnOk result (text.new ≡ text.old ++ view_text names.now view) }
{
    match view {
        View::Idle => text.extend(b" idle"),
        View::Ready { at, left, inside } => put_ready(text, names, at, left, inside),
        View::Waiting { condition, due } => put_waiting(text, names, condition, due),
    }
}

/// Puts the line of a process: how it stands, and these words of it. An error says that memory is
/// short.
pub fn put_process(
    text: &mut Text,
    names: &ImageNames,
    process: usize,
    view: View,
    words: &[i32],
) -> Result<(), OutOfMemory>
    ensures { OnOk result (text.new ≡ text.old ++ told_process names.now process view words.now) }
{
    text.extend(b"process ")?;
    text.extend(process_of(names, process))?;
    put_view(text, names, view)?;
    text.extend(b" data")?;
    put_words(text, words)
}

/// Puts who is inside a monitor.
fn put_occupant(
    text: &mut Text,
    names: &ImageNames,
    occupant: Option<usize>,
) -> Result<(), OutOfMemory>
    ensures { OnOk result (text.new ≡ text.old ++ occupant_text names.now occupant) }
{
    match occupant {
        Some(process) => {
            text.extend(b" ")?;
            text.extend(process_of(names, process))
        }
        None => text.extend(b" free"),
    }
}

/// Puts the line of a monitor: who is inside it, and these words of it. An error says that memory is
/// short.
pub fn put_monitor(
    text: &mut Text,
    names: &ImageNames,
    monitor: usize,
    occupant: Option<usize>,
    words: &[i32],
) -> Result<(), OutOfMemory>
    ensures { OnOk result (text.new ≡ text.old ++
        told_monitor names.now monitor occupant words.now) }
{
    text.extend(b"monitor ")?;
    text.extend(monitor_of(names, monitor))?;
    put_occupant(text, names, occupant)?;
    text.extend(b" data")?;
    put_words(text, words)
}
