//! The lines of processes.

ghost use Rattle.std.specs.Prelude.{◌≡◌, ◌++◌, OnOk};
ghost use Rattle.image.specs.Raw.{process_of};
ghost use Rattle.asm_format.specs.Text.{handler_line, handler_text, process_lines, release_text, room_text, time_text};

use crate::numbers::{put_field, put_numbers};
use crate::trees::put_tree;
use image::RawProcess;
use image_format::SegTree;
use out_of_memory::OutOfMemory;
use std::alloc::Global;
use syntax_tree::{Name, Text};

/// Puts what releases a periodic process, and within what it ends.
fn put_periodic(text: &mut Text, process: &RawProcess) -> Result<(), OutOfMemory>
    ensures { OnOk result (text.new ≡ text.old ++ release_text (process_of process.now) 0) }
{
    put_field(text, b" periodic frame ", process.frame)?;
    put_field(text, b" deadline ", process.deadline)?;
    put_field(text, b" first ", process.first)?;
    Ok(())
}

/// Puts the event that releases a process, and within what it ends.
fn put_evented(text: &mut Text, process: &RawProcess) -> Result<(), OutOfMemory>
    ensures { OnOk result (text.new ≡ text.old ++ release_text (process_of process.now) 1) }
{
    put_field(text, b" event ", u32::from(process.event))?;
    put_field(text, b" frame ", process.frame)?;
    put_field(text, b" deadline ", process.deadline)?;
    Ok(())
}

/// Puts what releases a process, and within what it ends.
fn put_release(text: &mut Text, process: &RawProcess) -> Result<(), OutOfMemory>
    ensures { OnOk result (text.new ≡ text.old ++
        release_text (process_of process.now) process.now.kind) }
{
    match process.kind {
        0 => put_periodic(text, process),
        _ => put_evented(text, process),
    }
}

/// Puts the rank of a process, and what it takes of time.
fn put_time(text: &mut Text, process: &RawProcess) -> Result<(), OutOfMemory>
    ensures { OnOk result (text.new ≡ text.old ++ time_text (process_of process.now)) }
{
    put_field(text, b" rank ", u32::from(process.rank))?;
    put_field(text, b" run ", process.run)?;
    put_field(text, b" suspend ", process.susp)?;
    put_field(text, b" waits ", process.waits)?;
    put_field(text, b" block ", process.block)?;
    put_field(text, b" bound ", process.bound)?;
    Ok(())
}

/// Puts what a process takes of memory, and where it begins.
fn put_room(text: &mut Text, process: &RawProcess) -> Result<(), OutOfMemory>
    ensures { OnOk result (text.new ≡ text.old ++ room_text (process_of process.now)) }
{
    put_field(text, b" data ", process.words)?;
    put_field(text, b" stack ", process.stack)?;
    put_field(text, b" locals ", process.locals)?;
    put_field(text, b" start ", process.start)?;
    Ok(())
}

/// Puts the address of a handler and the numbers that it takes, where there are any, and ends the
/// line.
fn put_handler(text: &mut Text, handler: u32, numbers: &[u16]) -> Result<(), OutOfMemory>
    ensures { OnOk result (text.new ≡ text.old ++ handler_text handler numbers.now) }
{
    match numbers {
        [] => text.extend(b"\n")?,
        [_, ..] => {
            put_field(text, b" handler ", handler)?;
            put_numbers(text, numbers)?;
        }
    }
    Ok(())
}

/// Puts the line of the handler's tree, where there are numbers that it takes.
fn put_handler_tree(
    alloc: Global,
    text: &mut Text,
    numbers: &[u16],
    tree: &Option<SegTree>,
) -> Result<(), OutOfMemory>
    ensures { OnOk result (text.new ≡ text.old ++
        handler_line numbers.now tree.now) }
{
    match (numbers, tree) {
        ([_, ..], Some(tree)) => put_tree(alloc, text, tree)?,
        ([_, ..], None) => {}
        ([], _) => {}
    }
    Ok(())
}

/// Puts a process, the line of its tree, and that of its handler's.
pub fn put_process(
    alloc: Global,
    text: &mut Text,
    name: &Name,
    process: &RawProcess,
) -> Result<(), OutOfMemory>
    ensures { OnOk result (text.new ≡ text.old ++ process_lines name.now (process_of process.now)) }
{
    text.extend(b"process ")?;
    text.extend(name.as_bytes())?;
    put_release(text, process)?;
    put_time(text, process)?;
    put_room(text, process)?;
    put_handler(text, process.handler, process.numbers.as_slice())?;
    put_tree(alloc, text, &process.body)?;
    put_handler_tree(
        alloc,
        text,
        process.numbers.as_slice(),
        &process.handler_tree,
    )?;
    Ok(())
}
