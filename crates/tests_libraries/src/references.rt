//! Parts of a loaded image by their numbers.

use crate::images::load;
use image_bytes::ImageBytes;
use image_format::{SegBytes, SegItem};
use machine_isa::Instr;
use std::test::Fail;

/// A program whose process calls an entry that stores 7 in the word of its monitor, in 16 ticks, of
/// which 7 are inside; and has a handler of the numbers 1 and 2 that does nothing. The process has a
/// frame of 100, a deadline of 90, and is first released at tick 5.
const ROOM: &str =
    "5254455500020000000100010000000000000001000000080161016d0000000000000001000102000000000000000000000000000000001000000000000000000000000700000001050000000000010100000002017000000000640000005a00000005000000010000001a0000000000000000000000000000001a000000000000000300000000000000050000000700020001000200000001040000000000002600000000000000000000000001000000070000000000000000070000000000000000000000002700000000000000000000000024000000000000000000000000230000000000000000000000003000000000000000000000000030000000000000000000000000";

/// The numbers of the routine.
fn has_routine(room: &ImageBytes) -> bool {
    if room.routines() != 1 {
        return false;
    }
    let entry = room.routine(0);
    entry.kind == 2 && entry.owner == 0 && entry.start == 0 && entry.run == 16 && entry.stay == 7
}

/// The tree of the routine.
fn has_routine_tree(room: &ImageBytes) -> bool {
    if room.routines() != 1 {
        return false;
    }
    match room.routine(0).tree().split_first() {
        Some((SegItem::Stay(monitor, inside), _)) => monitor == 0 && has_line(inside, 2),
        _ => false,
    }
}

/// Whether a tree begins with a line of so many instructions.
fn has_line(tree: SegBytes<'_>, count: u32) -> bool {
    match tree.split_first() {
        Some((SegItem::Line(found), _)) => found == count,
        _ => false,
    }
}

/// The monitor.
fn has_monitor(room: &ImageBytes) -> bool {
    if room.monitors() != 1 {
        return false;
    }
    let monitor = room.monitor(0);
    monitor.base == 0 && monitor.words == 1 && monitor.ceiling == 1
}

/// The numbers of the process.
fn has_process(room: &ImageBytes) -> bool {
    if room.processes() != 1 {
        return false;
    }
    let process = room.process(0);
    let numbers = [
        process.frame,
        process.deadline,
        process.first,
        process.run,
        process.stack,
        process.start,
        process.handler,
    ];
    numbers == [100, 90, 5, 26, 3, 5, 7]
}

/// The numbers that its handler takes.
fn has_numbers(room: &ImageBytes) -> bool {
    if room.processes() != 1 {
        return false;
    }
    let mut numbers = room.process(0).numbers();
    numbers.next() == Some(1) && numbers.next() == Some(2) && numbers.is_empty()
}

/// Its trees.
fn has_process_trees(room: &ImageBytes) -> bool {
    if room.processes() != 1 {
        return false;
    }
    let process = room.process(0);
    let calls = match process.body().split_first() {
        Some((SegItem::Call(routine), _)) => routine == 0,
        _ => false,
    };
    match process.handler() {
        Some(handler) => calls && handler.split_first().is_none(),
        None => false,
    }
}

/// Its code.
fn has_code(room: &ImageBytes) -> bool {
    room.code_len() == 8
        && room.instr(1) == Instr::Push { value: 7 }
        && room.instr(5) == Instr::Call { routine: 0 }
        && room.instr(7) == Instr::End
}

fn has_parts(room: &ImageBytes) -> Result<(), Fail> {
    if has_routine(room)
        && has_routine_tree(room)
        && has_monitor(room)
        && has_process(room)
        && has_numbers(room)
        && has_process_trees(room)
        && has_code(room)
        && room.overhead() == 0
        && room.bytes().len() == 264
    {
        return Ok(());
    }
    Err(Fail::new("a part is another"))
}

#[test]
fn gives_parts_by_their_numbers(rt: HostRuntime) -> Result<(), Fail> {
    let room = load(rt.alloc(), hex::decode(rt.alloc(), ROOM)?)?;
    let held = has_parts(room.image());
    drop(room);
    held
}
