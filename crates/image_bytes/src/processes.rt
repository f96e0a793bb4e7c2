//! Processes.

ghost use Rattle.std.specs.Prelude.{◌≡◌, ◌<◌, ◌^◌, length, true};
ghost use Rattle.image.specs.Raw.{process_of};
ghost use Rattle.image_bytes.specs.Reads.{FitsWhereThere, ProcessIsRead};
ghost use Rattle.image_bytes.specs.Fields.{are_short, five_fields, release_fields};
ghost use Rattle.valid_image.specs.Valid.{HasHandler};

use image::RawProcess;
use image_format::SegTree;

/// When it is released, within what it has to end, and its rank.
fn release_fits(process: &RawProcess)
    ensures { release_fields.is (
      process.now.kind,
      (
        process.now.frame,
        (
          process.now.deadline,
          (process.now.first, (process.now.event, process.now.rank)),
        ),
      ),
    ) ≡ true }
{
    let _kind = process.kind;
    let _frame = process.frame;
    let _deadline = process.deadline;
    let _first = process.first;
    let _event = process.event;
    let _rank = process.rank;
}

/// What it takes of time.
fn time_fits(process: &RawProcess)
    ensures { five_fields.is (
      process.now.run,
      (process.now.susp, (process.now.waits, (process.now.block, process.now.bound))),
    ) ≡ true }
{
    let _run = process.run;
    let _susp = process.susp;
    let _waits = process.waits;
    let _block = process.block;
    let _bound = process.bound;
}

/// What it takes of memory, and where its body and its handler stand.
fn room_fits(process: &RawProcess)
    ensures { five_fields.is (
      process.now.words,
      (process.now.stack, (process.now.locals, (process.now.start, process.now.handler))),
    ) ≡ true }
{
    let _words = process.words;
    let _stack = process.stack;
    let _locals = process.locals;
    let _start = process.start;
    let _handler = process.handler;
}

/// Each number fits two bytes.
fn numbers_fit(numbers: &[u16])
    ensures { are_short numbers.now ≡ true }
{
    let _first = numbers.first();
}

/// The tree of a handler fits, where there is one.
fn handler_tree_fits(tree: &Option<SegTree>)
    ensures { FitsWhereThere tree.now }
{
    if let Some(tree) = tree {
        tree.can_be_read();
    }
}

/// The bytes of a process are read as it is. The call does nothing.
pub fn process_is_read(process: &RawProcess)
    requires handler { HasHandler (process_of process.now) process.now.handler_tree }
    requires few { length process.now.numbers < 2 ^ 16 }
    ensures { ProcessIsRead (process_of process.now) }
{
    release_fits(process);
    time_fits(process);
    room_fits(process);
    numbers_fit(process.numbers.as_slice());
    process.body.can_be_read();
    handler_tree_fits(&process.handler_tree);
}
