//! Places after routines and processes.

ghost use Rattle.std.specs.Prelude.{◌≡◌, ◌+◌, ◌++◌, length};
ghost use Rattle.image_format.specs.TreeBytes.{tree_bytes};
ghost use Rattle.image.specs.Bytes.{handler_bytes, routine_bytes};
ghost use Rattle.image.specs.Raw.{process_of, routine_of};
ghost use Rattle.image_bytes.specs.Reads.{numbered_bytes};
ghost use Rattle.image_bytes.specs.Placing.{HasEnd};

use image::{RawProcess, RawRoutine};

/// So many bytes of a routine stand before its tree.
const ROUTINE_NUMBERS: usize = 30;

/// So many bytes of a process stand between its name and the numbers that its handler takes.
const PROCESS_NUMBERS: usize = 59;

/// The place after a routine.
pub(crate) fn after_routine(start: usize, routine: &RawRoutine) -> usize
    requires { HasEnd start (routine_bytes (routine_of routine.now)) }
    ensures { result ≡ start + length (routine_bytes (routine_of routine.now)) }
{
    start + ROUTINE_NUMBERS + routine.tree.bytes().len()
}

/// How many bytes the tree of a handler has, which stands only where there are numbers that the
/// handler takes.
fn handler_len(process: &RawProcess) -> usize
    ensures { result ≡
        length (handler_bytes process.now.numbers (process_of process.now).handler_tree) }
{
    match &process.handler_tree {
        Some(tree) if !process.numbers.is_empty() => tree.bytes().len(),
        _ => 0,
    }
}

/// The place after a process, from the place after its name.
pub(crate) fn after_process(start: usize, process: &RawProcess) -> usize
    requires { HasEnd start (numbered_bytes (process_of process.now)) }
    ensures { result ≡ start + length (numbered_bytes (process_of process.now)) }
{
    let body = start + PROCESS_NUMBERS + 2 * process.numbers.len();
    body + process.body.bytes().len() + handler_len(process)
}
