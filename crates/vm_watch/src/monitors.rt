//! Monitors.

ghost use Rattle.std.specs.Prelude.{◌≡◌, ◌<◌, ◌↔◌, true, None, Some, length, slice_get};
ghost use Rattle.std.specs.List.{position};
ghost use Rattle.machine_semantics.specs.Run.{state_at};
ghost use Rattle.machine_semantics.specs.State.{is_free, thread_inside};
ghost use Rattle.vm_state.specs.Threads.{thread_of};
ghost use Rattle.vm_runner.specs.Standing.{StandsIn};
ghost use Rattle.vm_runner.specs.Turn.{Run};
ghost use Rattle.vm_state.specs.Board.{state_of};
ghost use Rattle.vm_stretch.specs.View.{monitor_words, occupant as occupant_of};

use image_bytes::ImageBytes;
use vm_runner::{Machine, Ranking};
use vm_state::{ControlBlock, MachineState, SchedulingState};

/// Whether a process is inside a monitor.
fn is_inside(cell: &ControlBlock, monitor: u16) -> bool
    ensures { result ≡ thread_inside monitor (thread_of cell.now) }
{
    match cell.stand {
        SchedulingState::Idle => false,
        SchedulingState::Ready | SchedulingState::Waiting { .. } => cell.job.inside
            == Some(monitor),
    }
}

/// The first of the processes that is inside a monitor.
fn first_inside(cells: &[ControlBlock], monitor: u16) -> Option<usize>
    ensures { result ≡ position (λ cell. thread_inside monitor (thread_of cell)) cells.now }
{
    cells.iter().position(|cell| is_inside(cell, monitor))
}

/// The process of the board that is inside a monitor.
fn occupant_on(board: &MachineState, monitor: u16) -> Option<usize>
    ensures { result ≡ occupant_of (state_of board.now) monitor }
{
    first_inside(&board.cells, monitor)
}

/// The process that is inside a monitor; `None` exactly where the monitor is free.
pub fn occupant(machine: &Machine<Ranking>, monitor: u16) -> Option<usize>
    ghost run: { Run }
    requires { StandsIn run.image run.script machine.now }
    ensures occupant { result ≡
        occupant_of (state_at run.image run.script machine.now.tick) monitor }
    ensures free { (result ≡ None) ↔
        (is_free monitor (state_at run.image run.script machine.now.tick).threads ≡ true) }
{
    occupant_on(machine.board(), monitor)
}

/// A word of a monitor on the board.
fn monitor_word_on(image: &ImageBytes, board: &MachineState, monitor: u16, word: usize) -> i32
    requires { word <
        length (monitor_words image.now.image (state_of board.now) monitor) }
    ensures { slice_get
        (monitor_words image.now.image (state_of board.now) monitor) word ≡ Some result }
{
    let base = image.monitor(monitor).base as usize;
    board.shared[base + word]
}

/// The word with this number, from 0, of those of a monitor.
pub fn monitor_word(
    image: &ImageBytes,
    machine: &Machine<Ranking>,
    monitor: u16,
    word: usize,
) -> i32
    ghost run: { Run }
    requires image { run.image ≡ image.now.image }
    requires stands { StandsIn run.image run.script machine.now }
    requires word { word < length (monitor_words run.image
        (state_at run.image run.script machine.now.tick) monitor) }
    ensures { slice_get (monitor_words run.image
        (state_at run.image run.script machine.now.tick) monitor) word ≡ Some result }
{
    monitor_word_on(image, machine.board(), monitor, word)
}
