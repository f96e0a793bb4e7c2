//! The letter of a process in a turn.

ghost use Rattle.std.specs.Prelude.{◌≡◌, ◌<◌, Some, vec_len};
ghost use Rattle.machine_semantics.specs.Image.{Image};
ghost use Rattle.machine_semantics.specs.Tick.{pick};
ghost use Rattle.run_chart.specs.Letters.{is_picked, letter_in, letter_of};
ghost use Rattle.vm_state.specs.Board.{state_of};
ghost use Rattle.vm_state.specs.Threads.{thread_of};
ghost use Rattle.vm_stretch.specs.Stretch.{place_of};

use run_chart::{Letter, letter_of_picked};
use vm_state::{ControlBlock, MachineState, SchedulingState};

/// The letter of a process that stands so, and is picked or not.
fn letter_of(cell: &ControlBlock, picked: bool) -> Letter
    ensures { result ≡ letter_of (Some (thread_of cell.now)) picked }
{
    match cell.stand {
        SchedulingState::Idle => Letter::Blank,
        SchedulingState::Waiting { .. } => Letter::Waits,
        SchedulingState::Ready if picked => {
            letter_of_picked(cell.job.dispatch_ticks, cell.job.inside)
        }
        SchedulingState::Ready => Letter::HeldUp,
    }
}

/// Whether a process is the one that is picked.
fn is_picked(picked: Option<usize>, process: usize) -> bool
    ensures { result ≡ is_picked picked process }
{
    match picked {
        Some(place) => place == process,
        None => false,
    }
}

/// The letter of a process of the board, after the start events of a tick, where this process is
/// picked, if any.
pub(crate) fn letter_on(board: &MachineState, picked: Option<usize>, process: usize) -> Letter
    ghost image: { Image }
    requires picked { picked ≡ place_of (pick image (state_of board.now).threads) }
    requires process { process < vec_len board.now.cells }
    ensures { result ≡ letter_in image (state_of board.now) process }
{
    letter_of(&board.cells[process], is_picked(picked, process))
}
