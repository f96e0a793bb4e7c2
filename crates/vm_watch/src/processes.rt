//! Processes.

ghost use Rattle.std.specs.Prelude.{◌≡◌, ◌<◌, Some, length, slice_get, vec_len};
ghost use Rattle.machine_semantics.specs.Image.{Image};
ghost use Rattle.machine_semantics.specs.Run.{state_at};
ghost use Rattle.vm_runner.specs.Standing.{StandsIn};
ghost use Rattle.vm_runner.specs.Turn.{Run};
ghost use Rattle.vm_state.specs.Board.{state_of};
ghost use Rattle.vm_state.specs.Plan.{IsOf};
ghost use Rattle.vm_stretch.specs.View.{process_words, view_of};

use vm_runner::{Machine, Ranking};
use vm_state::{DecodedImage, MachineState, SchedulingState};
use vm_stretch::View;
use vm_turn::left;

/// How a process of the board stands.
fn view_on(plan: &DecodedImage, board: &MachineState, process: usize) -> View
    ghost image: { Image }
    requires plan { IsOf image plan.now }
    requires process { process < vec_len board.now.cells }
    ensures { result ≡ view_of image (state_of board.now) process }
{
    let cell = &board.cells[process];
    match cell.stand {
        SchedulingState::Idle => View::Idle,
        SchedulingState::Ready => View::Ready {
            at: cell.job.place,
            left: left(plan, board, process),
            inside: cell.job.inside,
        },
        SchedulingState::Waiting { condition, due, .. } => View::Waiting { condition, due },
    }
}

/// How a process stands.
pub fn view(plan: &DecodedImage, machine: &Machine<Ranking>, process: usize) -> View
    ghost run: { Run }
    requires plan { IsOf run.image plan.now }
    requires stands { StandsIn run.image run.script machine.now }
    requires process { process < length run.image.processes }
    ensures { result ≡
        view_of run.image (state_at run.image run.script machine.now.tick) process }
{
    view_on(plan, machine.board(), process)
}

/// A word of a process of the board.
fn word_on(board: &MachineState, process: usize, word: usize) -> i32
    requires { word < length (process_words (state_of board.now) process) }
    ensures { slice_get (process_words (state_of board.now) process) word ≡ Some result }
{
    board.owned[process][word]
}

/// The word with this number, from 0, of those that a process keeps.
pub fn word(machine: &Machine<Ranking>, process: usize, word: usize) -> i32
    ghost run: { Run }
    requires stands { StandsIn run.image run.script machine.now }
    requires word { word <
        length (process_words (state_at run.image run.script machine.now.tick) process) }
    ensures { slice_get
        (process_words (state_at run.image run.script machine.now.tick) process) word ≡
        Some result }
{
    word_on(machine.board(), process, word)
}
