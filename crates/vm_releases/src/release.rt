//! The release of processes.

ghost use Rattle.std.specs.Prelude.{◌≡◌, ◌<◌, ◌≤◌, ◌+◌, ◌*◌, false, length, slice_get, Some};
ghost use Rattle.arrayvec.specs.ArrayVec.{array_vec_len};
ghost use Rattle.vm_state.specs.Threads.{thread_of};
ghost use Rattle.machine_semantics.specs.Image.{Image, Process as Whole};
ghost use Rattle.machine_semantics.specs.State.{Ready};
ghost use Rattle.machine_semantics.specs.Starts.{released};
ghost use Rattle.vm_state.specs.Board.{IsBoardOf, state_of};
ghost use Rattle.vm_state.specs.Plan.{IsOf};
ghost use Rattle.vm_stretch.specs.Steps.{HasStarted, releases};
ghost use Rattle.vm_releases.specs.Begin.{AreBelow, release_at};

use base::Act;
use vm_state::{
    ControlBlock, DecodedImage, DecodedProcess, EventBuffer, MachineState, SchedulingState, tell,
};

/// An activation begins.
fn release_cell(cell: &mut ControlBlock, process: &DecodedProcess, dispatch_ticks: u32)
    requires { process.now.locals ≤ cell.old.job.frames.room }
    ensures released { (image : Image) (whole : Whole) → whole.start ≡ process.now.start →
        whole.locals ≡ process.now.locals → 2 * image.over ≡ dispatch_ticks →
        thread_of cell.new ≡ Ready (released image whole) }
    ensures room { cell.new.job.frames.room ≡ cell.old.job.frames.room }
{
    cell.stand = SchedulingState::Ready;
    cell.job
        .release(process.start, process.locals, dispatch_ticks);
}

/// Releases a process that is idle.
pub(crate) fn release(
    plan: &DecodedImage,
    board: &mut MachineState,
    fired: &mut EventBuffer,
    place: usize,
    tick: u64,
)
    ghost image: { Image }
    requires plan { IsOf image plan.now }
    requires board { IsBoardOf image board.old }
    requires place { place < length image.processes }
    requires calm { (release_at image tick place (state_of board.old)).overrun ≡ false }
    requires room { array_vec_len fired.old < 65 }
    ensures started { HasStarted (release_at image tick place) (state_of board.old) fired.old.items
        (state_of board.new) fired.new.items }
    ensures board { IsBoardOf image board.new }
{
    release_cell(
        &mut board.cells[place],
        &plan.processes[place],
        plan.dispatch_ticks,
    );
    tell(fired, tick, place as u16, Act::Release);
}

/// Releases processes one after another.
pub(crate) fn release_row(
    plan: &DecodedImage,
    row: &[u16],
    board: &mut MachineState,
    fired: &mut EventBuffer,
    tick: u64,
)
    ghost image: { Image }
    requires plan { IsOf image plan.now }
    requires board { IsBoardOf image board.old }
    requires row { AreBelow (length image.processes) row.now }
    requires calm { (releases image tick row.now (state_of board.old)).overrun ≡ false }
    requires room { array_vec_len fired.old +
        length (releases image tick row.now (state_of board.old)).events ≤ 64 }
    ensures started { HasStarted (releases image tick row.now) (state_of board.old) fired.old.items
        (state_of board.new) fired.new.items }
    ensures board { IsBoardOf image board.new }
{
    for place in row {
        release(plan, board, fired, usize::from(*place), tick);
    }
}
