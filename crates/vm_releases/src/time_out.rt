//! The time-out of a wait.

ghost use Rattle.std.specs.Prelude.{◌≡◌, ◌<◌, ◌≤◌, ◌+◌, ◌*◌, length, slice_get, Some};
ghost use Rattle.arrayvec.specs.ArrayVec.{array_vec_len};
ghost use Rattle.vm_state.specs.Threads.{thread_of};
ghost use Rattle.machine_semantics.specs.Image.{Image, Process as Whole};
ghost use Rattle.vm_state.specs.Board.{IsBoardOf, state_of};
ghost use Rattle.vm_state.specs.Plan.{IsOf, IsProcess};
ghost use Rattle.vm_stretch.specs.Steps.{HasStarted};
ghost use Rattle.vm_releases.specs.Begin.{HaveQueues, IsExpired, expiry_at};
ghost use Rattle.vm_releases.specs.Expired.{IsTimedOut};

use base::Act;
use vm_state::{
    ControlBlock, DecodedImage, DecodedProcess, EventBuffer, MachineState, SchedulingState, tell,
};

/// What a process waited for, and the number that is raised.
#[derive(Clone, Copy)]
pub(crate) struct Wait {
    condition: u16,
    number: u16,
}

/// The wait of the process ends: its number is raised.
fn time_out_cell(
    cell: &mut ControlBlock,
    process: &DecodedProcess,
    dispatch_ticks: u32,
) -> Option<Wait>
    ensures timed_out { IsTimedOut process.now dispatch_ticks cell.old result cell.new }
    ensures room { cell.new.job.frames.room ≡ cell.old.job.frames.room }
{
    let SchedulingState::Waiting {
        condition,
        number,
        ..
    } = cell.stand
    else {
        return None;
    };
    cell.stand = SchedulingState::Ready;
    cell.job
        .raise(process.numbers.as_slice(), number, process.ends);
    cell.job.dispatch_ticks = dispatch_ticks;
    Some(Wait { condition, number })
}

/// Ends the wait of a process, whose time has come.
pub(crate) fn time_out(
    plan: &DecodedImage,
    board: &mut MachineState,
    fired: &mut EventBuffer,
    place: usize,
    tick: u64,
)
    ghost image: { Image }
    requires plan { IsOf image plan.now }
    requires board { IsBoardOf image board.old }
    requires place { place < length image.processes }
    requires queues { HaveQueues (state_of board.old) }
    requires expired { IsExpired tick place (state_of board.old) }
    requires room { array_vec_len fired.old < 65 }
    ensures started { HasStarted (expiry_at image tick place) (state_of board.old) fired.old.items
        (state_of board.new) fired.new.items }
    ensures board { IsBoardOf image board.new }
{
    let waited = time_out_cell(
        &mut board.cells[place],
        &plan.processes[place],
        plan.dispatch_ticks,
    );
    if let Some(Wait { condition, number }) = waited {
        board.queues.leave(usize::from(condition), place as u16);
        let act = Act::TimeOut {
            cond: condition,
            number,
        };
        tell(fired, tick, place as u16, act);
    }
}
