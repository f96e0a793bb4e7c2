//! When waits time out, noted anew.

ghost use Rattle.std.specs.Prelude.{◌≡◌, ◌*◌, ◌+◌, false, Some, length};
ghost use Rattle.vm_state.specs.Threads.{thread_of};
ghost use Rattle.machine_semantics.specs.Image.{Image};
ghost use Rattle.vm_stretch.specs.Steps.{HasWaits};
ghost use Rattle.vm_releases.specs.Begin.{WaitsAlone};
ghost use Rattle.vm_state.specs.Board.{IsBoardOf, state_of};
ghost use Rattle.vm_state.specs.Plan.{IsOf};
ghost use Rattle.vm_stretch.specs.StretchDue.{time_out_of};
ghost use Rattle.vm_runner.specs.Waits.{is_at_queue, is_some_at_queue};

use base::{Act, Event};
use vm_releases::Timers;
use vm_state::{ControlBlock, DecodedImage, MachineState, SchedulingState};

/// The tick at which the wait of a process times out; `None` where it does not wait.
fn time_out(cell: &ControlBlock) -> Option<u64>
    ensures { result ≡ time_out_of (Some (thread_of cell.now)) }
{
    match cell.stand {
        SchedulingState::Waiting { due, .. } => Some(due),
        _ => None,
    }
}

/// Notes when the wait of each process times out.
fn note_all(plan: &DecodedImage, board: &MachineState, agenda: &mut Timers)
    ghost image: { Image }
    requires plan { IsOf image plan.now }
    requires board { IsBoardOf image board.now }
    requires slots { length agenda.old.slots ≡ 2 * length image.processes + 1 }
    ensures waits { HasWaits (length image.processes) (state_of board.now) agenda.new.slots }
    ensures others { WaitsAlone (length image.processes) agenda.old.slots agenda.new.slots }
    ensures done { agenda.new.done ≡ agenda.old.done }
    ensures order { agenda.new.order ≡ agenda.old.order }
{
    for place in 0..board.cells.len() {
        agenda.set_time_out(plan, place, time_out(&board.cells[place]));
    }
}

/// Whether a process begins to wait in the event, or others may wait no more.
#[inline(always)]
fn is_at_queue(event: &Event) -> bool
    ensures { result ≡ is_at_queue event.now.act }
{
    matches!(
        event.act,
        Act::Wait { .. } | Act::Signal { .. } | Act::Broadcast { .. }
    )
}

/// Whether one of the events is such. Of a row there is one at most, which is told without a loop.
#[inline(always)]
#[tactic(auto, using(crate::proofs::Waiting::one_at_queue))]
pub(crate) fn is_some_at_queue(events: &[Event]) -> bool
    ensures { result ≡ is_some_at_queue events.now }
{
    if events.len() == 1 {
        return is_at_queue(&events[0]);
    }
    for event in events {
        if is_at_queue(event) {
            return true;
        }
    }
    false
}

/// Notes when waits time out, where the events may have changed that.
#[inline(always)]
pub(crate) fn note_waits(
    plan: &DecodedImage,
    board: &MachineState,
    agenda: &mut Timers,
    events: &[Event],
)
    ghost image: { Image }
    requires plan { IsOf image plan.now }
    requires board { IsBoardOf image board.now }
    requires slots { length agenda.old.slots ≡ 2 * length image.processes + 1 }
    requires same { is_some_at_queue events.now ≡ false →
        HasWaits (length image.processes) (state_of board.now) agenda.old.slots }
    ensures waits { HasWaits (length image.processes) (state_of board.now) agenda.new.slots }
    ensures still { is_some_at_queue events.now ≡ false → agenda.new.slots ≡ agenda.old.slots }
    ensures others { WaitsAlone (length image.processes) agenda.old.slots agenda.new.slots }
    ensures done { agenda.new.done ≡ agenda.old.done }
    ensures order { agenda.new.order ≡ agenda.old.order }
{
    if is_some_at_queue(events) {
        note_all(plan, board, agenda);
    }
}
