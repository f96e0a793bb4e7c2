//! What the clock brings: releases of periodic processes, and time-outs.

ghost use Rattle.std.specs.Prelude.{◌≡◌, ◌≤◌, ◌<◌, ◌+◌, ◌*◌, ◌≢◌, false, true, length, None, Some, slice_index_or};
ghost use Rattle.arrayvec.specs.ArrayVec.{array_vec_len};
ghost use Rattle.machine_semantics.specs.Image.{Image};
ghost use Rattle.machine_semantics.specs.Starts.{periodic, time_outs};
ghost use Rattle.vm_state.specs.Cells.{OthersStay};
ghost use Rattle.vm_stretch.specs.Steps.{HasStarted, HasWaits};
ghost use Rattle.vm_state.specs.Board.{IsBoardOf, state_of};
ghost use Rattle.vm_state.specs.Plan.{IsOf};
ghost use Rattle.vm_releases.specs.Begin.{HaveQueues, MovedAt, MovedBelow, NextFits, TellAt, TellReleases, WaitsAlone, clock_at, expiry_at};
ghost use Rattle.vm_releases.specs.Order.{IsOrderOf};

use crate::order::StartOrder;
use crate::release::release;
use crate::time_out::time_out;
use vm_state::{DecodedImage, EventBuffer, MachineState, Release};
use vm_stretch::{Due, DueHeap};

/// Whether the slot is due at the tick.
#[inline(always)]
pub(crate) fn is_due(slots: &DueHeap, slot: usize, tick: u64) -> bool
    requires { slot < length slots.now }
    ensures yes { result ≡ true → slice_index_or slots.now slot None ≡ Some tick }
    ensures no { result ≡ false → slice_index_or slots.now slot None ≢ Some tick }
{
    slots.at(slot) == Some(tick)
}

/// Releases the process at this place by the clock, if its slot is due.
fn clock(
    plan: &DecodedImage,
    slots: &mut DueHeap,
    board: &mut MachineState,
    fired: &mut EventBuffer,
    place: usize,
    tick: u64,
)
    ghost image: { Image }
    requires plan { IsOf image plan.now }
    requires board { IsBoardOf image board.old }
    requires place { place < length image.processes }
    requires slots { length slots.old ≡ 2 * length image.processes + 1 }
    requires tell { TellAt image tick place slots.old }
    requires fits { NextFits image tick }
    requires calm { (clock_at image tick place (state_of board.old)).overrun ≡ false }
    requires room { array_vec_len fired.old < 65 }
    ensures started { HasStarted (clock_at image tick place) (state_of board.old) fired.old.items
        (state_of board.new) fired.new.items }
    ensures board { IsBoardOf image board.new }
    ensures moved { MovedAt image tick place slots.old slots.new }
{
    if !is_due(slots, place, tick) {
        return;
    }
    if let Release::Periodic { frame, .. } = plan.processes[place].release {
        release(plan, board, fired, place, tick);
        slots.set(place, Some(tick + frame));
    }
}

/// Releases the processes that the clock brings at the tick.
pub(crate) fn do_releases(
    plan: &DecodedImage,
    slots: &mut DueHeap,
    board: &mut MachineState,
    fired: &mut EventBuffer,
    tick: u64,
)
    ghost image: { Image }
    requires plan { IsOf image plan.now }
    requires board { IsBoardOf image board.old }
    requires slots { length slots.old ≡ 2 * length image.processes + 1 }
    requires tell { TellReleases image tick slots.old }
    requires fits { NextFits image tick }
    requires calm { (periodic image tick 0 image.processes (state_of board.old)).overrun ≡ false }
    requires room { array_vec_len fired.old +
        length (periodic image tick 0 image.processes (state_of board.old)).events ≤ 64 }
    ensures started { HasStarted (periodic image tick 0 image.processes) (state_of board.old)
        fired.old.items (state_of board.new) fired.new.items }
    ensures board { IsBoardOf image board.new }
    ensures moved { MovedBelow image tick (length image.processes) slots.old slots.new }
{
    for place in 0..plan.processes.len() {
        clock(plan, slots, board, fired, place, tick);
    }
}

/// Ends the wait of the process at this place, if its slot is due.
fn expire(
    plan: &DecodedImage,
    slots: &mut DueHeap,
    board: &mut MachineState,
    fired: &mut EventBuffer,
    place: usize,
    tick: u64,
)
    ghost image: { Image }
    requires plan { IsOf image plan.now }
    requires board { IsBoardOf image board.old }
    requires place { place < length image.processes }
    requires slots { length slots.old ≡ 2 * length image.processes + 1 }
    requires queues { HaveQueues (state_of board.old) }
    requires waits { HasWaits (length image.processes) (state_of board.old) slots.old }
    requires room { array_vec_len fired.old < 65 }
    ensures started { HasStarted (expiry_at image tick place) (state_of board.old) fired.old.items
        (state_of board.new) fired.new.items }
    ensures board { IsBoardOf image board.new }
    ensures queues { HaveQueues (state_of board.new) }
    ensures waits { HasWaits (length image.processes) (state_of board.new) slots.new }
    ensures others { OthersStay (length image.processes + place) slots.old slots.new }
    ensures count { length slots.new ≡ length slots.old }
{
    let slot = plan.processes.len() + place;
    if is_due(slots, slot, tick) {
        time_out(plan, board, fired, place, tick);
        slots.set(slot, None);
    }
}

/// Ends the waits whose time has come, in the order of ranks.
pub(crate) fn do_time_outs(
    plan: &DecodedImage,
    order: &StartOrder,
    slots: &mut DueHeap,
    board: &mut MachineState,
    fired: &mut EventBuffer,
    tick: u64,
)
    ghost image: { Image }
    requires plan { IsOf image plan.now }
    requires order { IsOrderOf image order.now }
    requires board { IsBoardOf image board.old }
    requires slots { length slots.old ≡ 2 * length image.processes + 1 }
    requires queues { HaveQueues (state_of board.old) }
    requires waits { HasWaits (length image.processes) (state_of board.old) slots.old }
    requires calm { (time_outs image tick 1 (length image.processes) (state_of board.old)).overrun ≡
        false }
    requires room { array_vec_len fired.old +
        length (time_outs image tick 1 (length image.processes) (state_of board.old)).events ≤ 64 }
    ensures started { HasStarted (time_outs image tick 1 (length image.processes))
        (state_of board.old) fired.old.items (state_of board.new) fired.new.items }
    ensures board { IsBoardOf image board.new }
    ensures queues { HaveQueues (state_of board.new) }
    ensures waits { HasWaits (length image.processes) (state_of board.new) slots.new }
    ensures others { WaitsAlone (length image.processes) slots.old slots.new }
{
    for next in &order.by_rank {
        let Some(place) = *next else {
            continue;
        };
        expire(plan, slots, board, fired, usize::from(place), tick);
    }
}
