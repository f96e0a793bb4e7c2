//! A row of instructions of one process of many.

ghost use Rattle.std.specs.Prelude.{◌≡◌, ◌<◌, ◌≤◌, ◌+◌, ◌^◌, length, vec_len};
ghost use Rattle.machine_semantics.specs.Image.{Image};
ghost use Rattle.vm_instructions.specs.Rows.{Runs};
ghost use Rattle.vm_instructions.specs.Silent.{own_of};
ghost use Rattle.vm_stretch.specs.Silent.{IsSafeFor};
ghost use Rattle.vm_state.specs.Plan.{IsOf};
ghost use Rattle.vm_state.specs.Board.{IsBoardOf, state_of};
ghost use Rattle.arrayvec.specs.ArrayVec.{array_vec_len};
ghost use Rattle.machine_semantics.specs.Queues.{AreQueued};
ghost use Rattle.vm_turn.specs.Own.{Around, IsAmong};
ghost use Rattle.vm_turn.specs.Settled.{IsAround};
ghost use Rattle.vm_turn.specs.Rows.{CanEnd, CanRun, EndsIn, HasEnded, HasRun};

use crate::ending::end_cell;
use crate::outcome::Outcome;
use crate::turn::tell_after;
use vm_instructions::{Halt, run};
use vm_state::{ControlBlock, DecodedImage, EventBuffer, MachineState};

/// Runs a process for so many ticks, up to an instruction that others see or an exception.
#[inline(always)]
fn run_cell(
    plan: &DecodedImage,
    cell: &mut ControlBlock,
    owned: &mut [i32],
    shared: &mut [i32],
    budget: u64,
) -> Halt
    ghost image: { Image }
    requires plan { IsOf image plan.now }
    requires safe { IsSafeFor image cell.old.job.frames.room
        (own_of cell.old.job owned.old shared.old) budget }
    ensures runs { Runs image (own_of cell.old.job owned.old shared.old) budget result
        (own_of cell.new.job owned.new shared.new) }
    ensures stand { cell.new.stand ≡ cell.old.stand }
    ensures room { cell.new.job.frames.room ≡ cell.old.job.frames.room }
{
    run(
        &plan.code,
        &plan.routines,
        &mut cell.job,
        owned,
        shared,
        budget,
    )
}

/// Runs a process that is picked, and that burns no ticks, for so many ticks, up to an instruction
/// that others see or an exception; all else stays as it was.
#[inline(always)]
pub fn run_row(plan: &DecodedImage, board: &mut MachineState, who: usize, budget: u64) -> Halt
    ghost image: { Image }
    requires plan { IsOf image plan.now }
    requires board { IsBoardOf image board.old }
    requires can { CanRun image budget who (state_of board.old) }
    ensures ran { HasRun image budget who (state_of board.old) result (state_of board.new) }
    ensures kept { IsBoardOf image board.new }
    ensures queues { board.new.queues ≡ board.old.queues }
    ensures len { vec_len board.new.cells ≡ vec_len board.old.cells }
{
    let cell = &mut board.cells[who];
    let owned = &mut board.owned[who];
    run_cell(plan, cell, owned, &mut board.shared, budget)
}

/// The last tick of a row, up to where its process stands anew.
#[inline(always)]
fn end_turn(
    plan: &DecodedImage,
    board: &mut MachineState,
    who: usize,
    halt: Halt,
    tick: u64,
) -> Outcome
    ghost at: { Around }
    requires plan { IsOf at.image plan.now }
    requires board { IsBoardOf at.image board.old }
    requires at { IsAround at who board.old }
    requires can { CanEnd at.image who (state_of board.old) halt }
    requires tick { tick < 2 ^ 63 }
    ensures ended { HasEnded at.image tick who (state_of board.old) halt result
        (state_of board.new) }
    ensures among { IsAmong (length board.old.queues) result }
    ensures kept { IsBoardOf at.image board.new }
    ensures queues { board.new.queues ≡ board.old.queues }
    ensures len { vec_len board.new.cells ≡ vec_len board.old.cells }
{
    let process = &plan.processes[who];
    let cell = &mut board.cells[who];
    end_cell(
        plan,
        process,
        cell,
        &board.queues,
        &board.devices,
        halt,
        tick,
    )
}

/// Does what a row halted at, in the last of the ticks that passed: the instruction that others
/// see, or the raise.
#[inline(always)]
pub fn end_row(
    plan: &DecodedImage,
    board: &mut MachineState,
    who: usize,
    halt: Halt,
    tick: u64,
    fired: &mut EventBuffer,
)
    ghost image: { Image }
    requires plan { IsOf image plan.now }
    requires board { IsBoardOf image board.old }
    requires queues { AreQueued (state_of board.old) }
    requires can { CanEnd image who (state_of board.old) halt }
    requires tick { tick < 2 ^ 63 }
    requires fired { array_vec_len fired.old < 65 }
    ensures ends { EndsIn image tick who (state_of board.old) halt
        (state_of board.new) fired.old.items fired.new.items }
    ensures len { array_vec_len fired.new ≤ array_vec_len fired.old + 1 }
    ensures kept { IsBoardOf image board.new }
{
    let outcome = end_turn(plan, board, who, halt, tick);
    tell_after(plan, board, who as u16, outcome, tick, fired);
}
