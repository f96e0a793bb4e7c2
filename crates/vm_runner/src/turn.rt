//! A turn, once the start events of its tick are done.

ghost use Rattle.std.specs.Prelude.{◌≡◌, ◌≤◌, ◌<◌, ◌+◌, false, Some, drop, length, slice_get, vec_len};
ghost use Rattle.arrayvec.specs.ArrayVec.{array_vec_len};
ghost use Rattle.vm_state.specs.Board.{IsBoardOf, state_of};
ghost use Rattle.vm_stretch.specs.StretchDue.{HasSlots, NoneBefore};
ghost use Rattle.vm_stretch.specs.Stretch.{FitsIn};
ghost use Rattle.vm_runner.specs.Course.{Course};
ghost use Rattle.vm_runner.specs.Ends.{lasts_thread};
ghost use Rattle.vm_runner.specs.Turn.{BurnsNothing, CanTurn, HasPassed, unspent};
ghost use Rattle.vm_runner.specs.Waits.{is_some_at_queue};

use crate::waits::note_waits;
use vm_instructions::Halt;
use vm_releases::Timers;
use vm_state::{DecodedImage, EventBuffer, MachineState};
use vm_turn::{end_row, left, pass, run_row};

/// How far a call goes.
#[derive(Clone, Copy)]
pub(crate) enum Reach {
    /// To the end of what the process that is chosen is at.
    Turn,
    /// Over a whole row of instructions that nobody sees.
    Row,
}

/// The ticks left of what the process that is chosen is at, or as many as are asked for.
fn ticks_left(plan: &DecodedImage, board: &MachineState, who: usize, tick: u64, most: u64) -> u32
    ghost course: { Course }
    requires can { CanTurn course tick most who plan.now board.now }
    ensures fits { FitsIn course.image result (state_of board.now) (Some who) }
    ensures some { 1 ≤ result }
    ensures most { result ≤ most }
    ensures lasts { result ≡ lasts_thread course.image most
        (slice_get (state_of board.now).threads who) }
{
    most.min(u64::from(left(plan, board, who))) as u32
}

/// Ticks at once of what the process that is chosen is at, so many at most: how many passed.
fn pass_one(
    plan: &DecodedImage,
    board: &mut MachineState,
    who: usize,
    tick: u64,
    most: u64,
    fired: &mut EventBuffer,
) -> u64
    ghost course: { Course }
    requires can { CanTurn course tick most who plan.now board.old }
    requires room { array_vec_len fired.old < 65 }
    ensures passed { HasPassed course tick result
        (state_of board.new) fired.old.items fired.new.items }
    ensures most { result ≤ most }
    ensures board { IsBoardOf course.image board.new }
    ensures lasts { result ≡ lasts_thread course.image most
        (slice_get (state_of board.old).threads who) }
{
    let ticks = ticks_left(plan, board, who, tick, most);
    pass(plan, board, who, tick, ticks, fired);
    u64::from(ticks)
}

/// The ticks that a row left of those that it had.
#[inline(always)]
fn unspent(halt: Halt) -> u64
    ensures { result ≡ unspent halt }
{
    match halt {
        Halt::Spent => 0,
        Halt::Raises { left, .. } | Halt::Sees { left } => left,
    }
}

/// A row of instructions of the process that is chosen, so many ticks at most: how many passed.
#[inline(always)]
fn pass_row(
    plan: &DecodedImage,
    board: &mut MachineState,
    who: usize,
    tick: u64,
    most: u64,
    fired: &mut EventBuffer,
) -> u64
    ghost course: { Course }
    requires can { CanTurn course tick most who plan.now board.old }
    requires burnt { BurnsNothing (state_of board.old) who }
    requires room { array_vec_len fired.old < 65 }
    ensures passed { HasPassed course tick result
        (state_of board.new) fired.old.items fired.new.items }
    ensures most { result ≤ most }
    ensures board { IsBoardOf course.image board.new }
{
    let halt = run_row(plan, board, who, most);
    let ticks = most - unspent(halt);
    end_row(plan, board, who, halt, tick + (ticks - 1), fired);
    ticks
}

/// Whether a process has ticks of dispatch to burn.
#[inline(always)]
fn burns(board: &MachineState, who: usize) -> bool
    requires { who < vec_len board.now.cells }
    ensures { result ≡ false → BurnsNothing (state_of board.now) who }
{
    board.cells[who].job.dispatch_ticks > 0
}

/// Ticks of the process that is chosen, so many at most: how many passed.
#[inline(always)]
fn pass_chosen(
    plan: &DecodedImage,
    board: &mut MachineState,
    who: usize,
    tick: u64,
    most: u64,
    fired: &mut EventBuffer,
) -> u64
    ghost course: { Course }
    requires can { CanTurn course tick most who plan.now board.old }
    requires room { array_vec_len fired.old < 65 }
    ensures passed { HasPassed course tick result
        (state_of board.new) fired.old.items fired.new.items }
    ensures most { result ≤ most }
    ensures board { IsBoardOf course.image board.new }
{
    if burns(board, who) {
        return pass_one(plan, board, who, tick, most, fired);
    }
    pass_row(plan, board, who, tick, most, fired)
}

/// Ticks of the process that is chosen, so many at most, as far as the call goes: how many passed.
#[inline(always)]
fn pass_ticks(
    plan: &DecodedImage,
    board: &mut MachineState,
    who: usize,
    tick: u64,
    most: u64,
    fired: &mut EventBuffer,
    reach: Reach,
) -> u64
    ghost course: { Course }
    requires can { CanTurn course tick most who plan.now board.old }
    requires room { array_vec_len fired.old < 65 }
    ensures passed { HasPassed course tick result
        (state_of board.new) fired.old.items fired.new.items }
    ensures most { result ≤ most }
    ensures board { IsBoardOf course.image board.new }
    ensures lasts { reach ≡ Reach.Turn → result ≡ lasts_thread course.image most
        (slice_get (state_of board.old).threads who) }
{
    match reach {
        Reach::Turn => pass_one(plan, board, who, tick, most, fired),
        Reach::Row => pass_chosen(plan, board, who, tick, most, fired),
    }
}

/// Ticks of the process that is chosen, so many at most, in which nothing is due, as far as the
/// call goes: how many passed. When waits time out is noted anew.
#[inline(always)]
pub(crate) fn take_ticks(
    plan: &DecodedImage,
    board: &mut MachineState,
    agenda: &mut Timers,
    fired: &mut EventBuffer,
    who: usize,
    tick: u64,
    most: u64,
    reach: Reach,
) -> u64
    ghost course: { Course }
    requires can { CanTurn course tick most who plan.now board.old }
    requires room { array_vec_len fired.old < 65 }
    requires slots { HasSlots course.image course.script tick agenda.old.done
        (state_of board.old) agenda.old.slots }
    requires clear { NoneBefore (tick + most) agenda.old.slots }
    ensures passed { HasPassed course tick result
        (state_of board.new) fired.old.items fired.new.items }
    ensures most { result ≤ most }
    ensures board { IsBoardOf course.image board.new }
    ensures slots { HasSlots course.image course.script tick agenda.new.done
        (state_of board.new) agenda.new.slots }
    ensures clear { NoneBefore (tick + result) agenda.new.slots }
    ensures still { is_some_at_queue (drop (length fired.old.items) fired.new.items) ≡ false →
        agenda.new.slots ≡ agenda.old.slots }
    ensures done { agenda.new.done ≡ agenda.old.done }
    ensures order { agenda.new.order ≡ agenda.old.order }
    ensures lasts { reach ≡ Reach.Turn → result ≡ lasts_thread course.image most
        (slice_get (state_of board.old).threads who) }
{
    let before = fired.len();
    let ticks = pass_ticks(plan, board, who, tick, most, fired, reach);
    note_waits(plan, board, agenda, &fired.as_slice()[before..]);
    ticks
}
