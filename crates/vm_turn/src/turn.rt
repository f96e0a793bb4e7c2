//! A turn of one process of many.

ghost use Rattle.std.specs.Prelude.{◌≡◌, ◌<◌, ◌≤◌, ◌+◌, ◌-◌, ◌++◌, ◌^◌, Some, length, vec_len};
ghost use Rattle.arrayvec.specs.ArrayVec.{array_vec_len};
ghost use Rattle.machine_semantics.specs.Image.{Image};
ghost use Rattle.vm_stretch.specs.Stretch.{pass as passes};
ghost use Rattle.machine_semantics.specs.Queues.{AreQueued};
ghost use Rattle.vm_state.specs.Plan.{IsOf};
ghost use Rattle.vm_state.specs.Board.{IsBoardOf, state_of};
ghost use Rattle.vm_turn.specs.Own.{Around, IsAmong};
ghost use Rattle.vm_turn.specs.Settled.{CanPass, HasTurned, HaveRoom, IsAround, after};

use crate::cell::pass_cell;
use crate::outcome::Outcome;
use base::Act;
use vm_state::{DecodedImage, EventBuffer, MachineState, broadcast, signal, tell};

/// So many ticks of a process at once, the last of them this tick, up to where it stands anew.
fn turn(plan: &DecodedImage, board: &mut MachineState, who: usize, ticks: u32, tick: u64) -> Outcome
    ghost at: { Around }
    requires plan { IsOf at.image plan.now }
    requires board { IsBoardOf at.image board.old }
    requires at { IsAround at who board.old }
    requires can { CanPass at.image ticks who (state_of board.old) }
    requires tick { tick < 2 ^ 63 }
    ensures turned { HasTurned at.image tick ticks who (state_of board.old) result
        (state_of board.new) }
    ensures among { IsAmong (length board.old.queues) result }
    ensures kept { IsBoardOf at.image board.new }
    ensures queues { board.new.queues ≡ board.old.queues }
    ensures len { vec_len board.new.cells ≡ vec_len board.old.cells }
{
    let process = &plan.processes[who];
    let cell = &mut board.cells[who];
    let owned = &mut board.owned[who];
    pass_cell(
        plan,
        process,
        cell,
        owned,
        &mut board.shared,
        &board.queues,
        &board.devices,
        ticks,
        tick,
    )
}

/// Does what is left to do once a process stands as its turn leaves it: wakes others, joins it to a
/// queue, and tells its event at the tick.
#[inline(always)]
pub fn tell_after(
    plan: &DecodedImage,
    board: &mut MachineState,
    who: u16,
    outcome: Outcome,
    tick: u64,
    fired: &mut EventBuffer,
)
    ghost image: { Image }
    requires plan { IsOf image plan.now }
    requires board { IsBoardOf image board.old }
    requires among { IsAmong (length board.old.queues) outcome }
    requires queues { HaveRoom (vec_len board.old.cells) board.old.queues }
    requires fired { array_vec_len fired.old < 65 }
    ensures state { state_of board.new ≡ (after image tick who outcome (state_of board.old)).state }
    ensures events { fired.new.items ≡ fired.old.items ++
        (after image tick who outcome (state_of board.old)).events }
    ensures len { array_vec_len fired.new ≤ array_vec_len fired.old + 1 }
    ensures kept { IsBoardOf image board.new }
{
    match outcome {
        Outcome::Goes => {}
        Outcome::Does(act) => tell(fired, tick, who, act),
        Outcome::Signals { condition } => {
            let woken = signal(
                &mut board.cells,
                &mut board.queues,
                usize::from(condition),
                plan.dispatch_ticks,
            );
            let act = Act::Signal {
                cond: condition,
                woken,
            };
            tell(fired, tick, who, act);
        }
        Outcome::Broadcasts { condition } => {
            let count = broadcast(
                &mut board.cells,
                &mut board.queues,
                usize::from(condition),
                plan.dispatch_ticks,
            );
            let act = Act::Broadcast {
                cond: condition,
                count,
            };
            tell(fired, tick, who, act);
        }
        Outcome::Waits(waited) => {
            board.queues.join(usize::from(waited.condition), who);
            let act = Act::Wait {
                cond: waited.condition,
            };
            tell(fired, tick, who, act);
        }
        Outcome::Raises(number) => tell(fired, tick, who, Act::Raise { number }),
        Outcome::Ends => tell(fired, tick, who, Act::End),
    }
}

/// So many ticks at once from a tick on, whose start events are done, of the process that is
/// picked, which has no fewer left of what it is at: the state after them, and their event, if
/// they have one, which falls at the last of them.
pub fn pass(
    plan: &DecodedImage,
    board: &mut MachineState,
    who: usize,
    tick: u64,
    ticks: u32,
    fired: &mut EventBuffer,
)
    ghost image: { Image }
    requires plan { IsOf image plan.now }
    requires board { IsBoardOf image board.old }
    requires queues { AreQueued (state_of board.old) }
    requires can { CanPass image ticks who (state_of board.old) }
    requires tick { tick + ticks < 2 ^ 63 }
    requires fired { array_vec_len fired.old < 65 }
    ensures state { state_of board.new ≡ (passes image tick ticks (state_of board.old)
        (Some who)).state }
    ensures events { fired.new.items ≡ fired.old.items ++
        (passes image tick ticks (state_of board.old) (Some who)).events }
    ensures len { array_vec_len fired.new ≤ array_vec_len fired.old + 1 }
    ensures kept { IsBoardOf image board.new }
{
    let last = tick + u64::from(ticks - 1);
    let outcome = turn(plan, board, who, ticks, last);
    tell_after(plan, board, who as u16, outcome, last, fired);
}
