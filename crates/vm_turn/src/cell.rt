//! How a process stands after its turn.

ghost use Rattle.std.specs.Prelude.{◌≡◌, ◌<◌, ◌≤◌, ◌^◌, ℕ, length};
ghost use Rattle.vm_state.specs.declared.threads.SchedulingState.TheVariants as stand;
ghost use Rattle.vm_instructions.specs.Silent.{job_of};
ghost use Rattle.vm_state.specs.Plan.{IsOf};
ghost use Rattle.vm_stretch.specs.Stretch.{left, outcomes};
ghost use Rattle.vm_turn.specs.Own.{Around, CanCome, IsAmong, IsEarly};
ghost use Rattle.vm_turn.specs.Settled.{SettlesAs, StandsAfter};

use crate::outcome::Outcome;
use crate::own::pass_own;
use vm_state::{ControlBlock, DecodedImage, DecodedProcess, Queues, SchedulingState};

/// Lets the process stand as the outcome at the tick leaves it.
#[inline(always)]
pub fn stand_after(process: &DecodedProcess, cell: &mut ControlBlock, outcome: Outcome, tick: u64)
    requires { tick < 2 ^ 63 }
    ensures stands { StandsAfter tick process.now outcome cell.old cell.new }
    ensures room { cell.new.job.frames.room ≡ cell.old.job.frames.room }
{
    match outcome {
        Outcome::Waits(waited) => {
            cell.stand = SchedulingState::Waiting {
                condition: waited.condition,
                due: tick + u64::from(waited.limit) + 1,
                number: waited.number,
            };
        }
        Outcome::Raises(number) => cell.job.raise(&process.numbers, number, process.ends),
        Outcome::Ends => cell.stand = SchedulingState::Idle,
        _ => {}
    }
}

/// So many ticks of a process at once, the last of them this tick, up to where it stands anew.
pub fn pass_cell(
    plan: &DecodedImage,
    process: &DecodedProcess,
    cell: &mut ControlBlock,
    owned: &mut [i32],
    shared: &mut [i32],
    queues: &Queues,
    devices: &[i32],
    ticks: u32,
    tick: u64,
) -> Outcome
    ghost at: { Around }
    requires plan { IsOf at.image plan.now }
    requires owned { at.owned ≡ owned.old }
    requires shared { at.shared ≡ shared.old }
    requires words { at.shared ≡ at.state.shared }
    requires queues { at.state.queues ≡ queues.now }
    requires devices { at.state.devices ≡ devices.now }
    requires conditions { length at.image.conditions ≡ length queues.now }
    requires ready { cell.old.stand ≡ stand.Ready }
    requires fits { ticks ≤ left at.image (job_of cell.old.job) }
    requires early { IsEarly at.image (job_of cell.old.job) }
    requires can { CanCome cell.old.job.frames.room
        (outcomes at.image at.state (job_of cell.old.job) at.owned ticks cell.old.job.dispatch_ticks) }
    requires tick { tick < 2 ^ 63 }
    ensures settles { (k : ℕ) → SettlesAs at ticks tick k process.now cell.old result cell.new
        owned.new shared.new }
    ensures among { IsAmong (length queues.now) result }
    ensures room { cell.new.job.frames.room ≡ cell.old.job.frames.room }
{
    let outcome = pass_own(plan, &mut cell.job, owned, shared, queues, devices, ticks);
    stand_after(process, cell, outcome, tick);
    outcome
}
