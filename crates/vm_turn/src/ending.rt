//! The last tick of a row.

ghost use Rattle.std.specs.Prelude.{◌≡◌, ◌<◌, ◌≤◌, ◌^◌, ℕ, length};
ghost use Rattle.vm_state.specs.declared.threads.SchedulingState.TheVariants as stand;
ghost use Rattle.vm_instructions.specs.Silent.{own_of};
ghost use Rattle.vm_state.specs.Plan.{IsOf};
ghost use Rattle.vm_turn.specs.Own.{Around, CanCome, ComesAs, IsAmong};
ghost use Rattle.vm_turn.specs.Rows.{EndsAs, IsSeenAt, outcome_of};

use crate::cell::stand_after;
use crate::outcome::Outcome;
use crate::own::fetch;
use crate::visible_steps::see;
use vm_instructions::{Activation, Halt};
use vm_state::{ControlBlock, DecodedImage, DecodedProcess, Queues};

/// What the row comes to in its last tick, as far as the process's own goes.
#[inline(always)]
fn end_own(
    plan: &DecodedImage,
    job: &mut Activation,
    queues: &Queues,
    devices: &[i32],
    halt: Halt,
) -> Outcome
    ghost at: { Around }
    requires plan { IsOf at.image plan.now }
    requires queues { at.state.queues ≡ queues.now }
    requires devices { at.state.devices ≡ devices.now }
    requires conditions { length at.image.conditions ≡ length queues.now }
    requires seen { IsSeenAt at.image halt job.old.place }
    requires can { CanCome job.old.frames.room
        (outcome_of at.image at.state halt (own_of job.old at.owned at.shared)) }
    ensures comes { ComesAs (outcome_of at.image at.state halt (own_of job.old at.owned at.shared))
        (own_of job.old at.owned at.shared) result (own_of job.new at.owned at.shared) }
    ensures among { IsAmong (length queues.now) result }
    ensures room { job.new.frames.room ≡ job.old.frames.room }
{
    match halt {
        Halt::Spent => Outcome::Goes,
        Halt::Raises { number, .. } => Outcome::Raises(number),
        Halt::Sees { .. } => {
            let instr = fetch(&plan.code, job.place - 1);
            see(job, queues, devices, instr)
        }
    }
}

/// The last tick of a row, up to where its process stands anew.
#[inline(always)]
pub fn end_cell(
    plan: &DecodedImage,
    process: &DecodedProcess,
    cell: &mut ControlBlock,
    queues: &Queues,
    devices: &[i32],
    halt: Halt,
    tick: u64,
) -> Outcome
    ghost at: { Around }
    requires plan { IsOf at.image plan.now }
    requires queues { at.state.queues ≡ queues.now }
    requires devices { at.state.devices ≡ devices.now }
    requires conditions { length at.image.conditions ≡ length queues.now }
    requires ready { cell.old.stand ≡ stand.Ready }
    requires seen { IsSeenAt at.image halt cell.old.job.place }
    requires can { CanCome cell.old.job.frames.room
        (outcome_of at.image at.state halt (own_of cell.old.job at.owned at.shared)) }
    requires tick { tick < 2 ^ 63 }
    ensures ends { (k : ℕ) → EndsAs at tick k process.now cell.old halt result cell.new }
    ensures among { IsAmong (length queues.now) result }
    ensures room { cell.new.job.frames.room ≡ cell.old.job.frames.room }
{
    let outcome = end_own(plan, &mut cell.job, queues, devices, halt);
    stand_after(process, cell, outcome, tick);
    outcome
}
