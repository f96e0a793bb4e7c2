//! The ticks of a process, as far as its own goes.

ghost use Rattle.std.specs.Prelude.{◌≡◌, ◌<◌, ◌≤◌, ◌-◌, length, slice_get, Some};
ghost use Rattle.machine_isa.specs.Ticks.{ticks as ticks_of};
ghost use Rattle.machine_semantics.specs.Effect.{effect};
ghost use Rattle.vm_instructions.specs.Silent.{job_of, own_of};
ghost use Rattle.vm_state.specs.Plan.{HasNumbers, IsOf};
ghost use Rattle.vm_stretch.specs.Stretch.{left, outcomes};
ghost use Rattle.vm_turn.specs.Own.{Around, CanCome, ComesAs, IsAmong, IsEarly};

use crate::outcome::Outcome;
use crate::visible_steps::see;
use machine_isa::{Instr, ticks as ticks_of};
use vm_instructions::step::step;
use vm_instructions::{Activation, StepResult};
use vm_state::{ControlBlock, DecodedImage, Queues};

/// The effect of an instruction, as far as its own process goes, which stands at the next already.
fn effect_of(
    plan: &DecodedImage,
    job: &mut Activation,
    owned: &mut [i32],
    shared: &mut [i32],
    queues: &Queues,
    devices: &[i32],
    instr: Instr,
) -> Outcome
    ghost at: { Around }
    requires plan { IsOf at.image plan.now }
    requires owned { at.owned ≡ owned.old }
    requires shared { at.shared ≡ shared.old }
    requires queues { at.state.queues ≡ queues.now }
    requires devices { at.state.devices ≡ devices.now }
    requires conditions { length at.image.conditions ≡ length queues.now }
    requires numbers { HasNumbers instr }
    requires can { CanCome job.old.frames.room
        (effect at.image at.state instr (own_of job.old at.owned at.shared)) }
    ensures comes { ComesAs (effect at.image at.state instr (own_of job.old at.owned at.shared))
        (own_of job.old at.owned at.shared) result (own_of job.new owned.new shared.new) }
    ensures among { IsAmong (length queues.now) result }
    ensures room { job.new.frames.room ≡ job.old.frames.room }
{
    match step(&plan.code, &plan.routines, job, owned, shared, instr) {
        StepResult::Done => Outcome::Goes,
        StepResult::Raises(number) => Outcome::Raises(number),
        StepResult::Seen => see(job, queues, devices, instr),
    }
}

/// The instruction at an address.
#[inline(always)]
pub fn fetch(code: &[Instr], place: usize) -> Instr
    requires { place < length code.now }
    ensures { slice_get code.now place ≡ Some result }
{
    code[place]
}

/// So many ticks of a process at once, which has no fewer left of its burn, or where it burns none
/// of its instruction.
pub fn pass_own(
    plan: &DecodedImage,
    job: &mut Activation,
    owned: &mut [i32],
    shared: &mut [i32],
    queues: &Queues,
    devices: &[i32],
    ticks: u32,
) -> Outcome
    ghost at: { Around }
    requires plan { IsOf at.image plan.now }
    requires owned { at.owned ≡ owned.old }
    requires shared { at.shared ≡ shared.old }
    requires words { at.shared ≡ at.state.shared }
    requires queues { at.state.queues ≡ queues.now }
    requires devices { at.state.devices ≡ devices.now }
    requires conditions { length at.image.conditions ≡ length queues.now }
    requires fits { ticks ≤ left at.image (job_of job.old) }
    requires early { IsEarly at.image (job_of job.old) }
    requires can { CanCome job.old.frames.room
        (outcomes at.image at.state (job_of job.old) at.owned ticks job.old.dispatch_ticks) }
    ensures comes { ComesAs (outcomes at.image at.state
        (job_of job.old) at.owned ticks job.old.dispatch_ticks) (own_of job.old at.owned at.shared) result
        (own_of job.new owned.new shared.new) }
    ensures among { IsAmong (length queues.now) result }
    ensures room { job.new.frames.room ≡ job.old.frames.room }
{
    if job.dispatch_ticks > 0 {
        job.dispatch_ticks -= ticks;
        return Outcome::Goes;
    }
    let instr = fetch(&plan.code, job.place);
    if ticks < ticks_of(&instr) - job.done {
        job.done += ticks;
        return Outcome::Goes;
    }
    job.place += 1;
    job.done = 0;
    effect_of(plan, job, owned, shared, queues, devices, instr)
}
