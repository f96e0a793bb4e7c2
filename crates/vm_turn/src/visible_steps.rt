//! The instructions that others see.

ghost use Rattle.std.specs.Prelude.{◌≡◌, false, length};
ghost use Rattle.machine_semantics.specs.Effect.{effect};
ghost use Rattle.vm_instructions.specs.Silent.{own_of};
ghost use Rattle.vm_state.specs.Plan.{HasNumbers};
ghost use Rattle.vm_stretch.specs.Silent.{is_silent};
ghost use Rattle.vm_turn.specs.Own.{Around, CanCome, ComesAs, IsAmong};

use crate::outcome::Outcome;
use machine_isa::Instr;
use vm_instructions::Activation;
use vm_state::{Queues, empty, enter, get, leave, put, wait};

/// Does an instruction that others see, as far as its own process goes, which stands at the next
/// already.
#[inline(always)]
pub fn see(job: &mut Activation, queues: &Queues, devices: &[i32], instr: Instr) -> Outcome
    ghost at: { Around }
    requires queues { at.state.queues ≡ queues.now }
    requires devices { at.state.devices ≡ devices.now }
    requires conditions { length at.image.conditions ≡ length queues.now }
    requires numbers { HasNumbers instr }
    requires seen { is_silent instr ≡ false }
    requires can { CanCome job.old.frames.room
        (effect at.image at.state instr (own_of job.old at.owned at.shared)) }
    ensures comes { ComesAs (effect at.image at.state instr (own_of job.old at.owned at.shared))
        (own_of job.old at.owned at.shared) result (own_of job.new at.owned at.shared) }
    ensures among { IsAmong (length queues.now) result }
    ensures room { job.new.frames.room ≡ job.old.frames.room }
{
    match instr {
        Instr::Enter { monitor } => Outcome::Does(enter(&mut job.inside, monitor)),
        Instr::Reenter { monitor } => Outcome::Does(enter(&mut job.inside, monitor)),
        Instr::Leave { monitor } => Outcome::Does(leave(&mut job.inside, monitor)),
        Instr::Wait {
            condition,
            limit,
            number,
        } => Outcome::Waits(wait(&mut job.inside, condition, limit, number)),
        Instr::Signal { condition } => Outcome::Signals {
            condition: condition as u16,
        },
        Instr::Broadcast { condition } => Outcome::Broadcasts {
            condition: condition as u16,
        },
        Instr::Empty { condition } => Outcome::Does(empty(&mut job.frames, queues, condition)),
        Instr::In { device } => Outcome::Does(get(&mut job.frames, devices, device)),
        Instr::Out { device } => Outcome::Does(put(&mut job.frames, device)),
        Instr::Raise { number } => Outcome::Raises(number as u16),
        Instr::End => Outcome::Ends,
        _ => unreachable!(),
    }
}
