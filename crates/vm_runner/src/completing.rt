//! The instruction that a turn completes.

ghost use Rattle.std.specs.Prelude.{◌≤◌, ◌<◌, vec_len};
ghost use Rattle.vm_runner.specs.Completing.{TellsOf, TellsWithin};

use machine_isa::{Instr, ticks};
use vm_instructions::Activation;
use vm_state::{DecodedImage, MachineState};
use vm_stretch::Completed;

/// Whether an activation completes its instruction in so many ticks at once: it burns none of them.
fn completes(code: &[Instr], job: &Activation, most: u64) -> bool
    ensures { TellsWithin code.now job.now most result }
{
    if job.dispatch_ticks > 0 || job.place >= code.len() {
        return false;
    }
    let left = ticks(&code[job.place]).saturating_sub(job.done);
    u64::from(left) <= most
}

/// The instruction that a process, which is ready, completes in so many ticks at once.
#[inline(always)]
pub(crate) fn completed_of(
    plan: &DecodedImage,
    board: &MachineState,
    who: usize,
    most: u64,
) -> Option<Completed>
    requires place { who < vec_len board.now.cells }
    requires few { vec_len board.now.cells ≤ 64 }
    ensures { TellsOf plan.now.code.items board.now who most result }
{
    let job = &board.cells[who].job;
    if !completes(&plan.code, job, most) {
        return None;
    }
    Some(Completed {
        process: who as u16,
        at: job.place,
    })
}
