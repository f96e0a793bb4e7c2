//! Which process runs, and how long it stays at what it is at.

ghost use Rattle.std.specs.Prelude.{◌≡◌, ◌<◌, length, vec_len};
ghost use Rattle.vm_turn.specs.Chosen.{IsCeiling, IsLeft, IsLeftOf, IsPick, StandsIn};

use machine_isa::{Instr, ticks};
use vm_instructions::Activation;
use vm_state::{ControlBlock, DecodedImage, DecodedProcess, MachineState, SchedulingState};
use vm_stretch::{Contender, foremost_with, place_found};

/// The ticks left of what an activation is at: of its burn, where it has one, else of its
/// instruction.
fn left_of(code: &[Instr], job: &Activation) -> u32
    ensures { IsLeftOf code.now job.now result }
{
    if job.dispatch_ticks > 0 {
        return job.dispatch_ticks;
    }
    if job.place >= code.len() {
        return 1;
    }
    ticks(&code[job.place]).saturating_sub(job.done)
}

/// The ticks left of what a process that is ready is at.
pub fn left(plan: &DecodedImage, board: &MachineState, who: usize) -> u32
    requires { who < vec_len board.now.cells }
    ensures { IsLeft plan.now board.now who result }
{
    left_of(&plan.code, &board.cells[who].job)
}

/// The ceiling of a monitor; 0 where there is none.
#[inline(always)]
pub fn ceiling_of(ceilings: &[u16], monitor: u16) -> u16
    ensures { IsCeiling ceilings.now monitor result }
{
    let place = usize::from(monitor);
    if place < ceilings.len() {
        return ceilings[place];
    }
    0
}

/// How a process stands in the choice.
#[inline(always)]
fn standing_of(plan: &DecodedImage, process: &DecodedProcess, cell: &ControlBlock) -> Contender
    ensures { StandsIn plan.now process.now cell.now result }
{
    let ready = matches!(cell.stand, SchedulingState::Ready);
    match cell.job.inside {
        Some(monitor) => Contender {
            ready,
            active: ceiling_of(&plan.ceilings, monitor),
            inside: true,
        },
        None => Contender {
            ready,
            active: process.rank,
            inside: false,
        },
    }
}

/// The process that is picked: the one of the least active rank of those that are ready, of two
/// alike one inside a monitor before one outside, then the first; `None` where none is ready.
pub fn choose(plan: &DecodedImage, board: &MachineState) -> Option<usize>
    requires { vec_len board.now.cells ≡ vec_len plan.now.processes }
    ensures { IsPick plan.now board.now result }
{
    let mut best = None;
    for k in 0..board.cells.len() {
        let standing = standing_of(plan, &plan.processes[k], &board.cells[k]);
        best = foremost_with(best, k, &standing);
    }
    place_found(best)
}
