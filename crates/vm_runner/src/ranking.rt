//! Which process is picked, kept from row to row.

ghost use Rattle.std.specs.Prelude.{◌≡◌, ◌<◌, ◌^◌, vec_len};
ghost use Rattle.machine_semantics.specs.Image.{Image};
ghost use Rattle.machine_semantics.specs.Tick.{pick};
ghost use Rattle.vm_state.specs.Board.{IsBoardOf, state_of};
ghost use Rattle.vm_state.specs.Plan.{IsOf};
ghost use Rattle.vm_stretch.specs.Stretch.{place_of};
ghost use Rattle.vm_runner.specs.Ranking.{IsKeyOf, IsPrecedence, IsRanking, StandAsBefore};
ghost use Rattle.vm_runner.specs.Ranking.{Standing, least_of};

use crate::Dispatch;
use crate::waits::is_some_at_queue;
use arrayvec::ArrayVec;
use base::Event;
use vm_state::{ControlBlock, DecodedImage, DecodedProcess, MachineState, SchedulingState};
use vm_turn::ceiling_of;

/// By what a process is chosen: the least comes first. Of one that is ready it is 64 times its key
/// and its place, where the key is twice its active rank, and one more outside of all monitors. So
/// one comparison tells which of two comes first, and the least tells which process it is of.
#[derive(Clone, Copy, Default)]
struct Precedence {
    number: u32,
}

/// The number of a process that is not ready, behind all others.
const NOBODY: u32 = u32::MAX;

/// By process its precedence, and the least of them.
#[derive(Drop)]
pub struct Ranking {
    precedences: ArrayVec<Precedence, 64>,
    least: Precedence,
}

/// By what a process that is ready is chosen before its place is: its active rank, and of two alike
/// one inside a monitor before one outside.
#[inline(always)]
fn key_of(plan: &DecodedImage, process: &DecodedProcess, inside: Option<u16>) -> u32
    ensures key { IsKeyOf plan.now process.now inside result }
    ensures small { result < 2 ^ 17 }
{
    match inside {
        Some(monitor) => 2 * u32::from(ceiling_of(&plan.ceilings, monitor)),
        None => 2 * u32::from(process.rank) + 1,
    }
}

/// The precedence of the process at this place.
#[inline(always)]
fn precedence_of(
    plan: &DecodedImage,
    process: &DecodedProcess,
    cell: &ControlBlock,
    place: usize,
) -> Precedence
    requires { place < 64 }
    ensures { IsPrecedence plan.now process.now cell.now place result }
{
    match cell.stand {
        SchedulingState::Ready => Precedence {
            number: 64 * key_of(plan, process, cell.job.inside) + place as u32,
        },
        _ => Precedence { number: NOBODY },
    }
}

/// The least of all.
fn least_of(precedences: &[Precedence]) -> Precedence
    ensures { result.number ≡ least_of precedences.now }
{
    let mut least = NOBODY;
    for precedence in precedences {
        least = least.min(precedence.number);
    }
    Precedence { number: least }
}

impl Ranking {
    /// Room for all processes; none is known.
    pub fn new() -> Ranking {
        Ranking {
            precedences: ArrayVec::new(),
            least: Precedence { number: NOBODY },
        }
    }

    /// Notes how all processes stand.
    fn note_all(&mut self, plan: &DecodedImage, board: &MachineState)
        requires { (image : Image) × IsOf image plan.now × IsBoardOf image board.now }
        ensures { (image : Image) → IsOf image plan.now → IsBoardOf image board.now →
            IsRanking image (state_of board.now).threads self.new }
    {
        self.precedences.clear();
        for k in 0..board.cells.len() {
            self.precedences.push(precedence_of(plan, &plan.processes[k], &board.cells[k], k));
        }
        self.least = least_of(self.precedences.as_slice());
    }

    /// Notes how a process stands, where all others stand as before.
    #[inline(always)]
    fn note(&mut self, plan: &DecodedImage, board: &MachineState, who: usize)
        requires who { who < vec_len board.now.cells }
        requires ranking { (at : Standing) × IsOf at.image plan.now ×
            IsBoardOf at.image board.now × IsRanking at.image at.threads self.old }
        ensures { (at : Standing) → IsOf at.image plan.now → IsBoardOf at.image board.now →
            IsRanking at.image at.threads self.old →
            StandAsBefore at.threads (state_of board.now).threads who →
            IsRanking at.image (state_of board.now).threads self.new }
    {
        let precedence = precedence_of(plan, &plan.processes[who], &board.cells[who], who);
        self.precedences.as_mut_slice()[who] = precedence;
        if precedence.number <= self.least.number {
            self.least = precedence;
        } else {
            self.least = least_of(self.precedences.as_slice());
        }
    }

    /// The process that is picked.
    #[inline(always)]
    fn told(&self) -> Option<usize>
        ensures { (at : Standing) → IsRanking at.image at.threads self.now →
            result ≡ place_of (pick at.image at.threads) }
    {
        if self.least.number == NOBODY {
            return None;
        }
        Some((self.least.number % 64) as usize)
    }
}

impl Dispatch for Ranking {
    ghost use Rattle.vm_runner.specs.ByRanks.{Knows, ranks};
    ghost use Rattle.vm_runner.specs.Runnable.{IsRunnable};

    ghost behaviour = { ranks };

    ghost CanRun = { IsRunnable };

    ghost Knows = { Knows };

    #[inline(always)]
    fn before_starts(&mut self, _board: &MachineState) {}

    #[inline(always)]
    fn after_starts(&mut self, _board: &MachineState, _tick: u64) {}

    #[inline(always)]
    fn choose(&mut self, plan: &DecodedImage, board: &MachineState) -> Option<usize> {
        self.note_all(plan, board);
        self.told()
    }

    #[inline(always)]
    fn first(&mut self, _plan: &DecodedImage, _board: &MachineState) -> Option<usize> {
        self.told()
    }

    /// Where none of the events is at a queue, all others stand as before.
    #[inline(always)]
    fn follow(&mut self, plan: &DecodedImage, board: &MachineState, who: usize, events: &[Event]) {
        if is_some_at_queue(events) {
            self.note_all(plan, board);
        } else {
            self.note(plan, board, who);
        }
    }

    fn goes_by_steps() {}
}
