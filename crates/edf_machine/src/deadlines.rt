//! Earliest deadline first, as the dispatch of a machine.

ghost use Rattle.std.specs.Prelude.{◌≡◌, IfOk};
ghost use Rattle.vm_releases.specs.Begin.{script_of};
ghost use Rattle.vm_state.specs.Plan.{IsOf};
ghost use Rattle.vm_runner.specs.Dispatching.{Before};
ghost use Rattle.vm_runner.specs.Setup.{IsSetUp};
ghost use Rattle.vm_runner.specs.Turn.{Run};
ghost use Rattle.edf_machine.specs.ByDeadlines.{Knows};
ghost use Rattle.edf_machine.specs.Marks.{HasDeadlines};
ghost use Rattle.edf_machine.specs.Runnable.{IsRunnable};
ghost use Rattle.edf_machine.specs.Standing.{StandsIn};

use crate::choice::choose;
use crate::marks::{DeadlineState, first_marks, mark_begun, mark_releases, note_idle};
use base::Event;
use out_of_memory::OutOfMemory;
use script::Script;
use std::alloc::Global;
use vm_runner::{Dispatch, Machine, Setup};
use vm_state::{DecodedImage, MachineState};

/// By process when its activation is due, and whether it has had a tick.
#[derive(Drop)]
pub struct Deadlines {
    marks: Vec<DeadlineState>,
}

impl Deadlines {
    /// What is known before the first tick, given the deadline of each process in ticks. An error
    /// says that memory is short.
    pub fn new(alloc: Global, deadlines: &[u32]) -> Result<Deadlines, OutOfMemory>
        ensures { IfOk result (λ known. (run : Run) → HasDeadlines run.image deadlines.now →
            Knows run.image run.script (Before 0) known) }
    {
        Ok(Deadlines {
            marks: first_marks(alloc, deadlines)?,
        })
    }
}

impl Dispatch for Deadlines {
    ghost use Rattle.edf_machine.specs.ByDeadlines.{deadlines};

    ghost behaviour = { deadlines };

    ghost CanRun = { IsRunnable };

    ghost Knows = { Knows };

    fn before_starts(&mut self, board: &MachineState) {
        note_idle(board, &mut self.marks);
    }

    fn after_starts(&mut self, board: &MachineState, tick: u64) {
        mark_releases(board, &mut self.marks, tick);
    }

    fn choose(&mut self, plan: &DecodedImage, board: &MachineState) -> Option<usize> {
        let who = choose(plan, board, self.marks.as_slice())?;
        mark_begun(&mut self.marks, who);
        Some(who)
    }

    /// Chosen anew.
    fn first(&mut self, plan: &DecodedImage, board: &MachineState) -> Option<usize> {
        self.choose(plan, board)
    }

    #[inline(always)]
    fn follow(
        &mut self,
        _plan: &DecodedImage,
        _board: &MachineState,
        _who: usize,
        _events: &[Event],
    ) {}

    fn goes_by_steps() {}
}

/// The machine that knows what is known before the first tick.
fn machine_of(setup: Setup, dispatch: Deadlines) -> Machine<Deadlines>
    ghost run: { Run }
    requires runnable { IsRunnable run.image run.script }
    requires setup { IsSetUp run.image run.script setup }
    requires knows { Knows run.image run.script (Before 0) dispatch }
    ensures start { result.tick ≡ 0 }
    ensures stands { StandsIn run.image run.script result }
{
    Machine::new(setup, dispatch)
}

/// A machine under earliest deadline first before tick 0 of the run, given the deadline of each
/// process in ticks. It takes all the memory that the run needs; an error says that memory is
/// short.
pub fn machine_by_deadlines(
    alloc: Global,
    plan: &DecodedImage,
    deadlines: &[u32],
    script: &Script,
) -> Result<Machine<Deadlines>, OutOfMemory>
    ghost run: { Run }
    requires plan { IsOf run.image plan.now }
    requires script { run.script ≡ script_of script.now }
    requires deadlines { HasDeadlines run.image deadlines.now }
    requires runnable { IsRunnable run.image run.script }
    ensures start { IfOk result (λ machine. machine.tick ≡ 0) }
    ensures stands { IfOk result (λ machine. StandsIn run.image run.script machine) }
{
    let setup = Setup::new(alloc, plan, script)?;
    let dispatch = Deadlines::new(alloc, deadlines)?;
    Ok(machine_of(setup, dispatch))
}
