//! What a machine has before the first tick.

ghost use Rattle.std.specs.Prelude.{◌≡◌, IfOk};
ghost use Rattle.vm_releases.specs.Begin.{script_of};
ghost use Rattle.vm_state.specs.Plan.{IsOf};
ghost use Rattle.vm_stretch.specs.StartLawsDue.{HasOwnRanks};
ghost use Rattle.vm_stretch.specs.StretchDue.{AreInOrder};
ghost use Rattle.vm_runner.specs.Setup.{IsSetUp};
ghost use Rattle.vm_runner.specs.Turn.{Run};

use out_of_memory::OutOfMemory;
use script::Script;
use std::alloc::Global;
use vm_releases::Timers;
use vm_state::{DecodedImage, MachineState};

/// What a machine has before tick 0 of a run, whatever its dispatch: all processes idle, and when
/// things are due.
#[derive(Drop)]
pub struct Setup {
    pub(crate) board: MachineState,
    pub(crate) agenda: Timers,
}

impl Setup {
    /// It takes all the memory that a machine needs beside its dispatch; an error says that memory
    /// is short.
    pub fn new(alloc: Global, plan: &DecodedImage, script: &Script) -> Result<Setup, OutOfMemory>
        ghost run: { Run }
        requires plan { IsOf run.image plan.now }
        requires script { run.script ≡ script_of script.now }
        requires ranks { HasOwnRanks run.image }
        requires order { AreInOrder run.script.lines }
        ensures { IfOk result (λ setup. IsSetUp run.image run.script setup) }
    {
        Ok(Setup {
            board: MachineState::new(alloc, plan)?,
            agenda: Timers::new(alloc, plan, script)?,
        })
    }
}
