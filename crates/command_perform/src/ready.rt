//! Runs made ready.

ghost use Rattle.std.specs.Prelude.{◌≡◌, ◌≢◌, [], Some, IfOk, OnOk, OnErr};
ghost use Rattle.command_answers.specs.Acts.{CanRun, image_in, log_due};
ghost use Rattle.outside.specs.Outside.{Appends, AppendsFront, Rose};
ghost use Rattle.machine_semantics.specs.Image.{Image};
ghost use Rattle.command_perform.specs.Ready.{IsReady};

use crate::any_machine::AnyMachine;
use command_answers::PreparedRun;
use out_of_memory::OutOfMemory;
use outside::Sink;
use std::alloc::Global;
use vm_plan::plan_of;
use vm_run::OutputCut;
use vm_state::DecodedImage;

/// A run whose machine, which is the one of its dispatch, stands before tick 0. It takes no more
/// memory.
#[derive(Drop)]
pub struct Ready<'a> {
    run: &'a PreparedRun,
    plan: DecodedImage,
    course: AnyMachine,
}

impl<'a> Ready<'a> {
    /// Makes the plan of the image and the machine; an error says that memory is short.
    pub fn new(alloc: Global, run: &'a PreparedRun) -> Result<Ready<'a>, OutOfMemory>
        ghost image: { Image }
        requires image { image ≡ (image_in run.now.image).image }
        requires can { CanRun run.now }
        ensures run { IfOk result (λ ready. ready.run.now ≡ run.now) }
        ensures ready { IfOk result (λ ready. IsReady ready) }
    {
        let plan = plan_of(alloc, run.image.image())?;
        let course = AnyMachine::new(alloc, &plan, run)?;
        Ok(Ready { run, plan, course })
    }

    /// Runs to the end of the script, and puts the log, one put a line. After a failed put nothing
    /// more is put.
    pub fn put_log<O: Sink>(&mut self, out: &mut O) -> Result<(), OutputCut>
        ghost image: { Image }
        requires image { image ≡ (image_in self.old.run.now.image).image }
        requires ready { IsReady self.old }
        ensures whole { OnOk result (Appends (O.state out.old).taken (O.state out.new).taken
            (log_due (Some self.old.run.now))) }
        ensures front { OnErr result (AppendsFront (O.state out.old).taken (O.state out.new).taken
            (log_due (Some self.old.run.now))) }
        ensures some { OnErr result (log_due (Some self.old.run.now) ≢ []) }
        ensures failed { OnErr result (Rose (O.state out.old).faults (O.state out.new).faults) }
        ensures quiet { OnOk result ((O.state out.new).faults ≡ (O.state out.old).faults) }
    {
        self.course.put_log(&self.plan, self.run, out)
    }
}
