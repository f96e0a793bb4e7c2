//! Machines by the dispatch of a run.

ghost use Rattle.std.specs.Prelude.{◌≡◌, ◌≢◌, [], Some, IfOk, OnOk, OnErr, map};
ghost use Rattle.command_answers.specs.Acts.{CanRun, image_in, log_due};
ghost use Rattle.outside.specs.Outside.{Appends, AppendsFront, Rose};
ghost use Rattle.machine_semantics.specs.Image.{Image};
ghost use Rattle.vm_state.specs.Plan.{IsOf};
ghost use Rattle.command_perform.specs.Ready.{IsByDeadlines, IsByRanks, IsCourseOf};

use command_answers::{PreparedRun, RunnableImage};
use edf_machine::{Deadlines, machine_by_deadlines};
use image_bytes::ImageBytes;
use out_of_memory::OutOfMemory;
use outside::Sink;
use std::alloc::Global;
use vm_run::OutputCut;
use vm_runner::{Machine, Ranking};
use vm_state::DecodedImage;

/// The machine of a run, by its dispatch.
#[derive(Drop)]
pub(crate) enum AnyMachine {
    /// By ranks.
    Ranks(Machine<Ranking>),
    /// Under earliest deadline first.
    Deadlines(Machine<Deadlines>),
}

/// The machine by ranks before tick 0 of the run; an error says that memory is short.
fn by_ranks(
    alloc: Global,
    plan: &DecodedImage,
    run: &PreparedRun,
) -> Result<Machine<Ranking>, OutOfMemory>
    ghost image: { Image }
    requires image { image ≡ (image_in run.now.image).image }
    requires plan { IsOf image plan.now }
    requires dispatch { run.now.image ≡ RunnableImage.Ranks (image_in run.now.image) }
    requires can { CanRun run.now }
    ensures { IfOk result (λ machine. IsByRanks run.now machine) }
{
    Machine::by_ranks(alloc, plan, &run.script)
}

/// The deadline of each process in ticks; an error says that memory is short.
fn deadlines_of(alloc: Global, image: &ImageBytes) -> Result<Vec<u32>, OutOfMemory>
    ensures { IfOk result (λ deadlines.
        deadlines.items ≡ map (λ p. p.deadline) image.now.image.processes) }
{
    let mut deadlines = Vec::with_capacity(alloc, usize::from(image.processes()))?;
    for number in 0..image.processes() {
        deadlines.push(image.process(number).deadline)?;
    }
    Ok(deadlines)
}

/// The machine under earliest deadline first before tick 0 of the run; an error says that memory is
/// short.
fn by_deadlines(
    alloc: Global,
    plan: &DecodedImage,
    run: &PreparedRun,
) -> Result<Machine<Deadlines>, OutOfMemory>
    ghost image: { Image }
    requires image { image ≡ (image_in run.now.image).image }
    requires plan { IsOf image plan.now }
    requires dispatch { run.now.image ≡ RunnableImage.Deadlines (image_in run.now.image) }
    requires can { CanRun run.now }
    ensures { IfOk result (λ machine. IsByDeadlines run.now machine) }
{
    let deadlines = deadlines_of(alloc, run.image.image())?;
    machine_by_deadlines(alloc, plan, deadlines.as_slice(), &run.script)
}

/// Runs by ranks to the end of the script, and puts the log, one put a line. After a failed put
/// nothing more is put.
fn put_by_ranks<O: Sink>(
    machine: &mut Machine<Ranking>,
    plan: &DecodedImage,
    run: &PreparedRun,
    out: &mut O,
) -> Result<(), OutputCut>
    ghost image: { Image }
    requires image { image ≡ (image_in run.now.image).image }
    requires plan { IsOf image plan.now }
    requires ready { IsByRanks run.now machine.old }
    ensures whole { OnOk result (Appends (O.state out.old).taken (O.state out.new).taken
        (log_due (Some run.now))) }
    ensures front { OnErr result (AppendsFront (O.state out.old).taken (O.state out.new).taken
        (log_due (Some run.now))) }
    ensures some { OnErr result (log_due (Some run.now) ≢ []) }
    ensures failed { OnErr result (Rose (O.state out.old).faults (O.state out.new).faults) }
    ensures quiet { OnOk result ((O.state out.new).faults ≡ (O.state out.old).faults) }
{
    vm_run::run(machine, plan, &run.script, run.image.image().names(), out)
}

/// Runs under earliest deadline first to the end of the script, and puts the log, one put a line.
/// After a failed put nothing more is put.
fn put_by_deadlines<O: Sink>(
    machine: &mut Machine<Deadlines>,
    plan: &DecodedImage,
    run: &PreparedRun,
    out: &mut O,
) -> Result<(), OutputCut>
    ghost image: { Image }
    requires image { image ≡ (image_in run.now.image).image }
    requires plan { IsOf image plan.now }
    requires ready { IsByDeadlines run.now machine.old }
    ensures whole { OnOk result (Appends (O.state out.old).taken (O.state out.new).taken
        (log_due (Some run.now))) }
    ensures front { OnErr result (AppendsFront (O.state out.old).taken (O.state out.new).taken
        (log_due (Some run.now))) }
    ensures some { OnErr result (log_due (Some run.now) ≢ []) }
    ensures failed { OnErr result (Rose (O.state out.old).faults (O.state out.new).faults) }
    ensures quiet { OnOk result ((O.state out.new).faults ≡ (O.state out.old).faults) }
{
    vm_run::run(machine, plan, &run.script, run.image.image().names(), out)
}

impl AnyMachine {
    /// The machine before tick 0 of the run; an error says that memory is short.
    pub(crate) fn new(
        alloc: Global,
        plan: &DecodedImage,
        run: &PreparedRun,
    ) -> Result<AnyMachine, OutOfMemory>
        ghost image: { Image }
        requires image { image ≡ (image_in run.now.image).image }
        requires plan { IsOf image plan.now }
        requires can { CanRun run.now }
        ensures { IfOk result (λ course. IsCourseOf run.now course) }
    {
        match &run.image {
            RunnableImage::Ranks(_) => Ok(AnyMachine::Ranks(by_ranks(alloc, plan, run)?)),
            RunnableImage::Deadlines(_) => {
                Ok(AnyMachine::Deadlines(by_deadlines(alloc, plan, run)?))
            }
        }
    }

    /// Runs to the end of the script, and puts the log, one put a line. After a failed put nothing
    /// more is put.
    pub(crate) fn put_log<O: Sink>(
        &mut self,
        plan: &DecodedImage,
        run: &PreparedRun,
        out: &mut O,
    ) -> Result<(), OutputCut>
        ghost image: { Image }
        requires image { image ≡ (image_in run.now.image).image }
        requires plan { IsOf image plan.now }
        requires course { IsCourseOf run.now self.old }
        ensures whole { OnOk result (Appends (O.state out.old).taken (O.state out.new).taken
            (log_due (Some run.now))) }
        ensures front { OnErr result (AppendsFront (O.state out.old).taken (O.state out.new).taken
            (log_due (Some run.now))) }
        ensures some { OnErr result (log_due (Some run.now) ≢ []) }
        ensures failed { OnErr result (Rose (O.state out.old).faults (O.state out.new).faults) }
        ensures quiet { OnOk result ((O.state out.new).faults ≡ (O.state out.old).faults) }
    {
        match self {
            AnyMachine::Ranks(machine) => put_by_ranks(machine, plan, run, out),
            AnyMachine::Deadlines(machine) => put_by_deadlines(machine, plan, run, out),
        }
    }
}
