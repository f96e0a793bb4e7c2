//! The run to the end of the script.

ghost use Rattle.std.specs.Prelude.{◌≡◌, ◌≢◌, ◌≤◌, [], All, OnOk, OnErr};
ghost use Rattle.outside.specs.Outside.{Appends, AppendsFront, Rose};
ghost use Rattle.event_log.specs.InRange.{AreIn};
ghost use Rattle.machine_semantics.specs.Image.{Image};
ghost use Rattle.vm_runner.specs.Course.{course};
ghost use Rattle.vm_runner.specs.Dispatching.{Before};
ghost use Rattle.vm_runner.specs.Standing.{Stands};
ghost use Rattle.vm_releases.specs.Begin.{script_of};
ghost use Rattle.vm_state.specs.Plan.{IsOf};
ghost use Rattle.vm_run.specs.Coming.{coming, log_to_come};

use crate::put_log::{OutputCut, put_all};
use event_log::LineBuffer;
use image::ImageNames;
use outside::Sink;
use script::Script;
use vm_runner::{Dispatch, Machine};
use vm_state::DecodedImage;

/// Runs from the machine's tick to the end of the script, and puts the line of each event in the
/// log, one put a line. After a failed put nothing more is put; the machine then stands after the
/// turns whose lines it was putting. It takes no memory.
pub fn run<D: Dispatch, O: Sink>(
    machine: &mut Machine<D>,
    plan: &DecodedImage,
    script: &Script,
    names: &ImageNames,
    out: &mut O,
) -> Result<(), OutputCut>
    ghost image: { Image }
    requires plan { IsOf image plan.now }
    requires runnable { D.CanRun image (script_of script.now) }
    requires stands { Stands D.behaviour D.Knows image (script_of script.now) Before machine.old }
    // each event that is still to come has a line
    requires lines { All (AreIn names.now)
        (coming (course D.behaviour image (script_of script.now)) machine.old.tick) }
    ensures whole { OnOk result (Appends (O.state out.old).taken (O.state out.new).taken
        (log_to_come (course D.behaviour image (script_of script.now))
        names.now machine.old.tick)) }
    ensures end { OnOk result (machine.new.tick ≡ script.now.end) }
    ensures front { OnErr result (AppendsFront (O.state out.old).taken (O.state out.new).taken
        (log_to_come (course D.behaviour image (script_of script.now))
        names.now machine.old.tick)) }
    // a put failed, so there was a line to put
    ensures some { OnErr result (log_to_come (course D.behaviour image (script_of script.now))
        names.now machine.old.tick ≢ []) }
    ensures failed { OnErr result (Rose (O.state out.old).faults (O.state out.new).faults) }
    ensures count { (O.state out.old).faults ≤ (O.state out.new).faults }
    ensures quiet { OnOk result ((O.state out.new).faults ≡ (O.state out.old).faults) }
    ensures stands { Stands D.behaviour D.Knows image (script_of script.now) Before machine.new }
{
    D::goes_by_steps();
    let end = script.end();
    let mut text = LineBuffer::new();
    while machine.tick() < end {
        machine.advance_row(plan, script);
        put_all(&mut text, names, machine.events(), out)?;
    }
    Ok(())
}
