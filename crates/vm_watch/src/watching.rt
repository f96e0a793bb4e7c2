//! Watching.

ghost use Rattle.std.specs.Prelude.{◌≡◌, ◌≤◌, All, IfOk, length};
ghost use Rattle.command_answers.specs.Acts.{CanRunByRanks};
ghost use Rattle.vm_watch.specs.Inspect.{HasItsWords};
ghost use Rattle.event_log.specs.InRange.{AreIn};
ghost use Rattle.machine_semantics.specs.Run.{state_at};
ghost use Rattle.vm_runner.specs.Turn.{Run};
ghost use Rattle.vm_releases.specs.Begin.{script_of};
ghost use Rattle.command_due.specs.StopDue.{IsStopText};
ghost use Rattle.command_due.specs.Text.{stop_text};
ghost use Rattle.vm_state.specs.Plan.{IsOf};
ghost use Rattle.vm_watch.specs.Follows.{Follows};

use crate::course::Course;
use crate::inspect::words_are_declared;
use crate::told::put_state;
use crate::{put_recent, put_tick};
use command_words::Breakpoint;
use image_bytes::ImageBytes;
use out_of_memory::OutOfMemory;
use script::Script;
use std::alloc::Global;
use syntax_tree::Text;
use vm_plan::plan_of;
use vm_state::DecodedImage;

/// The lines that tell where a run stands.
fn tell(
    alloc: Global,
    image: &ImageBytes,
    plan: &DecodedImage,
    course: &Course,
) -> Result<Text, OutOfMemory>
    ghost run: { Run }
    requires image { run.image ≡ image.now.image }
    requires plan { IsOf run.image plan.now }
    requires follows { Follows run.image run.script course.now }
    requires words { HasItsWords run.image
        (state_at run.image run.script course.now.machine.tick) }
    requires lines { All (AreIn image.now.names) course.now.recent.items }
    ensures { IfOk result (λ text. text ≡
        stop_text image.now run.script course.now.machine.tick) }
{
    let mut text = Text::new(alloc);
    put_tick(&mut text, course.machine.tick())?;
    put_state(alloc, &mut text, image, plan, &course.machine)?;
    let recent = course.recent.to_vec(alloc)?;
    put_recent(&mut text, image.names(), recent.as_slice())?;
    Ok(text)
}

/// The text of the state where the run of an image, whose plan is made, stops.
fn watch_by(
    alloc: Global,
    image: &ImageBytes,
    plan: &DecodedImage,
    script: &Script,
    stop: Breakpoint,
) -> Result<Text, OutOfMemory>
    ghost run: { Run }
    requires image { run.image ≡ image.now.image }
    requires script { run.script ≡ script_of script.now }
    requires plan { IsOf run.image plan.now }
    requires can { CanRunByRanks image.now script.now }
    ensures { IfOk result (λ text.
        IsStopText image.now script.now.lines script.now.end stop text) }
{
    words_are_declared();
    let mut course = Course::new(alloc, plan, script)?;
    course.run(plan, script, stop);
    tell(alloc, image, plan, &course)
}

/// The text of the state where the run of an image over a script stops: before a tick, or at the
/// end where this comes first; or right after the first effect of an instruction, or at the end
/// where there is none. An error says that memory is short.
pub fn watch(
    alloc: Global,
    image: &ImageBytes,
    script: &Script,
    stop: Breakpoint,
) -> Result<Text, OutOfMemory>
    requires { CanRunByRanks image.now script.now }
    ensures { IfOk result (λ text.
        IsStopText image.now script.now.lines script.now.end stop text) }
{
    let plan = plan_of(alloc, image)?;
    watch_by(alloc, image, &plan, script, stop)
}
