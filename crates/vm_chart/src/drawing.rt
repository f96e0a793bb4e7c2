//! The chart of a run.

ghost use Rattle.std.specs.Prelude.{◌≡◌, ◌≤◌, All, IfOk};
ghost use Rattle.machine_semantics.specs.Run.{events};
ghost use Rattle.run_chart.specs.Chart.{chart_in, chart_text};
ghost use Rattle.vm_chart.specs.Follows.{AreColumns, Drawing, IsBeforeLastTick};
ghost use Rattle.vm_releases.specs.Begin.{script_of};
ghost use Rattle.vm_runner.specs.Runnable.{IsRunnable};
ghost use Rattle.vm_state.specs.Plan.{IsOf};

use crate::course::Course;
use crate::lines::text_of;
use image_bytes::ImageBytes;
use out_of_memory::OutOfMemory;
use run_chart::{Columns, columns_of};
use script::Script;
use std::alloc::Global;
use syntax_tree::Text;
use vm_state::DecodedImage;

/// The chart in these columns, the last of which ends by the end of the script. An error says that
/// memory is short.
fn chart_in(
    alloc: Global,
    image: &ImageBytes,
    plan: &DecodedImage,
    script: &Script,
    columns: &Columns,
) -> Result<Text, OutOfMemory>
    ghost drawing: { Drawing }
    requires drawing { drawing ≡ record {
      image = image.now.image;
      script = script_of script.now;
      columns = columns.now;
      column = 0;
    } }
    requires plan { IsOf image.now.image plan.now }
    requires runnable { IsRunnable image.now.image (script_of script.now) }
    requires timely { All IsBeforeLastTick (events image.now.image (script_of script.now)) }
    requires columns { AreColumns columns.now }
    requires limit { columns.now.end ≤ script.now.end }
    ensures { IfOk result (λ text. text ≡
        chart_in image.now (script_of script.now) columns.now) }
{
    let mut course = Course::new(alloc, plan, script)?;
    course.go_to(plan, script, columns.first, columns.first.min(columns.end));
    course.draw(plan, script, columns)?;
    text_of(alloc, image, columns, &course.traces)
}

/// The chart of the run of an image, whose plan is made, over a script, from tick `first` up to
/// before tick `end`, or to the end of the script where this comes first. An error says that memory
/// is short.
pub fn chart(
    alloc: Global,
    image: &ImageBytes,
    plan: &DecodedImage,
    script: &Script,
    first: u64,
    end: u64,
) -> Result<Text, OutOfMemory>
    requires plan { IsOf image.now.image plan.now }
    requires runnable { IsRunnable image.now.image (script_of script.now) }
    requires timely { All IsBeforeLastTick (events image.now.image (script_of script.now)) }
    requires short { script.now.end ≤ 1000000000 }
    ensures { IfOk result (λ text. text ≡
        chart_text image.now (script_of script.now) first end) }
{
    let columns = columns_of(first, end.min(script.end()));
    chart_in(alloc, image, plan, script, &columns)
}
