//! The text.

ghost use Rattle.std.specs.Prelude.{◌≡◌, ◌<◌, length, IfOk, OnOk};
ghost use Rattle.image.specs.Raw.{image_of, named_of};
ghost use Rattle.command_due.specs.Lines.{IsSlackText};
ghost use Rattle.command_programs.specs.Levels.{AddsLine, AreTimelyTasks};
ghost use Rattle.valid_image.specs.Valid.{HasLimits, IsValid};

use crate::bounds::{bounds_with, level_of, spare_of};
use crate::lines::{add_line, name_at};
use image::RawImage;
use loader::{task_set, with_rank};
use out_of_memory::OutOfMemory;
use sched_response::TaskSet;
use std::alloc::Global;
use syntax_tree::Text;
use valid_image_law::validity_law::valid_meets_premises;

/// Puts the line of the process of the number at the end of a text. The set is afterwards as
/// before.
fn add_process(
    alloc: Global,
    text: &mut Text,
    image: &RawImage,
    set: &mut TaskSet,
    number: usize,
) -> Result<(), OutOfMemory>
    requires tasks { AreTimelyTasks (image_of image.now) set.old }
    requires there { number < length image.now.processes }
    ensures kept { set.new ≡ set.old }
    ensures line { OnOk result (AddsLine (named_of image.now) number text.old text.new) }
{
    let processes = image.processes.as_slice();
    let names = image.names.processes.as_slice();
    let level = level_of(&processes[number]);
    let spare = spare_of(set, level);
    let bounds = bounds_with(alloc, processes, set, level, spare.extra)?;
    let failing = with_rank(processes, spare.fails + 1);
    add_line(
        text,
        name_at(names, number),
        spare.extra,
        bounds.as_slice(),
        name_at(names, failing),
    )
}

/// One line for each process of a valid image, in the order of the text: how many ticks it can
/// spare, the least bounds with these, and the process that fails with one more. Only want of
/// memory is an error.
pub fn slack_text(alloc: Global, image: &RawImage) -> Result<Text, OutOfMemory>
    requires limits { HasLimits (image_of image.now) }
    requires valid { IsValid (image_of image.now) }
    ensures { IfOk result (IsSlackText (named_of image.now)) }
{
    valid_meets_premises();
    let mut set = task_set(alloc, image)?;
    let mut text = Text::new(alloc);
    for number in 0..image.processes.len() {
        add_process(alloc, &mut text, image, &mut set, number)?;
    }
    Ok(text)
}
