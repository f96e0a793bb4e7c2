//! The bounds of a program, taken apart.

ghost use Rattle.std.specs.Prelude.{◌≤◌, ◌↔◌, ℕ, List, All, IfOk, IsSome, IsTrue};
ghost use Rattle.syntax_tree.specs.Placed.{placed, plain};
ghost use Rattle.command_due.specs.Source.{IsWritten};
ghost use Rattle.compile.specs.Steps.{IsRanked};
ghost use Rattle.static_semantics.specs.Static.{IsChecked};
ghost use Rattle.analysis_command.specs.Told.{IsWhyOf};

use crate::image_of_program::ranked_image;
use crate::levels::levels;
use crate::order::order;
use built_image_law::generated_within_limits::generated_code_is_code;
use built_image_law::premises_of_laws::checked_programs_are_ready;
use built_tasks_law::ranks_and_ceilings::ranks_are_of_the_meaning;
use built_tasks_law::tasks_of_text::{ranks_are_of_the_text, tasks_are_of_the_text};
use image::RawImage;
use out_of_memory::OutOfMemory;
use sched_sections::{Level, bounds_text};
use static_semantics::Checked;
use std::alloc::Global;
use syntax_tree::{Program, Text};

/// The text that takes the bounds of a program apart, and whether each process has one.
#[derive(Drop)]
pub struct WhyText {
    pub text: Text,
    pub in_time: bool,
}

/// Whether each level has a bound.
fn all_bounded(levels: &[Level]) -> bool
    ensures { IsTrue result ↔ All (λ l. IsSome l.bound) levels.now }
{
    levels.iter().all(|level| level.bound.is_some())
}

/// The text on a program, by its image.
fn why_of_image(alloc: Global, program: &Program, image: &RawImage) -> Result<WhyText, OutOfMemory>
    requires checked { IsChecked (placed program.now) }
    requires image { IsRanked (placed program.now) image.now.overhead image.now }
    ensures { IfOk result (IsWhyOf (plain (placed program.now)) image.now.overhead) }
{
    checked_programs_are_ready();
    generated_code_is_code();
    tasks_are_of_the_text();
    ranks_are_of_the_text();
    ranks_are_of_the_meaning();
    let levels = levels(alloc, program, image)?;
    let order = order(alloc, image.processes.as_slice())?;
    let text = bounds_text(alloc, levels.as_slice(), order.as_slice())?;
    let in_time = all_bounded(levels.as_slice());
    Ok(WhyText { text, in_time })
}

/// The text that takes the bounds of a program apart, which is not too large, with an overhead of
/// at most 1,000 ticks, and whether it is in time. Only want of memory is an error.
pub fn why_text(alloc: Global, program: &Checked, over: u16) -> Result<WhyText, OutOfMemory>
    ghost text: { List ℕ }
    requires over { over ≤ 1000 }
    requires written { IsWritten text (placed program.now) }
    ensures { IfOk result (IsWhyOf (plain (placed program.now)) over) }
{
    let image = ranked_image(alloc, program, over)?;
    let why = why_of_image(alloc, program.prog(), &image)?;
    Ok(why)
}
