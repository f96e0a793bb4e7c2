//! The image of a program, all but its bounds.

ghost use Rattle.std.specs.Prelude.{◌≤◌, ℕ, List, IfOk, IfErr};
ghost use Rattle.syntax_tree.specs.Placed.{placed};
ghost use Rattle.static_semantics.specs.Static.{IsChecked};
ghost use Rattle.front_end.specs.Program.{IsProgramOf};
ghost use Rattle.compile.specs.Steps.{AreParts, IsAssembled, IsRanked, IsSizeFault};

use crate::built::BuildFault;
use crate::fields_fit::{checked_programs_fit_fields, made_programs_have_parts};
use crate::measured_code::{MeasuredCode, parts_of};
use built_image_law::generated_within_limits::{
    generated_code_is_code, programs_that_keep_sizes_are_small,
};
use built_image_law::number_limits::shaped_images_are_in_limits;
use built_image_law::premises_of_laws::checked_programs_are_ready;
use built_image_law::shape_before_times::ranked_images_are_shaped;
use code_measures::declared_images_valid::code_has_its_length;
use compile_image::assemble;
use compile_schedule::rank;
use image::RawImage;
use out_of_memory::OutOfMemory;
use std::alloc::Global;
use syntax_tree::Program;

/// The parts of a checked program, put together.
fn assembled(
    alloc: Global,
    program: &Program,
    over: u16,
    parts: MeasuredCode,
) -> Result<RawImage, OutOfMemory>
    requires over { over ≤ 1000 }
    requires checked { IsChecked (placed program.now) }
    requires parts { AreParts (placed program.now) parts }
    ensures { IfOk result (IsAssembled (placed program.now) over) }
{
    made_programs_have_parts();
    checked_programs_fit_fields();
    let MeasuredCode { code, measures } = parts;
    assemble(alloc, program, over, code, &measures)
}

/// The image of the program of a text, with its ranks, ceilings and blocks; each bound is the
/// deadline.
pub fn ranked(alloc: Global, program: &Program, over: u16) -> Result<RawImage, BuildFault>
    ghost text: { List ℕ }
    requires over { over ≤ 1000 }
    requires written { IsProgramOf text (placed program.now) }
    ensures image { IfOk result (IsRanked (placed program.now) over) }
    ensures fault { IfErr result (IsSizeFault (placed program.now)) }
{
    checked_programs_are_ready();
    programs_that_keep_sizes_are_small();
    generated_code_is_code();
    code_has_its_length();
    ranked_images_are_shaped();
    shaped_images_are_in_limits();
    let parts = parts_of(alloc, program)?;
    let raw = assembled(alloc, program, over, parts)?;
    let image = rank(alloc, raw)?;
    Ok(image)
}
