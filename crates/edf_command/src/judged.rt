//! A program judged.

ghost use Rattle.std.specs.Prelude.{ℕ, List, IfOk, IfErr};
ghost use Rattle.syntax_tree.specs.Placed.{placed};
ghost use Rattle.front_end.specs.Program.{IsProgramOf};
ghost use Rattle.edf_command.specs.Steps.{IsJudgedProgram, IsSizeFault};

use crate::shaping::{ShapeFault, shape};
use edf_admission::judge_image;
use edf_correct::edf_admitted::edf_images_are_shapes;
use image_bytes::ImageBytes;
use sched_demand::Judgement;
use static_semantics::Checked;
use std::alloc::Global;

/// The image of a program, and what the test of the demand says of it.
#[derive(Drop)]
pub struct Judged {
    pub image: ImageBytes,
    pub answer: Judgement,
}

/// The image of the program of a text under earliest deadline first, and what the test of the
/// demand says of it.
///
/// # Errors
///
/// `TooLarge` exactly where a rule of size fails, with the first that does. `Memory` where there is
/// not enough memory.
pub fn judge_program(alloc: Global, program: &Checked) -> Result<Judged, ShapeFault>
    ghost text: { List ℕ }
    requires written { IsProgramOf text (placed program.now) }
    ensures judged { IfOk result (IsJudgedProgram (placed program.now)) }
    ensures fault { IfErr result (IsSizeFault (placed program.now)) }
{
    edf_images_are_shapes();
    let raw = shape(alloc, program)?;
    let image = ImageBytes::of(alloc, raw)?;
    let answer = judge_image(alloc, &image)?;
    Ok(Judged { image, answer })
}
