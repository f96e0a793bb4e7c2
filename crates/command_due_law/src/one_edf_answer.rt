//! Laws: what is due of `edf` is one.
//!
//! A program has one image under earliest deadline first, the test of the demand says one thing of
//! it, and the texts of a program and a script have one outcome: `specs/EdfDueOnce.antt`. Nothing here
//! can run.
//!
//! The laws.

ghost use Rattle.command_due_law.specs.EdfDueOnce.{AnswersAreOne, EdfImagesAreOne, EdfIsOne};

use crate::one_answer::{texts_have_one_fault, written_once, written_or_faulty};
use built_image_law::shape_before_times::shapes_agree;
use sched_demand::demand::each_set_has_one_reach;
use script::{one_answer, one_script};

/// The image of a program under earliest deadline first is one.
pub fn edf_images_are_one()
    ensures { EdfImagesAreOne }
{
    shapes_agree();
}

/// The test of the demand says one thing of an image.
pub fn answers_are_one()
    ensures { AnswersAreOne }
{
    each_set_has_one_reach();
}

/// What is due of `edf` is one.
pub fn edf_is_one()
    ensures { EdfIsOne }
{
    edf_images_are_one();
    answers_are_one();
    written_once();
    written_or_faulty();
    texts_have_one_fault();
    one_script();
    one_answer();
}
