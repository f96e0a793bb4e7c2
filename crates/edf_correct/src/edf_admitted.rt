//! Laws: the image of a program without waits whose demand is met is admitted, and can be run.
//!
//! `specs/Admitted.antt` has them. The image of a program that is written is a `Shape` of
//! `image_loaded`; without waits, and where its demand is met, it is an `EdfImage` of
//! `edf_admission`, all of whose runs are safe and meet their deadlines; it has a plan, and each
//! script for its names suits it. Nothing here can run.
//!
//! The laws.

ghost use Rattle.edf_correct.specs.Admitted.{EdfImagesAreAdmitted, EdfImagesAreShapes, EdfImagesCanBeRun, EdfScriptsSuit, WaitlessImagesHaveNoWait};

use built_image_law::generated_within_limits::{
    generated_code_is_code, programs_that_keep_sizes_are_small,
};
use built_image_law::names_fit::names_of_texts_are_short;
use built_image_law::number_limits::shaped_images_are_in_limits;
use built_image_law::premises_of_laws::checked_programs_are_ready;
use built_image_law::suitable_scripts::scripts_for_the_names_suit;
use built_valid_law::image_of_program::words_are_few;
use built_valid_law::valid_image_law_of_checked::checked_operands_are_in_range;
use code_measures::declared_images_valid::code_has_its_length;

/// The image of a program is valid but for its bounds, and its numbers are in the ranges of their
/// fields.
pub fn edf_images_are_shapes()
    ensures { EdfImagesAreShapes }
{
    checked_programs_are_ready();
    generated_code_is_code();
    words_are_few();
    checked_operands_are_in_range();
    programs_that_keep_sizes_are_small();
    code_has_its_length();
    shaped_images_are_in_limits();
    names_of_texts_are_short();
}

/// No WAIT stands in the image of a program without waits.
pub fn waitless_images_have_no_wait()
    ensures { WaitlessImagesHaveNoWait }
{
    checked_programs_are_ready();
    generated_code_is_code();
}

/// It is admitted where its demand is feasible.
pub fn edf_images_are_admitted()
    ensures { EdfImagesAreAdmitted }
{
    waitless_images_have_no_wait();
}

/// The image of a program has a plan, and its names are those of its parts.
pub fn edf_images_can_be_run()
    ensures { EdfImagesCanBeRun }
{
    checked_programs_are_ready();
    generated_code_is_code();
    names_of_texts_are_short();
    edf_images_are_shapes();
}

/// Each script that is written for its names suits it.
pub fn edf_scripts_suit()
    ensures { EdfScriptsSuit }
{
    checked_programs_are_ready();
    generated_code_is_code();
    scripts_for_the_names_suit();
}
