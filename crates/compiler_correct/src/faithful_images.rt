//! The laws.

ghost use Rattle.compiler_correct.specs.Made.{MadeImagesAreFaithful};
ghost use Rattle.command_due.specs.Runs.{BuiltImagesAreFaithful};

use built_image_law::generated_within_limits::programs_that_keep_sizes_are_small;
use built_image_law::number_limits::built_images_are_in_limits;
use built_image_law::premises_of_laws::checked_programs_are_ready;
use built_image_law::suitable_scripts::{scripts_are_in_order, scripts_for_the_names_suit};
use built_tasks_law::image_of_program::checked_images_are_images;
use built_valid_law::image_of_program::built_images_are_made;
use built_valid_law::valid_image_law_of_checked::checked_images_are_valid;
use code_correct::runs_of_checked::checked_programs_run;
use valid_image_law::validity_law::{every_valid_image_is_safe_and_in_time, valid_meets_premises};

/// An image that is made of a checked program, and in its limits, is faithful to it.
pub fn made_images_are_faithful()
    ensures { MadeImagesAreFaithful }
{
    checked_programs_are_ready();
    checked_images_are_valid();
    checked_images_are_images();
    checked_programs_run();
    valid_meets_premises();
    every_valid_image_is_safe_and_in_time();
    scripts_for_the_names_suit();
    scripts_are_in_order();
}

/// The image that is built of a program that is written is faithful to it.
pub fn built_images_are_faithful()
    ensures { BuiltImagesAreFaithful }
{
    checked_programs_are_ready();
    programs_that_keep_sizes_are_small();
    built_images_are_made();
    built_images_are_in_limits();
    made_images_are_faithful();
}
