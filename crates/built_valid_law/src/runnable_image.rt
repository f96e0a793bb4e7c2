//! Law: the image that is built of a program that is written is valid, and can be run and stored.
//!
//! A run and a store ask more of an image than that it is valid (`specs/Ready.antt`): its numbers
//! are in the ranges of their fields, it has a plan, its names are those of its parts, its counts
//! fit their fields, and at each event stands the frame of its process. So it is with each image
//! that is built. Nothing here can run.

ghost use Rattle.built_valid_law.specs.Ready.{BuiltImagesAreReady};

use crate::image_of_program::built_images_are_made;
use crate::valid_image_law_of_checked::checked_images_are_valid;
use built_image_law::generated_within_limits::programs_that_keep_sizes_are_small;
use built_image_law::names_fit::names_of_texts_are_short;
use built_image_law::number_limits::built_images_are_in_limits;
use built_image_law::premises_of_laws::checked_programs_are_ready;
use built_image_law::suitable_scripts::names_have_frames;
use code_measures::declared_images_valid::code_has_its_length;
use valid_image_law::validity_law::valid_meets_premises;
use vm_law::numbers_in_range::valid_operands_are_there;

/// The image that is built of a program that is written is valid, and can be run and stored: its
/// numbers are in the ranges of their fields, it has a plan, its names are those of its parts, its
/// counts fit their fields, and at each event stands the frame of its process.
pub fn built_images_are_ready()
    ensures { BuiltImagesAreReady }
{
    checked_programs_are_ready();
    programs_that_keep_sizes_are_small();
    built_images_are_made();
    built_images_are_in_limits();
    checked_images_are_valid();
    valid_operands_are_there();
    valid_meets_premises();
    code_has_its_length();
    names_of_texts_are_short();
    names_have_frames();
}
