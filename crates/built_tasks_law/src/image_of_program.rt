//! Laws: what is made of a checked program is its image.
//!
//! `specs/Images.antt` has them: an image that holds the code of a checked program, with the ranks
//! and ceilings that validity asks, is an image of the program as the law of its runs takes it.
//! Nothing here can run.
//!
//! The laws.

ghost use Rattle.built_tasks_law.specs.Images.{CheckedCodeIsAnImage, CheckedImagesAreImages};

use crate::ranks_and_ceilings::{ceilings_are_of_the_meaning, ranks_are_of_the_meaning};
use built_image_law::premises_of_laws::checked_programs_are_ready;

/// An image that is the code of a checked program, with the ranks and ceilings that validity asks,
/// is its image.
pub fn checked_code_is_an_image()
    ensures { CheckedCodeIsAnImage }
{
    checked_programs_are_ready();
    ranks_are_of_the_meaning();
    ceilings_are_of_the_meaning();
}

/// So is an image that is made of it.
pub fn checked_images_are_images()
    ensures { CheckedImagesAreImages }
{
    checked_code_is_an_image();
}
