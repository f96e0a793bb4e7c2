//! Laws: the image that is built of a checked program is made of it.
//!
//! `specs/Made.antt` has the laws: least bounds are bounds, words of a well-formed program are few,
//! and so what `built_image` calls the image of a program is what
//! `built_image_law::premises_of_laws` asks of one. Nothing here can run.
//!
//! The laws.

ghost use Rattle.built_valid_law.specs.Made.{BuiltImagesAreMade, LeastBoundsAreBounds, WordsAreFew};

use built_image_law::premises_of_laws::checked_programs_are_ready;
use built_image_law::runs_of_generated::what_is_made_of_a_checked_program_is_its_code;

/// The least bounds of an image with ranks by deadlines are its bounds.
pub fn least_bounds_are_bounds()
    ensures { LeastBoundsAreBounds }
{}

/// The image of a well-formed program has at most 1,048,576 words.
pub fn words_are_few()
    ensures { WordsAreFew }
{}

/// The image that is built of a checked program that is small enough is made of it.
pub fn built_images_are_made()
    ensures { BuiltImagesAreMade }
{
    checked_programs_are_ready();
    what_is_made_of_a_checked_program_is_its_code();
    least_bounds_are_bounds();
    words_are_few();
}
