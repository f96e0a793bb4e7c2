//! Laws: the bytes that are stored of a program hold its image.
//!
//! Names come from the tokens of the text and the rules for names; numbers from the rules, from
//! what the image declares, and from its validity; operands from the generator; how deep trees nest
//! from the levels of the grammar. Nothing here can run.
//!
//! The laws.

ghost use Rattle.replay_law.specs.Stored.{BuiltImagesAreHeld, BuiltImagesAreRanged};

use crate::names_are_words::names_of_texts_are_identifiers;
use crate::operand_words::made_code_has_words;
use built_image_law::generated_within_limits::programs_that_keep_sizes_are_small;
use built_image_law::premises_of_laws::checked_programs_are_ready;
use built_valid_law::image_of_program::built_images_are_made;
use built_valid_law::runnable_image::built_images_are_ready;
use code_measures::declared_images_valid::code_has_its_length;
use image_reader_law::stored_images::valid_images_are_held;
use wellformed_law::{declarations_are_listed, names_are_found};

/// Each field of the image that is built of a program that is written, with an overhead of at most
/// 1,000 ticks, is in its range.
pub fn built_images_are_ranged()
    ensures { BuiltImagesAreRanged }
{
    checked_programs_are_ready();
    programs_that_keep_sizes_are_small();
    built_images_are_made();
    built_images_are_ready();
    code_has_its_length();
    names_of_texts_are_identifiers();
    made_code_has_words();
    names_are_found();
    declarations_are_listed();
}

/// So the bytes that are stored of it hold it, and it is valid.
pub fn built_images_are_held()
    ensures { BuiltImagesAreHeld }
{
    built_images_are_ranged();
    built_images_are_ready();
    valid_images_are_held();
}
