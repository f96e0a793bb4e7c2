//! Law: of a checked program that keeps to the two rules of size, what the generator makes can be
//! put into an image: it has a part for each text, and each number fits its field.
//!
//! `specs/Assembled.antt` has the law. Nothing here can run.
//!
//! The laws. These functions do nothing; their contracts are the laws.

ghost use Rattle.compile.specs.Assembled.{CheckedProgramsFitFields, MadeHasParts};

use built_image_law::premises_of_laws::checked_programs_are_ready;

/// What is made of a program has a part for each of its texts.
pub fn made_programs_have_parts()
    ensures { MadeHasParts }
{}

/// Each number of a checked program that keeps to the rules of size fits its field of the image.
pub fn checked_programs_fit_fields()
    ensures { CheckedProgramsFitFields }
{
    checked_programs_are_ready();
}
