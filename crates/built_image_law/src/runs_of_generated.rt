//! Law: what the generator makes of a checked program is its code.
//!
//! `specs/Runs.antt` has it, of a checked program that is not too large. That this code does what
//! the program says is a law of `code_correct`. Nothing here can run.

ghost use Rattle.built_image_law.specs.Runs.{CheckedCodeIsCode};

/// An image that holds what is made of a checked program that is not too large is its code.
pub fn what_is_made_of_a_checked_program_is_its_code()
    ensures { CheckedCodeIsCode }
{
    crate::premises_of_laws::checked_programs_are_ready();
    crate::code_of_program::what_is_generated_is_code();
}
