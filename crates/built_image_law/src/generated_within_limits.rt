//! Law: what the generator makes of a checked program that keeps the rules of size is its code.
//!
//! `specs/Small.antt` has it: where none of the rules of size fails, a checked program is small
//! enough for the generator. So an image that holds what is made of it is its code. Nothing here
//! can run.

ghost use Rattle.built_image_law.specs.Small.{GeneratedCodeIsCode, ProgramsThatKeepSizesAreSmall};

/// A checked program that keeps the rules of size is small enough for the generator.
pub fn programs_that_keep_sizes_are_small()
    ensures { ProgramsThatKeepSizesAreSmall }
{
    crate::premises_of_laws::checked_programs_are_ready();
}

/// An image that holds what is made of it is its code.
pub fn generated_code_is_code()
    ensures { GeneratedCodeIsCode }
{
    programs_that_keep_sizes_are_small();
    crate::runs_of_generated::what_is_made_of_a_checked_program_is_its_code();
}
