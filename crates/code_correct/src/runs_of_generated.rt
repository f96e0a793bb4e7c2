//! The laws.

ghost use Rattle.code_correct.specs.Runs.{CheckedCodeIsFaithful};

/// In it the code of each process does what its text says.
pub fn what_is_made_of_a_checked_program_is_faithful()
    ensures { CheckedCodeIsFaithful }
{
    built_image_law::premises_of_laws::checked_programs_are_ready();
    built_image_law::code_of_program::what_is_generated_is_code();
    crate::process_code_law::program_code_is_faithful();
}
