//! The laws.

ghost use Rattle.code_correct.specs.Small.{GeneratedCodeIsFaithful};

use built_image_law::generated_within_limits::programs_that_keep_sizes_are_small;

/// In it the code of each process does what its text says.
pub fn generated_code_is_faithful()
    ensures { GeneratedCodeIsFaithful }
{
    programs_that_keep_sizes_are_small();
    crate::runs_of_generated::what_is_made_of_a_checked_program_is_faithful();
}
