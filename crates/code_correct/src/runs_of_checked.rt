//! The laws. These functions do nothing; their contracts are the laws.

ghost use Rattle.code_correct.specs.Ready.{CheckedProgramsRun};

use crate::runs_right_and_in_time::well_formed_programs_run;
use built_image_law::premises_of_laws::checked_programs_are_ready;

/// Every run of the image of a checked program, over a script that respects its frames, is a run of
/// the program, and in time.
pub fn checked_programs_run()
    ensures { CheckedProgramsRun }
{
    checked_programs_are_ready();
    well_formed_programs_run();
}
