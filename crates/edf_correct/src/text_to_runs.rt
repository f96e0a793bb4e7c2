//! Laws: a program without waits under earliest deadline first, from its text to its runs.
//!
//! `specs/EdfLaws.antt` has the laws: where the test of the demand says that such a program is
//! feasible, no tick of a run of its image is stuck, sizes hold, every activation ends by its
//! deadline, and the events are a run of the program in which any ready process may act. Nothing
//! here can run.

ghost use Rattle.edf_correct.specs.EdfLaws.{CompiledRunsAreRuns, EdfImagesKeepTheirWord, EdfRunsAreRight};

use crate::edf_admitted::{edf_images_are_admitted, edf_images_are_shapes, edf_scripts_suit};
use built_image_law::generated_within_limits::generated_code_is_code;
use built_image_law::premises_of_laws::checked_programs_are_ready;
use built_image_law::suitable_scripts::scripts_are_in_order;
use built_tasks_law::image_of_program::checked_code_is_an_image;
use code_correct::runs_right_and_in_time::well_formed_code_is_right;
use edf_admission::admission_law::every_admitted_shape_meets_deadlines;

/// The events of a run of an image whose code is right are a run of the program in which any ready
/// process may act.
pub fn compiled_runs_are_runs()
    ensures { CompiledRunsAreRuns }
{}

/// Every run of the image of a program without waits, whose demand is feasible, is in time and
/// size, never stuck, and a run of the program.
pub fn edf_runs_are_right()
    ensures { EdfRunsAreRight }
{
    checked_programs_are_ready();
    generated_code_is_code();
    checked_code_is_an_image();
    well_formed_code_is_right();
    edf_images_are_shapes();
    edf_images_are_admitted();
    every_admitted_shape_meets_deadlines();
    compiled_runs_are_runs();
}

/// So is every run over a script that is written for its names.
pub fn edf_images_keep_their_word()
    ensures { EdfImagesKeepTheirWord }
{
    edf_scripts_suit();
    scripts_are_in_order();
    edf_runs_are_right();
}
