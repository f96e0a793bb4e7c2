//! Law: what the test of the demand says of a program, it says of its image.
//!
//! `specs/Answers.antt` has it. Nothing here can run.

ghost use Rattle.edf_correct.specs.Answers.{AnswersAreOfTheImage};

use built_image_law::shape_before_times::shapes_agree;

/// What the test of the demand says of a program, it says of its image.
pub fn answers_are_of_the_image()
    ensures { AnswersAreOfTheImage }
{
    shapes_agree();
}
