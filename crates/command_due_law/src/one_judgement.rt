//! Law: the test under earliest deadline first says one thing of a text (`specs/Word.antt`).

ghost use Rattle.command_due_law.specs.Word.{AnswersOfTextsAreOne};

use crate::one_answer::written_once;
use crate::one_edf_answer::{answers_are_one, edf_images_are_one};

/// What the test says of a text is one.
pub fn answers_of_texts_are_one()
    ensures { AnswersOfTextsAreOne }
{
    written_once();
    edf_images_are_one();
    answers_are_one();
}
