//! Law: every run of a text whose demand is met keeps what is promised (`specs/FeasibleTexts.antt`).

ghost use Rattle.edf_correct.specs.FeasibleTexts.{FeasibleTextsKeepTheirWord};

use crate::edf_waits::waitless_trees_have_no_wait;
use crate::text_to_runs::edf_images_keep_their_word;

/// Of a text whose demand is met, every run of its image over a script for its names meets the
/// deadlines.
pub fn feasible_texts_keep_their_word()
    ensures { FeasibleTextsKeepTheirWord }
{
    edf_images_keep_their_word();
    waitless_trees_have_no_wait();
}
