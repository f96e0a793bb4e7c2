//! Images of files.

ghost use Rattle.std.specs.Prelude.{ℕ, List};
ghost use Rattle.script.specs.declared.script.ScriptLine.{ScriptLine};
ghost use Rattle.script.specs.Scripts.{IsScript};
ghost use Rattle.vm_law.specs.ScriptSuits.{script_with};
ghost use Rattle.vm_law.specs.Suits.{Suits};
ghost use Rattle.image_loaded.specs.Shape.{AreOf};
ghost use Rattle.edf_admission.specs.Ready.{CanBeRun};

use crate::EdfImage;
use vm_law::suitable_scripts::scripts_suit;

/// The image of a file can be run, and every script that is read for its names suits it. The call
/// does nothing.
pub fn images_of_files_can_be_run(image: &EdfImage)
    ensures can { (bytes : List ℕ) → AreOf bytes image.now → CanBeRun image.now }
    ensures scripts { (bytes text : List ℕ) (lines : List ScriptLine) (last : ℕ) →
        AreOf bytes image.now → IsScript image.now.names text lines last →
        Suits image.now.image (script_with lines last) }
{
    scripts_suit();
    image.is_admitted();
}
