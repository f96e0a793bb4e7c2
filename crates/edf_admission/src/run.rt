//! The run of an admitted image.

ghost use Rattle.std.specs.Prelude.{◌≡◌};
ghost use Rattle.command_answers.specs.Acts.{CanRun, by_deadlines};
ghost use Rattle.edf_admission.specs.Ready.{CanBeRun};
ghost use Rattle.vm_law.specs.Suits.{Suits};
ghost use Rattle.vm_releases.specs.Begin.{script_of};

use crate::EdfImage;
use command_answers::{PreparedRun, RunnableImage};
use edf_machine::runnable_law::{waitless_runs_are_runnable, waitless_runs_have_lines};
use script::Script;

impl EdfImage {
    /// The run of the image under earliest deadline first over a script, which the machine can
    /// make, and `command_perform` puts.
    ///
    /// Both conditions are met where the image is one that a file holds, and the script is one that
    /// `read_script` gives for its names (`images_of_files_can_be_run`).
    pub fn over(self, script: Script) -> PreparedRun
        requires image { CanBeRun self }
        // its lines are in order, it respects the frames, and it ends by tick 1,000,000,000
        requires script { Suits self.image (script_of script) }
        ensures run { result ≡ by_deadlines self script }
        ensures can { CanRun result }
    {
        self.runs_meet_deadlines();
        self.is_admitted();
        waitless_runs_are_runnable();
        waitless_runs_have_lines();
        PreparedRun {
            image: RunnableImage::Deadlines(self.into_image()),
            script,
        }
    }
}
