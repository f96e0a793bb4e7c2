//! `EdfImage`, the type of images that may run under earliest deadline first, whoever made them.
//!
//! An `EdfImage` is a `Shape` of `image_loaded` without a WAIT instruction, whose dispatches take no
//! ticks, and whose demand the test says is met. `EdfImage::admit` gives one exactly of such a shape
//! (`specs/Admitted.antt`), and tells of each other what it lacks (`specs/EdfAnswers.antt`).
//! `EdfImage::of_admitted` takes an image that is known to be one, as that of a text whose demand
//! `edf` has judged; `judge_image` is the test, of both.
//!
//! `EdfImage::over` gives its run over a script, which `command_perform` puts as those of the
//! commands; every such run is safe and meets its deadlines (`EdfImage::runs_meet_deadlines`).
#![tactic(auto)]

pub mod admission_law;
mod asking;
mod edf_fault;
mod edf_image;
mod file;
mod run;
mod waiting;

pub use asking::judge_image;
pub use edf_fault::EdfFault;
pub use edf_image::EdfImage;
pub use file::images_of_files_can_be_run;
