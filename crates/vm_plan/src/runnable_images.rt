//! Law: every valid image that a file holds can be run.
//!
//! A run asks more of an image than that it is valid: its numbers are in the ranges of their
//! fields, it has a plan, and it has a name for each part. `specs/PlanLaws.antt` says that this holds
//! of each image that bytes hold and that is valid. Nothing here can run.
//!
//! The law.

ghost use Rattle.vm_plan.specs.PlanLaws.{ValidImagesReadAreReady};

/// Every valid image that a file holds, whoever made it, has its numbers in the ranges of their
/// fields, a plan, and a name for each part.
pub fn valid_images_read_are_ready()
    ensures { ValidImagesReadAreReady }
{}
