//! Law: processes that each ask for a small share of the shortest frame all respond within it.
//!
//! `specs/Light.antt` says what a light image is. Nothing is to run.
//!
//! The law.

ghost use Rattle.load_law.specs.Light.{LightImagesRespond};

/// Each process of a light image responds within one share for each process, by the recurrence of
/// its rank (Burns and Wellings).
pub fn light_images_respond()
    ensures { LightImagesRespond }
{}
