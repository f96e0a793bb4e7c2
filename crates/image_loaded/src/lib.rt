//! `Image`, the type of valid images, over the bytes of a file; shapes, valid but for their bounds.
//!
//! Both hold the bytes in version 2 and the places of their parts (`image_bytes`), and are seen as
//! the image with its names. An `Image` is valid, and its bytes are a file of it (`IsImage` of
//! `specs/Shape.antt`); every run of it is safe and in time (`Image::runs_are_safe`; `valid_read`
//! has the law).
//!
//! `Image::load` promises an image exactly where bytes are a file of a valid one, and tells each
//! refusal by its first fault, first of the bytes, then of validity (`specs/Answers.antt`).
//! `Image::verify` does the same of numbers, and `Image::of_valid` takes those that are known to be
//! valid. The commands load by these, and run what was loaded.
//!
//! A `Shape` is what may be admitted to run under earliest deadline first (`edf_admission`).
//! `Shape::load` refuses as `Image::load`, but for bounds.
#![tactic(auto)]

mod fault;
mod reading;
mod shape;
mod valid_images;
pub mod valid_read;

pub use fault::{FileFault, ValidFault};
pub use shape::Shape;
pub use valid_images::Image;
