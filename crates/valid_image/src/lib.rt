//! When an image is valid, and the fault of another; its tasks.
//!
//! An image is numbers from any hand. It is valid where each of seven tests passes. Each test is a
//! function of the image to its first fault, with the two numbers that are shown, so that one
//! definition says when it fails and what it then shows. `specs/Valid.antt` has the whole, and the
//! order of the tests; `specs/Tasks.antt` what the processes of an image ask of the processor, for
//! the recurrence.
//!
//! The definitions alone stand here. What a valid image keeps to is in `valid_image_law`; images
//! that are valid, and near misses, in `machine_safety`.
#![tactic(auto)]
