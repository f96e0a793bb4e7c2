//! An image in memory, and the bytes that are written of it.
//!
//! `specs/Raw.antt` says what an image is to the machine: the names of its parts, its declared
//! numbers and its code; `specs/Bytes.antt` which bytes it has. `write_image` gives exactly these
//! of every image whose counts fit their fields. The bytes of two images are spelled out in
//! `known_images`.
#![tactic(auto)]

mod image;
mod known_images;
mod names;
mod numbers;
mod parts;
mod raw;

pub use image::write_image;
pub use known_images::{a_put, a_tree, an_empty_program};
pub use names::{ConditionName, DeviceName, EventName, ImageNames};
pub use raw::{RawImage, RawMonitor, RawProcess, RawRoutine};
