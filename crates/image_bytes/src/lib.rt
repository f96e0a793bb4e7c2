//! An image kept as its bytes: references to its parts, and their places.
//!
//! A reference (`RoutineRef`, `ProcessRef`) holds the numbers of a part and borrows its trees;
//! `specs/Fields.antt` says which bytes these are, `specs/Standing.antt` which part a reference
//! stands for. Ranges are not asked again, and reading never fails: whoever calls knows which part
//! the bytes begin with (`specs/Reads.antt`).
//!
//! `places_of` finds where parts begin from the image alone, by adding up lengths (`AreOf` of
//! `specs/Places.antt`; `specs/Placing.antt` for one loop). An `ImageBytes` holds the bytes in
//! version 2, the names and these places, and is seen as the image whose bytes they are
//! (`specs/Kept.antt`).
#![tactic(auto)]

mod code;
mod counted;
mod finding;
mod image_bytes_image;
mod instrs;
mod lists;
mod monitors;
mod names;
mod numbers;
mod parts;
mod places;
mod process;
mod processes;
mod reading;
mod reference;
mod routine;
mod routines;

pub use finding::places_of;
pub use image_bytes_image::ImageBytes;
pub use instrs::instr_has_words;
pub use monitors::monitor_is_read;
pub use numbers::HandlerNumbers;
pub use places::PartOffsets;
pub use process::process_at;
pub use processes::process_is_read;
pub use reference::{ProcessRef, RoutineRef};
pub use routine::routine_at;
pub use routines::routine_is_read;
