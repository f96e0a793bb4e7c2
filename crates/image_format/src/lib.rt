//! Formats of bytes; segment trees, apart and as bytes.
//!
//! The family Images: what a file holds, when it is valid, and how it is loaded. `image` has the
//! image in memory and its bytes, `image_reader` reads them, `valid_image` says what validity is,
//! `loader_..` test it; `image_bytes` and `image_loaded` keep an image as its bytes.
//!
//! `specs/Format.antt` makes formats of fields, `specs/TreeFormat.antt` that of segment trees. A
//! format is sound (`specs/FormatLaw.antt`) where what is read is what is written, what is written
//! is read, and what is cut ends inside a field; `proofs/` shows so of each that is made of sound
//! ones, and of trees.
//!
//! A `SegTree` keeps the bytes of a whole tree, and contracts see it as that tree. A `SegBytes`
//! borrows the bytes of one and takes no memory; its items are the tree's segments from left to
//! right, with a view for each inner tree. `seg` has segments apart, as the compiler and the
//! assembler put them together.
#![tactic(auto)]

mod at;
mod bytes;
mod fault;
mod items;
mod limits;
mod put_numbers;
mod put_trees;
mod reading;
pub mod refusal;
mod seg;
mod segs;
mod tree;
mod view;

pub use at::{u8_at, u16_at, u16_below, u32_at, u32_within};
pub use fault::{ByteFault, ReadError};
pub use items::SegItems;
pub use limits::Limits;
pub use put_numbers::{put_u8, put_u16, put_u32};
pub use reading::{DEEPEST, tree_at};
pub use seg::{Arms, Inside, Seg, Segs, Turns};
pub use tree::{DEEPEST_KEPT, SegTree};
pub use view::{SegBytes, SegItem};
