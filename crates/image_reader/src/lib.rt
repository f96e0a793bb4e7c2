//! The reader of image files, in both versions.
//!
//! `specs/Grammar.antt` and `specs/File.antt` say which fields an image has, in the order of its
//! bytes, each with its range and the number of its fault. A fault stands where its field begins,
//! and fields are read from left to right, so the first one is that at the least offset.
//! `read_image` answers exactly what these formats give.
#![tactic(auto)]

mod counts;
mod fault;
mod fields;
mod instr;
mod lists;
mod named;
mod names;
mod parts;
mod process;
mod taken;
mod trees;
mod whole_image;

pub use fault::ImageFault;
pub use instr::instr_or_end;
pub use named::{NamedMonitors, NamedProcesses};
pub use names::is_plain_name;
pub use whole_image::{Guarded, Named, Work, assemble, read_image};
