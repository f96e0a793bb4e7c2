//! The image of a text, or the first fault of the text.
//!
//! `specs/Sections.antt` says which lines a text has, section by section, what parts of an image
//! they tell, and what is wrong with the first line that is none of them; `specs/Faults.antt` which
//! fault a text has. `asm` answers exactly that: the image, or the number and the line of the first
//! fault (`specs/Answer.antt`).
#![tactic(auto)]

mod code;
mod fault;
mod names;
mod text;
mod work;

pub use fault::{AssemblyFault, LONG_TEXT};
pub use text::asm;
