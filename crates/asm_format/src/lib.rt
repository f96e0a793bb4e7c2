//! The lines that tell an image as text, and the text that is written of it.
//!
//! The family Assembly: an image as text, and back. `asm_format` defines the text and writes it,
//! `asm_lines` and `assembler` read it; `asm_law` proves that texts and images belong together one
//! to one.
//!
//! `specs/Text.antt` says which lines an image has, in their order, `specs/TreeText.antt` the line
//! of a segment tree, and `specs/Mnemonics.antt` that of an instruction. Words stand with one space
//! between them, numbers in decimal.
//!
//! `dis` gives these lines, of every image whose processes and monitors have names, valid or not.
#![tactic(auto)]

mod image_text;
mod instr;
mod names;
mod numbers;
mod process;
mod routine;
mod trees;

pub use image_text::dis;
