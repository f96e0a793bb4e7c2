//! Laws: texts and images belong together, and which line of a text is faulty.
//!
//! `text_and_image` joins the laws of both directions over texts: what is read of a text is the
//! image whose text it is, and a text is that of one image or has one fault. `text_length`: an
//! image whose text is short enough for a file has no more bytes than an image may have.
//!
//! `read_is_written`: a text that is read is the text of the image that is given. For each reader
//! of `asm_lines` a lemma says that what it takes is written as `asm_format` writes the part that
//! it gives, and that this part is in the ranges of its fields.
//!
//! `written_is_read`: the text of an image is read as that image. For each reader of `asm_lines` a
//! lemma says that it reads what `asm_format` writes of a part, where each field of the part is in
//! its range, and gives the part back.
//!
//! `faults_of_lines`: behind right lines, A1 exactly where a line has no form of its place, A2
//! exactly where it has, and something of it is wrong, and A3 exactly where the text is too long
//! (`specs/LinesLaw.antt`). Nothing here can run.
#![tactic(auto)]

mod faults_of_lines;
mod read_is_written;
pub mod text_and_image;
mod text_length;
mod written_is_read;

pub use faults_of_lines::{
    lacks_of_form_are_a1, long_texts_are_a3, missing_lines_lack_form, no_other_faults,
    notes_are_those_of_images, nothing_is_behind_the_end, nothing_stands_for_a_process,
    right_texts_have_no_fault, wrong_lines_are_a2, wrong_notes_are_of_images,
};
pub use read_is_written::texts_read_are_written;
pub use text_length::texts_hold_their_bytes;
pub use written_is_read::texts_written_are_read;
