//! Law: the text of an image is read as that image.
//!
//! `specs/AsmReads.antt` ties the lines that `asm_format` gives to an image to those that
//! `assembler` reads: the text of each image whose fields are in their ranges is read as the
//! parts of that image, with no fault. Nothing here can run.
//!
//! The law.

ghost use Rattle.asm_law.specs.AsmReads.{TextsWrittenAreRead};

/// The text of an image whose fields are in their ranges is read as that image.
pub fn texts_written_are_read()
    ensures { TextsWrittenAreRead }
{}
