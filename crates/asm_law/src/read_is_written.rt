//! Law: a text that is read as an image is the text of that image, and the image can be written.
//!
//! `specs/AsmSound.antt` ties the texts that `assembler` says are read to those that
//! `asm_format` says are written: a text of which the parts of an image are read is the text of
//! the image that has them; and where the text has less than 2 ^ 32 bytes, each field of the image
//! is in its range, so that it has bytes. Nothing here can run.
//!
//! The law.

ghost use Rattle.asm_law.specs.AsmSound.{TextsReadAreWritten};

/// A text that is read as an image is the text of that image; and each field of the image is in
/// its range, where the text has less than 2 ^ 32 bytes.
pub fn texts_read_are_written()
    ensures { TextsReadAreWritten }
{}
