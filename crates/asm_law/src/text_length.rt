//! Law: an image whose text is short enough for a file has no more bytes than an image may have.
//!
//! `text_of` of `asm_format` tells the lines of an image, `bytes_of` of `image` its bytes.
//! Only an instruction has far more bytes than its line, and instructions are few; every other part
//! has about as many bytes as text, or fewer. The law stands in `specs/AsmSize.antt`; nothing here can
//! run.
//!
//! The law.

ghost use Rattle.asm_law.specs.AsmSize.{TextsHoldTheirBytes};

/// The image of a text of at most 8,388,608 bytes, its fields in their ranges, has no more bytes
/// than an image may have.
pub fn texts_hold_their_bytes()
    ensures { TextsHoldTheirBytes }
{}
