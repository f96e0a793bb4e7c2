//! Law: the image that a file holds can be written.
//!
//! `read_image` of `image_reader` tells which image the bytes are, by their format (`Holds`);
//! `IsInRange` of `image` is what `write_image` asks of an image, so that each count fits its
//! field. The law stands in `specs/ImageRanges.antt`; nothing here can run.
//!
//! The law.

ghost use Rattle.image_reader_law.specs.ImageRanges.{ImagesReadCanBeWritten};

/// Whatever image a file holds, its counts fit their fields, so it can be written.
pub fn images_read_can_be_written()
    ensures { ImagesReadCanBeWritten }
{}
