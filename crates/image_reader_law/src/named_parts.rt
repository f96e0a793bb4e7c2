//! Law: the image that a file holds has a name for each of its parts.
//!
//! `read_image` of `image_reader` tells which image the bytes are, by their format (`Holds`).
//! The law stands in `specs/ReadNames.antt`: the names are as many as the parts and short enough for a
//! line of a log, each process is released by the clock or by an event, and the frame that stands
//! at an event is that of the process that it releases. Nothing here can run.
//!
//! The law.

ghost use Rattle.image_reader_law.specs.ReadNames.{ImagesReadAreNamed};

/// Whatever image a file holds, it has as many names as parts, of at most 63 bytes, and each of its
/// conditions stands in one of its monitors.
pub fn images_read_are_named()
    ensures { ImagesReadAreNamed }
{}
