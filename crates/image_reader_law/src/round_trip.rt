//! Laws: what is read of an image is what is written, and a cut image is none.
//!
//! `specs/ImageSound.antt` ties the bytes that `read_image` of `image_reader` reads to those that
//! `write_image` of `image` writes, in both versions: the bytes of a file are those of the
//! image that it holds; what is written of an image in range is read again; and bytes that are cut
//! end inside a field. Nothing here can run.
//!
//! The laws.

ghost use Rattle.image_reader_law.specs.ImageSound.{CutImagesEndInsideAField, ImagesReadAreWritten, ImagesWrittenAreRead, TreesReadAreWritten};

/// The bytes of a file are those of the image that it holds, in its version.
pub fn images_read_are_written()
    ensures { ImagesReadAreWritten }
{}

/// The bytes of an image whose fields are in their ranges are read as that image, in its version.
pub fn images_written_are_read()
    ensures { ImagesWrittenAreRead }
{}

/// The first bytes of an image, but not all, are no image's: they end inside a field.
pub fn cut_images_end_inside_a_field()
    ensures { CutImagesEndInsideAField }
{}

/// Bytes are read as a tree exactly where they begin with the bytes of that tree, so what is read
/// in place stands for the one tree whose bytes it borrows.
pub fn trees_read_are_written()
    ensures { TreesReadAreWritten }
{}
