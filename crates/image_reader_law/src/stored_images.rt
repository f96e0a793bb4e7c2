//! Laws: the bytes that are stored of a valid image hold it.
//!
//! Each segment of a tree stands for an instruction at least, and the pieces of a valid image's
//! code follow one another, so its trees are no larger than its code, which has at most 65,535
//! instructions. All else is counted in one or two bytes. Nothing here can run.
//!
//! The laws.

ghost use Rattle.image_reader_law.specs.Stored.{ImagesReadAreHeldAgain, ValidImagesAreHeld, ValidImagesAreShort};

use crate::images_written_are_read;

/// A valid image, its fields in their ranges, has no more bytes than an image may have.
pub fn valid_images_are_short()
    ensures { ValidImagesAreShort }
{}

/// So its bytes hold it.
pub fn valid_images_are_held()
    ensures { ValidImagesAreHeld }
{
    valid_images_are_short();
    images_written_are_read();
}

/// What is stored of a valid image that was read, in either version, holds it again.
pub fn images_read_are_held_again()
    ensures { ImagesReadAreHeldAgain }
{
    valid_images_are_held();
}
