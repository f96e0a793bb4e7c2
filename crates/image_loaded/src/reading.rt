//! Reading the bytes of files.

ghost use Rattle.std.specs.Prelude.{◌≡◌, IfOk, IfSome, IsTrue};
ghost use Rattle.image.specs.Bytes.{Second, bytes_of};
ghost use Rattle.image.specs.InRange.{IsInRange};
ghost use Rattle.image.specs.Raw.{image_of, named_of};
ghost use Rattle.image_reader.specs.Answer.{Holds};
ghost use Rattle.image_loaded.specs.Answers.{Reads};
ghost use Rattle.valid_image.specs.Valid.{HasLimits};

use image::RawImage;
use image_bytes::ImageBytes;
use image_reader::{ImageFault, read_image};
use image_reader_law::stored_images::images_read_are_held_again;
use image_reader_law::{
    images_read_are_in_their_ranges, images_read_are_written, images_read_can_be_written,
};
use out_of_memory::OutOfMemory;
use std::alloc::Global;

/// The image that the bytes are, whose numbers are in the ranges of their fields.
pub(crate) fn read(alloc: Global, bytes: &[u8]) -> Result<RawImage, ImageFault>
    ensures { Reads bytes.now result }
{
    images_read_are_in_their_ranges();
    images_read_can_be_written();
    images_read_are_held_again();
    read_image(alloc, bytes)
}

/// Whether the bytes of an image that was read are in version 2.
fn are_second(bytes: &[u8], raw: &RawImage) -> bool
    requires { Holds bytes.now raw.now }
    ensures { IsTrue result → bytes.now ≡ bytes_of Second (named_of raw.now) }
{
    images_read_are_written();
    match bytes.get(5) {
        Some(version) => *version == 2,
        None => false,
    }
}

/// The bytes of an image that was read, where they are in version 2.
pub(crate) fn second(bytes: Vec<u8>, raw: &RawImage) -> Option<Vec<u8>>
    requires { Holds bytes.items raw.now }
    ensures { IfSome result (λ own. own.items ≡ bytes_of Second (named_of raw.now)) }
{
    if are_second(bytes.as_slice(), raw) {
        Some(bytes)
    } else {
        None
    }
}

/// An image that was read, kept as its bytes; they are taken where they are there, and else written.
pub(crate) fn kept(
    alloc: Global,
    bytes: Option<Vec<u8>>,
    raw: RawImage,
) -> Result<ImageBytes, OutOfMemory>
    requires limits { HasLimits (image_of raw) }
    requires written { IsInRange (named_of raw) }
    requires bytes { IfSome bytes (λ own. own.items ≡ bytes_of Second (named_of raw)) }
    ensures { IfOk result (λ image. image ≡ named_of raw) }
{
    match bytes {
        Some(bytes) => ImageBytes::keeping(alloc, bytes, raw),
        None => ImageBytes::of(alloc, raw),
    }
}
