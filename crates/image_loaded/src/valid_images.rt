//! Valid images.

ghost use Rattle.std.specs.Prelude.{◌≡◌, IfOk, IfSome};
ghost use Rattle.image.specs.Bytes.{Second, bytes_of};
ghost use Rattle.image.specs.InRange.{IsInRange};
ghost use Rattle.image.specs.Raw.{image_of, named_of};
ghost use Rattle.image_loaded.specs.Answers.{Loads, Verifies};
ghost use Rattle.image_loaded.specs.Shape.{AreOfValid, IsImage};
ghost use Rattle.image_reader.specs.Answer.{Holds};
ghost use Rattle.loader.specs.Verified.{HasRanges};
ghost use Rattle.machine_semantics.specs.Image.{Script};
ghost use Rattle.sched_timing.specs.Timed.{IsInTime, RespectsFrames};
ghost use Rattle.valid_image.specs.Valid.{IsValid};
ghost use Rattle.valid_image_law.specs.ValidLaw.{IsSafe};

use crate::fault::{FileFault, ValidFault};
use crate::reading::{kept, read, second};
use image::{ImageNames, RawImage};
use image_bytes::ImageBytes;
use image_reader_law::{images_read_are_in_their_ranges, images_read_can_be_written};
use out_of_memory::OutOfMemory;
use std::alloc::Global;
use std::marker::Model;
use valid_image_law::validity_law::every_valid_image_is_safe_and_in_time;
use validity_parts::part_fault;

/// A valid image that files hold, whoever made it, kept as its bytes in version 2.
#[derive(Drop)]
pub struct Image {
    image: ImageBytes,
}

impl Model for Image {
    ghost use Rattle.image.specs.Named.{NamedImage};
    ghost use Rattle.image_format.specs.TreeCode.{coded_segs};
    ghost use Rattle.image_loaded.specs.Shape.{IsImage};
    ghost use Rattle.std.specs.Coded.{codes};

    ghost Value = { NamedImage };

    ghost coded = { Prim.hlevel (codes, coded_segs) };

    ghost view = { λ i. i.image };

    ghost invariant = { λ i. IsImage i.image };
}

/// The image of numbers that are valid. Its bytes are taken where they are there.
fn valid(alloc: Global, bytes: Option<Vec<u8>>, raw: RawImage) -> Result<Image, OutOfMemory>
    requires ranges { HasRanges raw }
    requires written { IsInRange (named_of raw) }
    requires file { AreOfValid (bytes_of Second (named_of raw)) (named_of raw) }
    requires bytes { IfSome bytes (λ own. own.items ≡ bytes_of Second (named_of raw)) }
    ensures { IfOk result (λ image. image ≡ named_of raw) }
{
    let image = kept(alloc, bytes, raw)?;
    Ok(Image { image })
}

/// The image of numbers, where they are valid. Its bytes are taken where they are there.
fn verified(alloc: Global, bytes: Option<Vec<u8>>, raw: RawImage) -> Result<Image, ValidFault>
    requires ranges { HasRanges raw }
    requires written { IsInRange (named_of raw) }
    requires again { IsValid (image_of raw) → Holds (bytes_of Second (named_of raw)) raw }
    requires bytes { IfSome bytes (λ own. own.items ≡ bytes_of Second (named_of raw)) }
    ensures { Verifies raw result }
{
    match part_fault(alloc, &raw)? {
        None => Ok(valid(alloc, bytes, raw)?),
        Some(fault) => Err(ValidFault::Invalid { raw, fault }),
    }
}

impl Image {
    /// The valid image that the bytes of a file are, in either version.
    ///
    /// It keeps the bytes where they are in version 2, and else those that the image has in version
    /// 2; while it tests, it takes some few times their memory.
    ///
    /// # Errors
    ///
    /// `Image` exactly where the bytes are no image, with their first fault; `Invalid` exactly
    /// where they are one that is not valid, with the first test that fails in the order of the
    /// tests 6, 1, 7, 2, 3, 4, 5. `Memory` where there is not enough memory.
    pub fn load(alloc: Global, bytes: Vec<u8>) -> Result<Image, FileFault>
        ensures { Loads bytes.items result }
    {
        let raw = read(alloc, bytes.as_slice())?;
        let own = second(bytes, &raw);
        Ok(verified(alloc, own, raw)?)
    }

    /// The valid image of these numbers, which their bytes in version 2 have to hold, as those do
    /// of every image that a text tells.
    ///
    /// # Errors
    ///
    /// `Invalid` exactly where they are not valid, with the first test that fails in the order of
    /// the tests 6, 1, 7, 2, 3, 4, 5. `Memory` where there is not enough memory.
    pub fn verify(alloc: Global, raw: RawImage) -> Result<Image, ValidFault>
        requires { Holds (bytes_of Second (named_of raw)) raw }
        ensures { Verifies raw result }
    {
        images_read_are_in_their_ranges();
        images_read_can_be_written();
        verified(alloc, None, raw)
    }

    /// The image of these numbers, which the caller has proved to be valid, as those of every
    /// program that is in time. Nothing is tested: it is the one way to an image without the tests.
    /// An error says that memory is short.
    pub fn of_valid(alloc: Global, raw: RawImage) -> Result<Image, OutOfMemory>
        requires { AreOfValid (bytes_of Second (named_of raw)) (named_of raw) }
        ensures { IfOk result (λ image. image ≡ named_of raw) }
    {
        images_read_are_in_their_ranges();
        images_read_can_be_written();
        valid(alloc, None, raw)
    }

    /// The image as it stands in its bytes.
    pub fn image(&self) -> &ImageBytes
        ensures { result.now ≡ self.now }
    {
        &self.image
    }

    /// The bytes of its file, in version 2.
    pub fn bytes(&self) -> &[u8]
        ensures { result.now ≡ bytes_of Second self.now }
    {
        self.image.bytes()
    }

    /// The names of its parts.
    pub fn names(&self) -> &ImageNames
        ensures { result.now ≡ self.now.names }
    {
        self.image.names()
    }

    /// It is valid, its numbers are in their ranges, and its bytes are a file of it. The call does
    /// nothing.
    pub fn is_valid(&self)
        ensures { IsImage self.now }
    {
        let _image = &self.image;
    }

    /// Every run of a valid image is safe: it is never stuck, each process is within its stack and
    /// its words, and those inside monitors are apart and ready. Over a script that respects the
    /// frames it is in time: no process is released before it has ended, and each activation ends
    /// within its declared bound. The call does nothing.
    pub fn runs_are_safe(&self)
        ensures safe { (script : Script) → IsSafe self.now.image script }
        ensures in_time { (script : Script) → RespectsFrames self.now.image script →
            IsInTime self.now.image script }
    {
        let _image = &self.image;
        every_valid_image_is_safe_and_in_time();
    }
}
