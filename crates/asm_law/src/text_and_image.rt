//! Laws: texts and images belong together.
//!
//! `specs/AsmLaws.antt` has them: what is read of a text is the image whose text it is; that image is
//! one, and bytes hold it; a text that is that of an image has no fault, and another has one. They
//! join `read_is_written`, `written_is_read` and `text_length`. Nothing here can run.
//!
//! The laws.

ghost use Rattle.asm_law.specs.AsmLaws.{ImagesToldAreHeld, TextsAreOfOneImage, TextsHaveOneFault, TextsOfImagesHaveNoFault, TextsReadAreOfImages};

use crate::{texts_hold_their_bytes, texts_read_are_written, texts_written_are_read};
use image_reader_law::images_written_are_read;

/// An image that is read of a text is the one whose text it is.
pub fn texts_read_are_of_images()
    ensures { TextsReadAreOfImages }
{
    texts_read_are_written();
}

/// A text is that of one image.
pub fn texts_are_of_one_image()
    ensures { TextsAreOfOneImage }
{
    texts_written_are_read();
}

/// The bytes of an image that a text tells hold it.
pub fn images_told_are_held()
    ensures { ImagesToldAreHeld }
{
    texts_hold_their_bytes();
    images_written_are_read();
}

/// A text that is that of an image has no fault.
pub fn texts_of_images_have_no_fault()
    ensures { TextsOfImagesHaveNoFault }
{
    texts_written_are_read();
}

/// A text has one fault.
pub fn texts_have_one_fault()
    ensures { TextsHaveOneFault }
{}
