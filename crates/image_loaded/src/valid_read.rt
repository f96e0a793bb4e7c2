//! Law: every valid image that a file holds is safe, and in time.
//!
//! `specs/ValidRead.antt` joins the law of valid images with the one that the numbers of an image that
//! was read are in the ranges of their fields, so that nothing is asked of an image but that it is
//! valid. Nothing here can run.
//!
//! The law. The function does nothing; its contract is the law.

ghost use Rattle.image_loaded.specs.ValidRead.{EveryValidImageReadIsSafeAndInTime};

/// Every valid image that is read from bytes is safe over every script, and in time over every
/// script that respects its frames.
pub fn every_valid_image_that_is_read_is_safe_and_in_time()
    ensures { EveryValidImageReadIsSafeAndInTime }
{
    image_reader_law::images_read_are_in_their_ranges();
    valid_image_law::validity_law::every_valid_image_is_safe_and_in_time();
}
