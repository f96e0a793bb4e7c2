//! Law: the image that a file holds keeps to the ranges that the tests of validity start from.
//!
//! `read_image` of `image_reader` tells which image the bytes are, by their format (`Holds`);
//! `HasLimits` of `valid_image` is what the laws ask of an image besides that it is valid. The law
//! stands in `specs/ValidLimits.antt`; nothing here can run.
//!
//! The law.

ghost use Rattle.image_reader_law.specs.ValidLimits.{ImagesReadHaveFewMonitors, ImagesReadHaveLimits};

/// Whatever image a file holds, each of its numbers that the laws of valid images speak of is in
/// the range of its field, and it has at most 64 monitors.
pub fn images_read_are_in_their_ranges()
    ensures limits { ImagesReadHaveLimits }
    ensures monitors { ImagesReadHaveFewMonitors }
{}
