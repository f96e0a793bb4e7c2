//! The numbers of the faults of bytes that are no image, as refusals tell them behind an `I`.

/// The bytes do not begin as an image of a known version.
pub const NO_IMAGE: u8 = 1;
/// The bytes end inside a field.
pub const ENDS: u8 = 2;
/// More bytes follow an image.
pub const MORE: u8 = 3;
/// A number is out of its range.
pub const RANGE: u8 = 4;
/// A name is no identifier, is a keyword, or is taken.
pub const NAME: u8 = 5;
/// There is no kind, or no instruction, of the number.
pub const KIND: u8 = 6;
/// A field that says nothing here is not 0.
pub const NOT_ZERO: u8 = 7;
/// The numbers of a handler do not rise, or one of them is none that a handler may take.
pub const HANDLER: u8 = 8;
/// There are more bytes than an image may have.
pub const LONG: u8 = 9;
