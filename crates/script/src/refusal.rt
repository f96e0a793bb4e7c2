//! The numbers of the faults of a script, as refusals tell them behind an `S`.

/// The line is in no form.
pub const FORM: u8 = 1;
/// There is no in device, or no event, of the name.
pub const UNKNOWN: u8 = 2;
/// The tick is below that of the line before; an end is not above it.
pub const EARLY: u8 = 3;
/// The event occurs less than a frame after its last occurrence.
pub const SOON: u8 = 4;
/// A line follows the end, or there is no end.
pub const END: u8 = 5;
/// The text has more bytes or more lines than a script may have.
pub const LONG: u8 = 6;
