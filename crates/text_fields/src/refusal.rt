//! The numbers of the faults of a line, as refusals tell them behind an `A`.

/// The line is in no form of its place.
pub const FORM: u8 = 1;
/// A number, a name or a list of the line is out of its range.
pub const RANGE: u8 = 2;
