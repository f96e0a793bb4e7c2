//! The numbers of the faults of a table, as refusals tell them behind a `T`.

/// The line has no form that may stand there.
pub const FORM: u8 = 1;
/// A word in the place of a name is no name.
pub const NAME: u8 = 2;
/// A name is taken.
pub const TAKEN: u8 = 3;
/// A number is out of its range.
pub const RANGE: u8 = 4;
/// A stay or a cost cannot be met.
pub const UNMET: u8 = 5;
/// There is no process, or one process, monitor or stay too many.
pub const COUNT: u8 = 6;
/// The text has more bytes than a table may have.
pub const LONG_TABLE: u8 = 7;
