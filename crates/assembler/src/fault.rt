//! Why a text tells no image.

use out_of_memory::OutOfMemory;
use thiserror::Error;

/// The number of the fault of a text that is too long.
pub const LONG_TEXT: u8 = 3;

/// Why a text was refused. A fault of the text prints as its number and its line.
#[derive(Clone, Copy, Debug, Error)]
pub enum AssemblyFault {
    /// The first faulty line, counted from 1, and the least number of its faults: 1 where it has no
    /// form of its place, 2 where a number, a name or a list of it is out of its range. The number
    /// is 3, and the line 0, where the text is too long.
    #[error("A{number} {line}")]
    Bad { number: u8, line: u32 },
    /// There was not enough memory for the image.
    #[error("out of memory")]
    Memory(OutOfMemory),
}
