//! Why bytes are no image.

use out_of_memory::OutOfMemory;
use thiserror::Error;

/// What a call gives; an error of it returns from the function. It is `?` with no conversion of the
/// error, which spares the proof of each function that has many.
macro_rules! tri {
    ($called:expr) => {
        match $called {
            Ok(it) => it,
            Err(error) => return Err(error),
        }
    };
}

/// What a call gives that takes no memory; a fault of it returns from a function that takes some.
macro_rules! tri_fault {
    ($called:expr) => {
        match $called {
            Ok(it) => it,
            Err(fault) => return Err(ReadError::Fault(fault)),
        }
    };
}

/// What a call gives that can only lack memory; a lack of it returns from a function that reads.
macro_rules! tri_memory {
    ($called:expr) => {
        match $called {
            Ok(it) => it,
            Err(error) => return Err(ReadError::Memory(error)),
        }
    };
}

pub(crate) use tri;
pub(crate) use tri_fault;
pub(crate) use tri_memory;

/// Why bytes were refused. A fault of the bytes prints as its number and its offset.
#[derive(Clone, Copy, Debug, Error)]
pub enum ImageFault {
    /// The bytes are no image: the first fault, by its number and its place from 0.
    #[error("I{number} {offset}")]
    Bad { number: u8, offset: u32 },
    /// There was not enough memory for the image.
    #[error("out of memory")]
    Memory(OutOfMemory),
}
