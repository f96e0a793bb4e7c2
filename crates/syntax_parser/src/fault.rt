//! Why tokens have no tree.

use out_of_memory::OutOfMemory;
use syntax_tree::Place;
use thiserror::Error;

/// Why a text was refused.
#[derive(Debug, Drop, Error)]
pub enum SyntaxFault {
    /// The first token with which the tokens read no longer begin a program, or the text's end.
    #[error("E10 {}:{}", .0.line, .0.col)]
    Syntax(Place),
    /// The token that opens level 65 of nesting.
    #[error("E11 {}:{}", .0.line, .0.col)]
    Nesting(Place),
    /// There was not enough memory for the tree.
    #[error("out of memory")]
    Memory(OutOfMemory),
}

/// Why reading stopped. A fault has the number of tokens that are left from its own on.
#[derive(Drop)]
pub enum Refusal {
    Memory(OutOfMemory),
    Syntax { left: usize },
    Nesting { left: usize },
}

/// What was read; a refusal returns from the function. It is `?` with no conversion of the refusal,
/// which spares the proof of each function that reads the steps of one.
macro_rules! tri {
    ($read:expr) => {
        match $read {
            Ok(it) => it,
            Err(refusal) => return Err(refusal),
        }
    };
}

/// What was made or stored; where there is no memory for it the function returns so. It spares what
/// `tri` does.
macro_rules! made {
    ($made:expr) => {
        match $made {
            Ok(it) => it,
            Err(error) => return Err(Refusal::Memory(out_of_memory::OutOfMemory::from(error))),
        }
    };
}

pub(crate) use made;
pub(crate) use tri;
