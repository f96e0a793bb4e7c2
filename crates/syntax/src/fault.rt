//! Why a text has no tokens.

use out_of_memory::OutOfMemory;
use thiserror::Error;

/// Why a text was refused. A place is a line and a byte in that line, both from 1. A fault of the
/// text prints as its number and its place.
#[derive(Debug, Drop, Error)]
pub enum LexFault {
    /// A byte that begins no blank, no comment and no token.
    #[error("E1 {line}:{col}")]
    Byte { line: u32, col: u32 },
    /// A literal above 2147483647.
    #[error("E2 {line}:{col}")]
    Literal { line: u32, col: u32 },
    /// An identifier of more than 63 bytes.
    #[error("E3 {line}:{col}")]
    Ident { line: u32, col: u32 },
    /// A text of more than 1,048,576 bytes.
    #[error("E4 1:1")]
    Long,
    /// There was not enough memory for the tokens.
    #[error("out of memory")]
    Memory(OutOfMemory),
}
