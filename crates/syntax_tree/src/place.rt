//! Places in a text.

/// A place in a text: its line and its byte in that line, both from 1. A line ends with LF.
#[derive(Clone, Copy, Debug, PartialEq, Eq)]
pub struct Place {
    pub line: u32,
    pub col: u32,
}
