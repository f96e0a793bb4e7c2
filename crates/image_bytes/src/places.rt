//! Places.

use syntax_tree::List;

/// Where the parts of an image begin in its bytes, from 0: each monitor after its name, each
/// routine, each process after its name, and the code, of so many instructions.
#[derive(Debug, Drop)]
pub struct PartOffsets {
    pub monitors: List<usize>,
    pub routines: List<usize>,
    pub processes: List<usize>,
    pub code: usize,
    pub instructions: u32,
}
