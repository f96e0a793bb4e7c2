//! Where instructions follow one another in a frame.

/// The address of the instruction, the ticks of it that have passed, and how many operands the
/// innermost frame has.
#[derive(Clone, Copy)]
pub(crate) struct Cursor {
    pub(crate) place: usize,
    pub(crate) done: u32,
    pub(crate) top: usize,
}
