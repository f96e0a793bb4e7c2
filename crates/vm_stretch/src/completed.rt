//! An instruction that had its effect.

/// The instruction whose effect comes in a tick: whose process does it, and its address.
#[derive(Clone, Copy)]
pub struct Completed {
    pub process: u16,
    pub at: usize,
}
