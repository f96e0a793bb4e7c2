//! Where a run stops to be watched.

/// Where a run stops to be watched.
#[derive(Clone, Copy)]
pub enum Breakpoint {
    /// Before a tick, from 0 to 1,000,000,000.
    Tick(u64),
    /// Right after the first effect of the instruction at an address, from 0 to 65534.
    Effect(u32),
}
