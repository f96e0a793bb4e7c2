//! Letters.

/// What a process does in a tick. Of several ticks the first of these is shown.
#[derive(Clone, Copy)]
pub enum Letter {
    /// `m`: it runs inside a monitor.
    Inside,
    /// `#`: it runs inside no monitor.
    Outside,
    /// `o`: it is picked, and burns a tick of overhead.
    Overhead,
    /// `.`: it is ready, and held up by another.
    HeldUp,
    /// `w`: it waits in a queue.
    Waits,
    /// A blank: it is idle.
    Blank,
}
