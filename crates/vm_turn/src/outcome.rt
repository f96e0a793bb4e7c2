//! What a turn comes to.

use base::Act;
use vm_state::WaitRequest;

/// What the ticks of a process come to.
#[derive(Clone, Copy)]
pub enum Outcome {
    /// Nothing that others see.
    Goes,
    /// An act, which changes nothing more.
    Does(Act),
    /// Takes the first process out of the condition's queue.
    Signals { condition: u16 },
    /// Takes all processes out of the condition's queue.
    Broadcasts { condition: u16 },
    /// Has left the monitor, and waits.
    Waits(WaitRequest),
    /// Raises an exception.
    Raises(u16),
    /// The activation is over.
    Ends,
}
