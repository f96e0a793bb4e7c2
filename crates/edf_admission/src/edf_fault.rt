//! Why a shape may not run under earliest deadline first.

use out_of_memory::OutOfMemory;
use sched_demand::Judgement;
use thiserror::Error;

/// Why a shape was refused.
#[derive(Clone, Copy, Debug, PartialEq, Eq, Error)]
pub enum EdfFault {
    /// Its code has a WAIT instruction; the first one is at the address.
    #[error("waits at {at}")]
    Waits { at: u32 },
    /// It waits nowhere, but a dispatch takes this many ticks.
    #[error("overhead {over}")]
    Overhead { over: u16 },
    /// It waits nowhere and has no overhead, but the test of its demand does not say that it is
    /// feasible.
    #[error("the demand is not known to be met")]
    Unfit(Judgement),
    /// There was not enough memory for the test.
    #[error("out of memory")]
    Memory(OutOfMemory),
}
