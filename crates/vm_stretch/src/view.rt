//! How a process stands.

/// How a process stands between two ticks.
#[derive(Clone, Copy)]
pub enum View {
    /// No activation is in progress.
    Idle,
    /// It is ready at the instruction with the address `at`, inside that monitor or none. `left`
    /// are the ticks of dispatch that it still burns, or else those left of the instruction.
    Ready {
        at: usize,
        left: u32,
        inside: Option<u16>,
    },
    /// It waits on a condition, and times out at the tick `due`.
    Waiting {
        condition: u16,
        due: u64,
    },
}
