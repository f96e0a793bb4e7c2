//! What a process is doing.

/// A wait in a condition's queue.
#[derive(Clone, Copy)]
pub struct Wait {
    pub released: u64,
    pub condition: usize,
    /// The tick of the wait.
    pub since: u64,
    /// After how many ticks more it times out.
    pub limit: u32,
    /// The exception that a time-out raises.
    pub number: u32,
}

/// What a process is doing: nothing, its work since a release, or waiting.
#[derive(Clone, Copy)]
pub enum Activity {
    Idle,
    Active { released: u64 },
    Waiting(Wait),
}
