//! What start events go by.

/// How a process is released.
#[derive(Clone, Copy)]
pub enum Timing {
    /// At the tick `first`, and each `frame` ticks after it.
    Periodic { frame: u32, first: u32 },
    /// At each occurrence of the event of this number.
    AtEvent { event: usize },
}

/// How the processes are released, by number, and their numbers in rank order.
#[derive(Drop)]
pub struct Timetable {
    pub timings: Vec<Timing>,
    pub by_rank: Vec<usize>,
}
