//! What a run tells: the events of its log.
//!
//! A log is a list of events, each an act of one process at a tick. Devices, monitors and
//! conditions are named by their numbers in the order of the program text, from 0; conditions
//! are counted through all monitors.
//!
//! An event, and what a process does in it.

/// What a process does, or what befalls it.
#[derive(Clone, Copy, Debug, Default, PartialEq, Eq)]
pub enum Act {
    /// A new activation begins.
    #[default]
    Release,
    /// The wait on the condition is over, and its exception number is raised.
    TimeOut { cond: u16, number: u16 },
    /// Reads a word from an in device.
    Get { dev: u16, value: i32 },
    /// Writes a word to an out device.
    Put { dev: u16, value: i32 },
    /// Enters a monitor, at first or again after a wait.
    Enter { mon: u16 },
    /// Leaves a monitor at the end of an entry.
    Leave { mon: u16 },
    /// Leaves the monitor and joins the condition's queue.
    Wait { cond: u16 },
    /// Takes the first process, if any, out of the condition's queue.
    Signal { cond: u16, woken: Option<u16> },
    /// Takes all processes, `count` of them, out of the condition's queue.
    Broadcast { cond: u16, count: u16 },
    /// Asks whether the condition's queue is empty.
    Empty { cond: u16, answer: bool },
    /// Raises an exception.
    Raise { number: u16 },
    /// The activation ends.
    End,
}

/// An act of a process at a tick.
#[derive(Clone, Copy, Debug, Default, PartialEq, Eq)]
pub struct Event {
    pub tick: u64,
    pub proc: u16,
    pub act: Act,
}
