//! Task tables.

use syntax_tree::{List, Name};

/// Once in each activation the process is inside the monitor for so many ticks.
#[derive(Drop)]
pub struct TaskStay {
    pub monitor: Name,
    pub ticks: u64,
}

/// A process line: a process, what releases it, and its frame, deadline, first activation and cost
/// in ticks. Without an event it is periodic. Without a deadline the frame is its deadline.
#[derive(Drop)]
pub struct TaskLine {
    pub name: Name,
    pub event: Option<Name>,
    pub frame: u64,
    pub deadline: Option<u64>,
    pub first: Option<u64>,
    pub cost: u64,
    pub stays: List<TaskStay>,
}

/// A table: its name and its process lines.
#[derive(Drop)]
pub struct TaskTable {
    pub name: Name,
    pub tasks: List<TaskLine>,
}
