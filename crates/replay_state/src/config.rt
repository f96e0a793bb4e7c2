//! The configuration.

use crate::call::Call;
use crate::doing::Activity;
use crate::variables::Slot;

/// A process: its variables, what it is doing, its calls in progress, the innermost first, and
/// whether its handler runs.
#[derive(Drop)]
pub struct ProcessState<'a> {
    pub vars: Vec<Slot<'a>>,
    pub doing: Activity,
    pub calls: Vec<Call<'a>>,
    pub handling: bool,
}

/// A monitor: its variables, and the process inside it.
#[derive(Drop)]
pub struct MonitorState<'a> {
    pub vars: Vec<Slot<'a>>,
    pub occupant: Option<usize>,
}

/// The tick reached, whether somebody has acted in it, and processes, monitors and queues by
/// number.
#[derive(Drop)]
pub struct Config<'a> {
    pub tick: u64,
    pub acted: bool,
    pub jobs: Vec<ProcessState<'a>>,
    pub holds: Vec<MonitorState<'a>>,
    /// By condition the processes that wait, the first to be taken out first.
    pub queues: Vec<Vec<usize>>,
}
