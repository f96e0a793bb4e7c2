//! What the analysis asks of each process.

use base::Cost;
use syntax_tree::List;

/// How long a process stays inside a monitor, at most, in one call of an entry that it reaches.
#[derive(Clone, Copy, Debug, PartialEq, Eq)]
pub struct Stay {
    /// The monitor's number, from 0 in the order of the text.
    pub mon: u16,
    /// In ticks, capped.
    pub ticks: u64,
}

/// What a process uses.
#[derive(Drop)]
pub struct Use {
    /// The ticks from one release to the next, at least.
    pub frame: u64,
    /// Within how many ticks of its release an activation has to end.
    pub deadline: u64,
    /// What one activation costs at most, capped.
    pub cost: Cost,
    /// The stays of the entries that it reaches through calls from its body or handler.
    pub stays: List<Stay>,
}
