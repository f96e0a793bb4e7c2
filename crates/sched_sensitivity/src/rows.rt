//! What fits, by process.

use syntax_tree::Name;

/// What fits in the place of a suspension.
#[derive(Clone, Copy)]
pub struct SuspensionFit {
    /// The suspension as it is, in ticks, capped.
    pub ticks: u64,
    /// The greatest one that fits, and none where 0 does not.
    pub fits: Option<u64>,
}

/// What fits of a process.
#[derive(Drop)]
pub struct ProcessFit {
    /// The name of the process.
    pub name: Name,
    /// Its cost as it is, in ticks, capped.
    pub cost: u64,
    /// The greatest cost that fits, and none where 0 does not.
    pub cost_fits: Option<u64>,
    /// Its suspension, where it waits.
    pub suspension: Option<SuspensionFit>,
}
