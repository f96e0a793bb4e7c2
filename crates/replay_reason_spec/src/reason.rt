//! Why events are no run.

use crate::event::SourceEvent;

/// Why the events from a configuration on are no run: of these the first that applies. Start events
/// that are missing are listed up to the ninth.
#[derive(Drop)]
pub enum Reason {
    /// There is no event left, and these start events below the script's end are missing.
    Ended {
        missing: Vec<SourceEvent>,
    },
    /// The tick of the event is not below the script's end.
    BeyondEnd {
        tick: u64,
        end: u64,
    },
    /// It is below the tick that has been reached.
    Past {
        tick: u64,
        reached: u64,
    },
    /// The event is the release that comes next, and finds this process unfinished.
    Unfinished {
        process: usize,
    },
    /// These start events are due up to its tick, and come before it.
    Missing {
        missing: Vec<SourceEvent>,
    },
    /// It is a start event, and none is due up to its tick; this one is the next below the script's
    /// end.
    NoneDue {
        tick: u64,
        next: Option<SourceEvent>,
    },
    /// Somebody has acted in its tick already.
    Acted {
        tick: u64,
    },
    /// It is not the next action, in its tick, of the process that is to act; this is, where a
    /// process is ready.
    Other {
        allowed: Option<SourceEvent>,
    },
}
