//! Whether events are a run, and why they are none.

use crate::reason::Reason;

/// Whether a list of events is a run; where it is none, the line that is refused, the first being
/// 1, and why.
#[derive(Drop)]
pub enum Finding {
    Run,
    Refused { line: u32, reason: Reason },
}
