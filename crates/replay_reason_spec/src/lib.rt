//! Why a list of events is no run of a program.
//!
//! The family Replay: the source meaning in code, by which a log is judged. Where a log is
//! refused, a person is told the reason: `replay_reason` finds it, `message_log` tells it.
//!
//! `specs/Missing.antt` says which start events are due and have not come, in the order in which
//! they would come. `specs/Reasons.antt` says which `Reason` is that of the events from a
//! configuration on, the first that applies. An event that a program does is a `SourceEvent`
//! (`specs/Events.antt`): its numbers are as wide as the configuration in code has them, and a
//! log's are not. A `Finding` is a verdict with the reason (`specs/Findings.antt`).
//!
//! The definitions alone stand here, with what follows from them in `proofs/`: the start event
//! that is due next is one event (`Next`), the missing ones begin with it (`Listing`), of ready
//! processes one is the first (`Firsts`), and what is found is what is judged (`Judging`).
#![tactic(auto)]

mod event;
mod finding;
mod reason;

pub use event::{SourceAct, SourceEvent};
pub use finding::Finding;
pub use reason::Reason;
