//! Why a list of events is no run of a program, found.
//!
//! `find_reason` takes a program that runs (`Running` of `replay_accept`), the script, and the
//! events from the one on that is not allowed, and answers the reason that is defined (`IsReason`
//! of `replay_reason_spec`). It lets start events come that the log lacks, so the configuration is
//! another one afterwards; the replay is over. Want of memory is the only error.
//!
//! The tick of the next start event is found by halving, with the test of `replay_due_events`
//! whether one is missing before a tick (`next_start`). `missing` lets them come one by one;
//! `allowed` is the next action of the process that is to act. `specs/Following.antt` has what is
//! kept meanwhile.
#![tactic(auto)]

mod acting;
mod allowed;
mod coming;
mod missing;
mod next_start;
mod reason;

pub use reason::find_reason;
