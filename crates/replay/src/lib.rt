//! The verdict on a log, and what is due of the command.
//!
//! `start` makes of a program what its events are judged by, and the configuration before the first
//! event. `judge` of `judge_events` judges the events in turn: the verdict of the meaning, and
//! where it refuses a line the reason (`Finds` of `specs/Findings.antt` in `replay_reason_spec`),
//! which `replay_reason` finds. Time is not asked.
//!
//! `prepare_replay` reads and judges the program first, the script where the program has no fault,
//! the log where the script has none, and leaves what is due of them (`command_due`).
#![tactic(auto)]

mod configuration;
pub mod frames_pass_law;
mod free_monitors;
mod jobs;
mod judge_events;
mod judge_log;
mod logs;
mod names;
mod order;
mod preparing;
mod processes;
mod queues;
mod ranks;
mod replaying;
mod sources;
mod starting;
mod tables;
mod timings;

pub use judge_events::judge;
pub use preparing::prepare_replay;
pub use ranks::ranks_of;
pub use replaying::replay;
pub use starting::start;
