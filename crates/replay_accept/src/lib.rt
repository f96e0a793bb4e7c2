//! Whether an event is allowed next, and the configuration after it.
//!
//! `Running` holds the tables of a program and its configuration. `accept` takes the event exactly
//! where the source meaning has a step by it, and the configuration is then the one after it; else
//! it is as it was (`Accepts` of `replay_due_events`). `specs/Judged.antt` has the order of the
//! tests: its tick, start events that are due, the process that is to act, what its next action
//! tells.
//!
//! The script is a `ScriptCursor` of `replay_script`, which passes its lines as ticks are reached;
//! until when nothing starts is told by `replay_script`. `is_told` and `may_act` test an act, `act`
//! does it (`specs/Effects.antt`); what is known without a run is done where the calls stand
//! (`specs/Directly.antt`). `come` lets a start event come, `next_of_process` gives what a process
//! does next. Where memory is wanting the configuration is as it was.
#![tactic(auto)]

mod act_events;
mod as_defined;
mod begin;
mod directly;
mod effects;
mod giving;
mod perform;
pub mod queue;
mod rules;
mod running;
mod saving;
mod source_actions;
mod starting;
mod telling;

pub use act_events::{is_ready, next_of_process};
pub use perform::{act, may_act};
pub use rules::Rules;
pub use running::Running;
pub use starting::{come, is_release};
pub use telling::is_told;
