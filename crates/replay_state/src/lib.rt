//! The configuration of a program, its changes, who is to act.
//!
//! The family Replay: the source meaning in code, by which a log is judged. `replay_state` keeps a
//! configuration; `replay_due_events`, `replay_calls`, `replay_calls` and `replay_next` find what
//! may come next, `replay_accept` takes an event or refuses it, `replay` judges a log.
//!
//! `specs/View.antt` says which configuration of the source meaning a `Config` stands for
//! (`config_of`): one value for one value, with nothing left out. Statements are borrowed from the
//! program's tree, none is copied. Each change is one of the meaning's own: releases and time-outs
//! (`start`), queues and exceptions (`queues`, `raising`), and the choice of the process that is to
//! act (`ranks`).
#![tactic(auto)]

mod call;
mod config;
mod doing;
mod moves;
mod queues;
mod raising;
mod ranks;
mod start;
mod turns;
mod variables;

pub use call::{Action, Call, CallOwner, Item, NextAction, ResultExpr, Target};
pub use config::{Config, MonitorState, ProcessState};
pub use doing::{Activity, Wait};
pub use moves::{beginning, set_doing, set_job};
pub use queues::{drop_all, drop_first, join, queue_at, released, take_out, wake, wake_all};
pub use raising::{AfterException, ProgramContext, count, prepare, raise};
pub use ranks::Ranks;
pub use start::{release, time_out};
pub use turns::TurnsLeft;
pub use variables::{Slot, SlotValue, Subrange, Words};
