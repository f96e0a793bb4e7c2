//! Laws of the source meaning: one next configuration; worked logs.
//!
//! Promised: a configuration and an event lead to at most one configuration, and values do not
//! depend on the depth of calls. Each worked log of `logs` is a run of its program, or is none.
#![tactic(auto)]

pub mod determinism;
pub mod logs;
