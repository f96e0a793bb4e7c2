//! A script, passed line by line; what devices answer over it; until when nothing starts.
//!
//! `ScriptCursor` passes the lines of a script as ticks are reached, and keeps the words that they
//! set, so that each line of a script in order is looked at a few times, not once an event.
//! `specs/Cursors.antt` says which lines are passed (`IsCursor`, `IsAt` a tick, `IsWithin` one): to
//! the meaning of programs those that are left release what all release, and devices answer the
//! words that are kept until one of those sets them. `specs/Devices.antt` has what one line makes
//! of an answer.
//!
//! Promised: `pass` comes to the tick, with the lines before it passed; `up_to` gives lines that
//! leave the same due up to a tick as the whole script does; `device_value` is what the source
//! meaning says that the device answers.
//!
//! What is known of start events to come is kept as one tick: after the tick reached and before that
//! one neither the clock nor a wait starts a process (`IsQuiet` of `replay_due_events`). So a test
//! whether one is missing looks at the lines of the script alone, where it asks no further.
//! Promised: before the tick that `next_start_after` gives, once a process has acted, neither starts
//! a process; nor before the one of `free_until`, counted from the first tick at which a start event
//! can be missing.
#![tactic(auto)]

mod cursor;
mod device;
mod quiet;

pub use cursor::ScriptCursor;
pub use device::device_value;
pub use quiet::{free_until, next_start_after};
