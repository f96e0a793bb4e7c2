//! The next action of a process, found without a run where that is possible.
//!
//! Most of what a process does next is a put that is its next statement, or the end of its last
//! call. These two are known without a run (`DirectAction`), where the value that is put is a
//! literal or a variable of the process: nothing is copied to find them, and `pass_put` and
//! `end_calls` do them where the calls stand. Of all else `replay_next` finds the next action.
//! `found_action` gives the next action of the source meaning in either way (`found_next` of
//! `specs/Direct.antt`).
#![tactic(auto)]

mod direct;
mod found;
mod passing;

pub use direct::DirectAction;
pub use found::{FoundAction, found_action};
pub use passing::{end_calls, pass_put};
