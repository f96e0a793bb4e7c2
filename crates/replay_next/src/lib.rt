//! The next visible action of a process, calls included.
//!
//! `next_action` equals the next action of the source meaning, for every tree, every memory and
//! every depth of calls: the visible action, the calls in progress after it, and the variables. The
//! configuration is only read.
//!
//! A run goes in small steps (`Step` of `remains`), each by a function that calls none of its own
//! kind: an expression is evaluated part by part, but for one over names and literals alone, which
//! is answered at once (`at_once`). What remains of it, of its statement and of its call stands in
//! lists (`specs/Remains.antt`), as do the callers that wait for a function or a procedure
//! (`specs/Driving.antt`). So the stack that a run takes does not grow with the program.
//! How much is left to do falls with each step (`specs/Weights.antt`).
#![tactic(auto)]

mod at_once;
mod beginning;
mod binding;
mod calling;
mod depth;
mod driving;
mod evaluating;
mod items;
mod next;
mod remains;
mod results;
mod storing;
mod telling;
mod visible;

pub use depth::routine_count;
pub use next::next_action;
