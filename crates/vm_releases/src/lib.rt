//! The start events of a tick: script lines, releases, time-outs.
//!
//! `Timers` keeps what comes when: slots of due ticks in a heap, the lines of the script that are
//! done, and the order in which processes start. `Timers::begin` does the lines of the tick, then
//! the periodic releases in the order of the text, then the time-outs in the order of ranks, and
//! moves their slots on. The board is then the state after the start events of the meaning, their
//! events are told, and the slots are right again.
//!
//! `specs/Order.antt` says what the order is, and `specs/Begin.antt` what is asked before.
#![tactic(auto)]

mod clock;
mod lines;
mod order;
mod release;
mod time_out;
mod timers;

pub use order::StartOrder;
pub use timers::Timers;
