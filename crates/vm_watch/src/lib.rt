//! The state of the machine where a run stops, told in lines.
//!
//! `command_due` says where a run stops and which lines tell its state there. `watch` lets the
//! machine take its turns up to that tick, keeps the last 16 events in a ring, and promises just
//! these lines.
//!
//! `view`, `word`, `monitor_word` and `occupant` look at a machine between turns, and answer as the
//! definitions of `vm_stretch` say. `inspect` has the laws: processes and monitors have as many
//! words as they declare, and an instruction that is completed has its effect then.
#![tactic(auto)]

mod course;
mod events;
pub mod inspect;
mod monitors;
mod names;
mod processes;
mod state;
mod told;
mod watching;

pub use events::{put_recent, put_tick};
pub use monitors::{monitor_word, occupant};
pub use processes::{view, word};
pub use state::{put_monitor, put_process};
pub use watching::watch;
