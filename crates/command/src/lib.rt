//! The top call: every command, from its words to its status; `make`.
//!
//! `command::rte` promises that every call went as `Went` of `command_answers` says, by what is due
//! of what its files hold, whatever files and sink do, and that statuses 0 and 3 say what `Promise`
//! of `command_answers` has. `preparing` reads and judges for each command; `carry` is the call
//! without what the laws say of it.
//!
//! `command::whole_call` is what `main` does, over any files and any sink: it lends `rte` a buffer,
//! writes what waits at the end, and answers 7 where that fails. All that `rte` promises of its sink,
//! it promises of the sink below the buffer. `specs/Settled.antt` says what the end of a buffer comes
//! to. Last it tells a person, by another sink, why the call ended: `specs/Told.antt` has the message
//! of each status.
//!
//! `making` is `make`: `specs/Due.antt` says what the line of a load tells, `specs/Made.antt` what
//! each status says of the call. The texts are those of a timely program and of a script for it
//! whatever the key (`load_law`), so no status is left but 0, 7 and 8.
#![tactic(auto)]

mod call;
mod carry;
mod log;
mod making;
mod preparing;
mod summing;
mod system;
mod telling;
mod texts;
mod whole;

pub use call::rte;
pub use making::make;
pub use preparing::prepare;
pub use system::system_words;
pub use telling::words_are_short;
pub use whole::whole_call;
