//! Refusals, with the message for a person.
//!
//! A call that is refused puts the line of a fault, and a person is told the fault's message. Both
//! are made where the call is refused. `specs/Told.antt` says which message is that of which line:
//! of a program text, of a task table, of an image or its text, of a script, of a log.
//! `specs/Refusals.antt` says of each call, by what its files hold, which of these it may be, for
//! which names a script was read, and by which program and script a log was judged (`IsToldOf`).
//! Of a log that is that of no run the reason is told too (`IsRefusedFor` of `replay_reason_spec`).
//!
//! The calls here make the acts that several commands have: for a program text and for a script
//! that are refused. The message is put in place of what the given text holds. The only error is
//! want of memory, and then the text says nothing.
#![tactic(auto)]

mod scripts;
mod texts;

pub use scripts::refuse_script;
pub use texts::{refuse_bytes, refuse_text};
