//! The meaning of a program: which lists of events are its runs.
//!
//! `specs/Source.antt` says which event is allowed next (`Step`) and which lists of events are runs
//! (`IsSourceRun`), over configurations (`Config`), values and silent statements (`Run`), the next
//! action of a process (`Next`), ranks and ceilings (`Ranks`) and the start events that are due
//! (`Starts`). `specs/Nesting.antt` says when routines have levels.
//!
//! `specs/Any.antt` leaves open which ready process acts; `specs/Verdicts.antt` says what the
//! verdict on a list of events is. No address, stack, instruction or cost is spoken of. The
//! definitions alone stand here.
#![tactic(auto)]

mod verdict;

pub use verdict::Verdict;
