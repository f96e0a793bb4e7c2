//! Verdicts on lists of events.
//!
//! Definitions alone. `specs/Verdicts.antt` says when a list of events is a run of a program over a
//! script, by the source meaning, and which line is refused where it is none.
//!
//! Verdicts.

/// Whether a list of events is a run.
#[derive(Clone, Copy)]
pub enum Verdict {
    /// It is a run.
    Run,
    /// The event on this line, the first being 1, is not allowed after those before it; or all
    /// events are allowed, a start event is missing before the end, and it is the line after them.
    Refused { line: u32 },
}
