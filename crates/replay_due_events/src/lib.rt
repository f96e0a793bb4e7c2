//! Start events that are due and have not come.
//!
//! `Timetable` keeps how each process is released and the order of ranks (`specs/Timings.antt`).
//! `first_due` is the first start event that is due at a tick and has not come, exactly as the
//! meaning lists them; `no_overdue_start` tells whether one is missing before a tick. `next_due` has the laws, and
//! what it means that an event is accepted (`specs/Accepts.antt`).
#![tactic(auto)]

mod clock;
mod due_starts;
pub mod next_due;
mod no_overdue_start;
mod timetable;

pub use clock::quiet_until;
pub use due_starts::{Start, by_event, has_acted, is_released_at};
pub use no_overdue_start::is_none_missing_before;
pub use timetable::{Timetable, Timing};
