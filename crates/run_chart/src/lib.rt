//! The chart of a run: what each process does, tick by tick, in letters; its lines.
//!
//! `specs/Letters.antt` says which letter a process has in a tick, and which of these a column of
//! ticks shows; `specs/Spans.antt` how wide the columns are; `specs/Responses.antt` how long an
//! activation takes; `specs/Chart.antt` the lines. `Letter` and `Columns` are what code has of
//! them.
//!
//! The lines are made of what is kept of each process while its run is drawn: `columns_of` gives
//! the columns, a `Trace` keeps what a chart shows of a process, from letter to letter and from
//! event to event (`specs/Traces.antt`). `vm_chart` puts the lines of all.
#![tactic(auto)]

mod column_widths;
mod columns;
mod letter;
mod letters;
mod trace;

pub use column_widths::{columns_of, end_of, first_tick};
pub use columns::Columns;
pub use letter::Letter;
pub use letters::letter_of_picked;
pub use trace::Trace;
