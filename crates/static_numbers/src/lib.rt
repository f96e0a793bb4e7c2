//! Rules for declarations: bounds, frames, deadlines, counts.
//!
//! `specs/Rules.antt` lists the rules by number: bounds of types (`specs/Types.antt`), frames,
//! deadlines, first activations, events and the numbers of handlers (`specs/Processes.antt`), how
//! much there may be (`specs/Counts.antt`).
//!
//! Each of five groups goes once through the declarations; `first_broken` joins them: the failure
//! that comes first, and none exactly where no rule fails.
//!
//! The tests are public, with what they ask for: `message_rules` tells by them what is wrong. So is
//! the walk over the bounds of types, `visit_bounds`, by what is done at each pair
//! (`BoundsVisitor`).
#![tactic(auto)]

mod activations;
mod bounds;
mod counts;
mod events;
mod handlers;
mod limits;
mod places;
mod visit;
mod words;

pub use activations::{bad_deadline, bad_first, bad_frame, deadline_of, frame_of};
pub use bounds::{Bounds, crossed, too_long};
pub use counts::{MOST_CONDITIONS, MOST_OF_A_KIND, MOST_ROUTINES, at_none, one_too_many};
pub use events::misused;
pub use handlers::bad_handled;
pub use limits::first_broken;
pub use places::NamePlaces;
pub use visit::{BoundsVisitor, visit_bounds};
pub use words::{too_many_words, variable_words};
