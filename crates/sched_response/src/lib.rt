//! The recurrence, least bounds; ranks, ceilings, blocking.
//!
//! The family Schedulability: the analysis, over numbers of tasks, and its theorems, over abstract
//! runs. `sched_response` has the model and finds the least bounds, `sched_theorem` proves that
//! they hold, `sched_timing` that runs of the machine are such runs; `sched_sensitivity` and
//! `sched_demand` are the two further tests, `sched_table` what is shown.
//!
//! `specs/Demand.antt` is the recurrence of the response times, in which suspension counts as
//! execution and blocking is added once for each wait (Burns and Wellings). `specs/Ranked.antt` has
//! ranks by deadlines, immediate ceilings and blocking, `specs/Floor.antt` where the search begins.
//!
//! `bound` gives exactly the least bound within the deadline, and none exactly where there is none,
//! within a bound on evaluations; the other calls give exactly what is defined. That the cap
//! changes no answer is a law.
#![tactic(auto)]

mod floor;
mod least;
mod ranking;
mod response;
mod steps;
mod tasks;
mod uncounted;
mod uses;

pub use floor::response_floor;
pub use least::bound;
pub use ranking::ranks_are_counted;
pub use response::capping_changes_no_answer;
pub use steps::Steps;
pub use tasks::{Task, TaskSet, demand};
pub use uncounted::bound_of;
pub use uses::{Stay, Use};
