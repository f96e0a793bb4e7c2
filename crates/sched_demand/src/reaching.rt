//! The length of the row that has to be tested.

ghost use Rattle.std.specs.Prelude.{◌≡◌, ◌≤◌, ◌<◌, ℕ, IfSome, IfNone};
ghost use Rattle.sched_demand.specs.Demand.{points, AreTasks, IsReach};
ghost use Rattle.sched_demand.specs.Reaching.{IsSpan};

use crate::looking::{asked_in, count, most_block};
use crate::tasks::DemandTask;

/// A row that has to be tested.
#[derive(Clone, Copy)]
pub(crate) struct Span {
    /// Its length.
    pub reach: u64,
    /// The points in it, those of each task counted by themselves.
    pub points: u64,
}

/// The row that has to be tested, iterated from below; None exactly where it has more than
/// 1,000,000 points.
pub(crate) fn find_span(tasks: &[DemandTask]) -> Option<Span>
    requires { AreTasks tasks.now }
    ensures some { IfSome result (IsSpan tasks.now) }
    ensures none { IfNone result ((reach : ℕ) → IsReach tasks.now reach → 1000000 <
        points tasks.now reach) }
{
    let block = most_block(tasks);
    let mut reach = 1;
    let mut asked = block + asked_in(tasks, reach);
    let mut points = count(tasks, reach);
    while points <= 1_000_000 {
        if asked <= reach || reach == 1_000_000_000 {
            return Some(Span { reach, points });
        }
        reach = if asked < 1_000_000_000 {
            asked
        } else {
            1_000_000_000
        };
        asked = block + asked_in(tasks, reach);
        points = count(tasks, reach);
    }
    None
}
