//! The test.

ghost use Rattle.std.specs.Prelude.{ℕ};
ghost use Rattle.sched_demand.specs.Demand.{AreTasks, IsJudged, IsReach};
ghost use Rattle.sched_demand.specs.Reaching.{IsSpan};

use crate::looking::look_at;
use crate::reaching::{Span, find_span};
use crate::tasks::{DemandSet, DemandTask};
use base::OVER;

/// What the test answers.
#[derive(Clone, Copy, Debug, PartialEq, Eq)]
pub enum Judgement {
    /// The demand is met at each of so many points.
    Feasible {
        /// The points, those of each task counted by themselves.
        points: u64,
    },
    /// The demand is not met at a point.
    Late {
        /// The points, those of each task counted by themselves.
        points: u64,
        /// The least point at which it is not met.
        at: u64,
        /// The demand there, where a number above 1,000,000,000 is 1,000,000,001.
        demand: u64,
    },
    /// There are more than 1,000,000 points.
    Many,
}

/// Whether the demand is met at each point of the row, from the first on.
fn judge_row(tasks: &[DemandTask], row: Span) -> Judgement
    requires tasks { AreTasks tasks.now }
    requires row { IsSpan tasks.now row }
    ensures { IsJudged tasks.now row.reach result }
{
    let points = row.points;
    let mut at = tasks[0].deadline;
    while at <= row.reach {
        let seen = look_at(tasks, at);
        if seen.demand > at {
            let demand = if seen.demand < OVER {
                seen.demand
            } else {
                OVER
            };
            return Judgement::Late { points, at, demand };
        }
        at = seen.next;
    }
    Judgement::Feasible { points }
}

/// Whether the demand of the set is met at each point.
pub fn judge(set: &DemandSet) -> Judgement
    ensures { (reach : ℕ) → IsReach set.now reach → IsJudged set.now reach result }
{
    let tasks = set.tasks();
    match find_span(tasks) {
        None => Judgement::Many,
        Some(row) => judge_row(tasks, row),
    }
}
