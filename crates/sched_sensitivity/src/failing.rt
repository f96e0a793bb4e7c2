//! Which levels have a bound.

ghost use Rattle.std.specs.Prelude.{◌≡◌, ◌+◌, ◌≤◌, ◌<◌, length, IfSome, IfNone};
ghost use Rattle.sched_response.specs.Demand.{task_at, IsBound};
ghost use Rattle.sched_sensitivity.specs.Slack.{evaluations, evaluations_at, with_more, IsFirstFailing, IsTimely, Responds};

use sched_response::{Steps, TaskSet, bound};
use std::sync::ledger::Ledger;

/// The least level without a bound, and None exactly where each level has one.
///
/// The evaluations of the demand are at most the sum of what `bound` may take at each level.
pub fn first_failing<L: Ledger>(set: &TaskSet, steps: &mut Steps<L>) -> Option<usize>
    ensures none { IfNone result (IsTimely set.now) }
    ensures some { IfSome result (IsFirstFailing set.now) }
    ensures cost { steps.new ≤ steps.old + evaluations set.now (length set.now) }
{
    for level in 0..set.levels() {
        let Some(_response) = bound(set, level, steps) else {
            return Some(level);
        };
    }
    None
}

/// The least bound of a level where the task of a level, perhaps another, runs for so many ticks
/// more. The set is afterwards as before.
pub(crate) fn bound_with<L: Ledger>(
    set: &mut TaskSet,
    level: usize,
    more: u64,
    other: usize,
    steps: &mut Steps<L>,
) -> Option<u64>
    requires level { level < length set.old }
    requires more { (task_at set.old level).run + more ≤ 1000000001 }
    requires other { other < length set.old }
    ensures kept { set.new ≡ set.old }
    ensures some { IfSome result (IsBound (with_more set.old level more) other) }
    ensures none { IfNone result (¬ Responds (with_more set.old level more) other) }
    ensures cost { steps.new ≤ steps.old + evaluations_at set.old other }
{
    let run = set.run(level);
    set.set_run(level, run + more);
    let found = bound(set, other, steps);
    set.set_run(level, run);
    found
}
