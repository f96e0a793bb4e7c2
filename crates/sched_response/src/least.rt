//! The least bound, with each evaluation counted.

ghost use Rattle.std.specs.Prelude.{◌+◌, ◌≤◌, ◌<◌, ℕ, length, take, IfSome, IfNone};
ghost use Rattle.sched_response.specs.Demand.{Solves, IsBound, starts_in, deadline_at};

use crate::{Steps, TaskSet, demand, response_floor};
use std::sync::ledger::Ledger;

/// The least response of 1 tick up to the deadline that meets the recurrence of the level, iterated
/// from below: from the floor of its responses, so that a level that hardly gets the processor is
/// not searched in small steps.
///
/// None exactly where there is none. The evaluations of the demand are at most two more than the
/// activations that the tasks up to the level start within the deadline of the level.
pub fn bound<L: Ledger>(set: &TaskSet, level: usize, steps: &mut Steps<L>) -> Option<u64>
    requires { level < length set.now }
    ensures some { IfSome result (IsBound set.now level) }
    ensures none { IfNone result ((r : ℕ) → ¬ Solves set.now level r) }
    ensures cost { steps.new ≤ steps.old + (2 +
        starts_in (deadline_at set.now level) (take (level + 1) set.now)) }
{
    let limit = set.limit(level);
    let Some(mut response) = response_floor(set, level) else {
        return None;
    };
    let mut asked = demand(set, level, response, steps);
    while response < asked {
        if asked > limit {
            return None;
        }
        response = asked;
        asked = demand(set, level, response, steps);
    }
    Some(response)
}
