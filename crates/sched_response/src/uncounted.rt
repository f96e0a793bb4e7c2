//! The least bound for a caller that counts nothing.

ghost use Rattle.std.specs.Prelude.{◌≡◌, ◌<◌, ℕ, length, IfSome, IfNone};
ghost use Rattle.sched_response.specs.Demand.{Solves, IsBound};

use crate::least::bound;
use crate::{Steps, TaskSet};
use std::marker::Brand;
use std::sync::ledger::{Blank, Ledger};

/// The bound, over a new count.
fn with_count<L: Ledger>(blank: Blank, set: &TaskSet, level: usize) -> Option<u64>
    requires name { blank.name ≡ L.name }
    requires parts { blank.parts ≡ L.parts }
    requires some { 0 < L.parts }
    requires level { level < length set.now }
    ensures some { IfSome result (IsBound set.now level) }
    ensures none { IfNone result ((r : ℕ) → ¬ Solves set.now level r) }
{
    bound(set, level, &mut Steps::<L>::open(blank))
}

/// The least response of 1 tick up to the deadline that meets the recurrence of the level, and None
/// exactly where there is none.
pub fn bound_of(set: &TaskSet, level: usize) -> Option<u64>
    requires { level < length set.now }
    ensures some { IfSome result (IsBound set.now level) }
    ensures none { IfNone result ((r : ℕ) → ¬ Solves set.now level r) }
{
    with_count::<Brand>(Blank::new(1), set, level)
}
