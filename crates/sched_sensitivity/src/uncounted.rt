//! What a level can spare, for a caller that counts nothing.

ghost use Rattle.std.specs.Prelude.{◌≡◌, ◌<◌, length, IfSome, IfNone};
ghost use Rattle.sched_sensitivity.specs.Slack.{IsSpare, IsTimely};

use crate::spare::{Spare, slack};
use sched_response::{Steps, TaskSet};
use std::marker::Brand;
use std::sync::ledger::{Blank, Ledger};

/// The spare ticks, over a new count.
fn with_count<L: Ledger>(blank: Blank, set: &mut TaskSet, level: usize) -> Option<Spare>
    requires name { blank.name ≡ L.name }
    requires parts { blank.parts ≡ L.parts }
    requires some { 0 < L.parts }
    requires level { level < length set.old }
    ensures kept { set.new ≡ set.old }
    ensures none { IfNone result (¬ IsTimely set.old) }
    ensures some { IfSome result (IsSpare set.old level) }
{
    slack(set, level, &mut Steps::<L>::open(blank))
}

/// The ticks that the level can spare, and None exactly where some level has no bound. The set is
/// afterwards as before.
pub fn slack_of(set: &mut TaskSet, level: usize) -> Option<Spare>
    requires { level < length set.old }
    ensures kept { set.new ≡ set.old }
    ensures none { IfNone result (¬ IsTimely set.old) }
    ensures some { IfSome result (IsSpare set.old level) }
{
    with_count::<Brand>(Blank::new(1), set, level)
}
