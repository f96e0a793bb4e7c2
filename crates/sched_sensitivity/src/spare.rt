//! The ticks that a level can spare: level by level, by bisection.

ghost use Rattle.std.specs.Prelude.{◌≡◌, ◌+◌, ◌*◌, ◌≤◌, ◌<◌, ◌⊎◌, length, IfSome, IfNone};
ghost use Rattle.sched_response.specs.Demand.{task_at};
ghost use Rattle.sched_sensitivity.specs.Slack.{evaluations, evaluations_at, with_more, IsFirstFailing, IsSpare, IsSpareFrom, IsTimely, Responds};

use crate::failing::{bound_with, first_failing};
use sched_response::{Steps, TaskSet};
use std::sync::ledger::Ledger;

/// What a level can spare.
#[derive(Clone, Copy)]
pub struct Spare {
    /// The most ticks that can be added to the run of the level's task while each level has a
    /// bound.
    pub extra: u64,
    /// The least level without a bound where one more is added.
    pub fails: usize,
}

/// The most ticks that can be added to the run of the level's task while the other level has a
/// bound, which it has not with
/// `failing`.
fn greatest_extra<L: Ledger>(
    set: &mut TaskSet,
    level: usize,
    other: usize,
    failing: u64,
    steps: &mut Steps<L>,
) -> u64
    requires level { level < length set.old }
    requires other { other < length set.old }
    requires room { (task_at set.old level).run + failing ≤ 1000000001 }
    requires fits { Responds (with_more set.old level 0) other }
    requires fails { ¬ Responds (with_more set.old level failing) other }
    ensures kept { set.new ≡ set.old }
    ensures below { result < failing }
    ensures fits { Responds (with_more set.old level result) other }
    ensures fails { ¬ Responds (with_more set.old level (result + 1)) other }
    ensures cost { steps.new ≤ steps.old + 30 * evaluations_at set.old other }
{
    let mut extra = 0;
    let mut too_many = failing;
    while too_many - extra > 1 {
        let middle = extra + (too_many - extra) / 2;
        match bound_with(set, level, middle, other, steps) {
            None => too_many = middle,
            Some(_bound) => extra = middle,
        }
    }
    extra
}

/// What the level can spare as far as the other level asks too, by what those after it ask.
fn lessened<L: Ledger>(
    set: &mut TaskSet,
    level: usize,
    other: usize,
    least: Spare,
    steps: &mut Steps<L>,
) -> Spare
    requires timely { IsTimely set.old }
    requires level { level < length set.old }
    requires other { other < length set.old }
    requires room { (task_at set.old level).run + (least.extra + 1) ≤ 1000000001 }
    requires after { IsSpareFrom set.old level (other + 1) least }
    ensures kept { set.new ≡ set.old }
    ensures less { result.extra ≤ least.extra }
    ensures from { IsSpareFrom set.old level other result }
    ensures cost { ((result.fails ≡ least.fails) ×
        (steps.new ≤ steps.old + evaluations_at set.old other))
        ⊎ ((result.fails ≡ other) × (steps.new ≤ steps.old + 31 * evaluations_at set.old other)) }
{
    match bound_with(set, level, least.extra, other, steps) {
        Some(_bound) => least,
        None => Spare {
            extra: greatest_extra(set, level, other, least.extra, steps),
            fails: other,
        },
    }
}

/// What the level can spare, with a level that fails with one tick more. The last levels come
/// first: mostly they ask most.
fn least_extra<L: Ledger>(set: &mut TaskSet, level: usize, steps: &mut Steps<L>) -> Spare
    requires timely { IsTimely set.old }
    requires level { level < length set.old }
    ensures kept { set.new ≡ set.old }
    ensures room { (task_at set.old level).run + (result.extra + 1) ≤ 1000000001 }
    ensures from { IsSpareFrom set.old level level result }
    ensures cost { steps.new + evaluations set.old result.fails ≤ steps.old +
        31 * evaluations set.old (length set.old) }
{
    let mut least = Spare {
        extra: set.limit(level) - set.run(level),
        fails: level,
    };
    for other in (level..set.levels()).rev() {
        least = lessened(set, level, other, least, steps);
    }
    least
}

/// The first level without a bound where one tick more is added than the level can spare.
fn first_with_more<L: Ledger>(
    set: &mut TaskSet,
    level: usize,
    least: Spare,
    steps: &mut Steps<L>,
) -> usize
    requires timely { IsTimely set.old }
    requires level { level < length set.old }
    requires room { (task_at set.old level).run + (least.extra + 1) ≤ 1000000001 }
    requires from { IsSpareFrom set.old level level least }
    ensures kept { set.new ≡ set.old }
    ensures first { IsFirstFailing (with_more set.old level (least.extra + 1)) result }
    ensures cost { steps.new ≤ steps.old + evaluations set.old least.fails }
{
    for other in level..least.fails {
        let Some(_bound) = bound_with(set, level, least.extra + 1, other, steps) else {
            return other;
        };
    }
    least.fails
}

/// The ticks that the level of a timely set can spare.
fn spare_of_timely<L: Ledger>(set: &mut TaskSet, level: usize, steps: &mut Steps<L>) -> Spare
    requires timely { IsTimely set.old }
    requires level { level < length set.old }
    ensures kept { set.new ≡ set.old }
    ensures spare { IsSpare set.old level result }
    ensures cost { steps.new ≤ steps.old + 31 * evaluations set.old (length set.old) }
{
    let least = least_extra(set, level, steps);
    let fails = first_with_more(set, level, least, steps);
    Spare {
        extra: least.extra,
        fails,
    }
}

/// The ticks that the level can spare, and None exactly where some level has no bound. Levels count
/// from 0.
///
/// The stays and blocks stay as they are: the ticks lie outside monitors. The evaluations of the
/// demand are at most 32 times the sum, over all levels, of what `bound` may take there. The set is
/// afterwards as before.
pub fn slack<L: Ledger>(set: &mut TaskSet, level: usize, steps: &mut Steps<L>) -> Option<Spare>
    requires { level < length set.old }
    ensures kept { set.new ≡ set.old }
    ensures none { IfNone result (¬ IsTimely set.old) }
    ensures some { IfSome result (IsSpare set.old level) }
    ensures cost { steps.new ≤ steps.old + 32 * evaluations set.old (length set.old) }
{
    if first_failing(set, steps).is_some() {
        return None;
    }
    Some(spare_of_timely(set, level, steps))
}
