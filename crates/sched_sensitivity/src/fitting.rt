//! What fits in the place of a number of a task: by bisection.

ghost use Rattle.std.specs.Prelude.{◌≡◌, ◌+◌, ◌*◌, ◌≤◌, ◌<◌, ◌↔◌, length, IsTrue, Some};
ghost use Rattle.sched_sensitivity.specs.Slack.{evaluations, IsTimely};
ghost use Rattle.sched_sensitivity.specs.Fit.{with_number, IsFit};
ghost use Rattle.sched_sensitivity.specs.Numbers.{number_at};

use crate::first_failing;
use sched_response::{Steps, TaskSet};
use std::sync::ledger::Ledger;

/// Which number of a task is changed.
#[derive(Clone, Copy)]
pub enum Varied {
    /// The ticks that one activation runs.
    Cost,
    /// The ticks for which one activation suspends itself.
    Suspension,
}

/// The number of the level.
fn number_of(set: &TaskSet, number: Varied, level: usize) -> u64
    requires { level < length set.now }
    ensures value { result ≡ number_at number set.now level }
    ensures range { result ≤ 1000000001 }
{
    match number {
        Varied::Cost => set.run(level),
        Varied::Suspension => set.susp(level),
    }
}

/// Sets the number of the level, and leaves all else as it is.
fn set_number(set: &mut TaskSet, number: Varied, level: usize, ticks: u64)
    requires level { level < length set.old }
    requires ticks { ticks ≤ 1000000001 }
    ensures { set.new ≡ with_number number set.old level ticks }
{
    match number {
        Varied::Cost => set.set_run(level, ticks),
        Varied::Suspension => set.set_susp(level, ticks),
    }
}

/// Whether each level has a bound with so many ticks in the place of the number. The set is
/// afterwards as before.
fn fits<L: Ledger>(
    set: &mut TaskSet,
    number: Varied,
    level: usize,
    ticks: u64,
    steps: &mut Steps<L>,
) -> bool
    requires level { level < length set.old }
    requires ticks { ticks ≤ 1000000001 }
    ensures kept { set.new ≡ set.old }
    ensures fits { IsTrue result ↔ IsTimely (with_number number set.old level ticks) }
    ensures cost { steps.new ≤ steps.old + evaluations set.old (length set.old) }
{
    let before = number_of(set, number, level);
    set_number(set, number, level, ticks);
    let fails = first_failing(set, steps);
    set_number(set, number, level, before);
    fails.is_none()
}

/// The greatest number of ticks that fits, where 0 does.
fn greatest_fit<L: Ledger>(
    set: &mut TaskSet,
    number: Varied,
    level: usize,
    steps: &mut Steps<L>,
) -> u64
    requires level { level < length set.old }
    requires zero { IsTimely (with_number number set.old level 0) }
    ensures kept { set.new ≡ set.old }
    ensures fits { IsFit number set.old level (Some result) }
    ensures range { result ≤ 1000000000 }
    ensures cost { steps.new ≤ steps.old + 30 * evaluations set.old (length set.old) }
{
    let mut most = 0;
    let mut too_many = set.limit(level) + 1;
    while too_many - most > 1 {
        let middle = most + (too_many - most) / 2;
        if fits(set, number, level, middle, steps) {
            most = middle;
        } else {
            too_many = middle;
        }
    }
    most
}

/// The greatest number of ticks that can stand in the place of this number of the level while each
/// level has a bound, and None exactly where 0 cannot. Levels count from 0.
///
/// All else stays as it is: ranks, blocks, waits and all other costs. The evaluations of the demand
/// are at most 31 times the sum, over all levels, of what `bound` may take there. The set is
/// afterwards as before.
pub fn fit<L: Ledger>(
    set: &mut TaskSet,
    number: Varied,
    level: usize,
    steps: &mut Steps<L>,
) -> Option<u64>
    requires { level < length set.old }
    ensures kept { set.new ≡ set.old }
    ensures fit { IsFit number set.old level result }
    ensures cost { steps.new ≤ steps.old + 31 * evaluations set.old (length set.old) }
{
    if !fits(set, number, level, 0, steps) {
        return None;
    }
    Some(greatest_fit(set, number, level, steps))
}
