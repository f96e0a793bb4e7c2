//! What a fit tells of the tasks as they are.
//!
//! The laws. These functions do nothing; their contracts are the laws.

ghost use Rattle.std.specs.Prelude.{◌≡◌, ◌≤◌, ◌<◌, ◌+◌, ◌↔◌, ℕ, List, length, None};
ghost use Rattle.sched_response.specs.declared.tasks.Task.{Task};
ghost use Rattle.sched_response.specs.Demand.{task_at, deadline_at};
ghost use Rattle.sched_sensitivity.specs.Slack.{IsSlack, IsTimely};
ghost use Rattle.sched_sensitivity.specs.declared.fitting.Varied.{Varied};
ghost use Rattle.sched_sensitivity.specs.declared.fitting.Varied.TheVariants.{Cost};
ghost use Rattle.sched_sensitivity.specs.Fit.{with_number, IsFit, IsGreatestFit};
ghost use Rattle.sched_sensitivity.specs.Numbers.{number_at};
ghost use Rattle.sched_sensitivity.specs.Overhead.{with_overhead, IsGreatestOverhead, IsOverheadFit};

/// Where a number fits, each smaller one does.
pub fn less_fits_too()
    ensures { (number : Varied) (ts : List Task) (level x y : ℕ) → level < length ts → x ≤ y →
        IsTimely (with_number number ts level y) → IsTimely (with_number number ts level x) }
{}

/// A number that fits is within the deadline of its level, so a search up to there loses nothing.
pub fn what_fits_is_within_the_deadline()
    ensures { (number : Varied) (ts : List Task) (level x : ℕ) → level < length ts →
        deadline_at ts level ≤ 1000000000 → IsTimely (with_number number ts level x) →
        x ≤ deadline_at ts level }
{}

/// The tasks are in time as they are exactly where what fits is no less than the number that they
/// have; where nothing fits they are not.
pub fn tasks_in_time_have_what_fits()
    ensures some { (number : Varied) (ts : List Task) (level x : ℕ) → level < length ts →
        IsGreatestFit number ts level x → IsTimely ts ↔ (number_at number ts level ≤ x) }
    ensures none { (number : Varied) (ts : List Task) (level : ℕ) → level < length ts →
        IsFit number ts level None → ¬ IsTimely ts }
{}

/// Of tasks in time the cost that fits is the cost and the spare ticks.
pub fn the_cost_that_fits_is_the_cost_and_the_slack()
    ensures { (ts : List Task) (level x spare : ℕ) → level < length ts → IsTimely ts →
        IsGreatestFit Cost ts level x → IsSlack ts level spare →
        x ≡ (task_at ts level).run + spare }
{}

/// Tasks are in time with an overhead exactly where it is at most the one that fits, and with none
/// where none fits.
pub fn tasks_in_time_have_the_overhead_that_fits()
    ensures some { (ts : List Task) (over x : ℕ) → over ≤ 1000 → IsGreatestOverhead ts x →
        IsTimely (with_overhead ts over) ↔ (over ≤ x) }
    ensures none { (ts : List Task) (over : ℕ) → IsOverheadFit ts None →
        ¬ IsTimely (with_overhead ts over) }
{}
