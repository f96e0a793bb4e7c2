//! A number below which no response of a level meets its recurrence.
//!
//! In the long run the tasks of higher rank take their shares of the processor, so a response is at
//! least the own work of the level over what they leave.

ghost use Rattle.std.specs.Prelude.{◌≡◌, ◌+◌, ◌*◌, ◌≤◌, ◌<◌, ℕ, length, All, IfSome, IfNone};
ghost use Rattle.sched_response.specs.Demand.{activation, asked, IsTask, Solves};
ghost use Rattle.sched_response.specs.Floor.{IsFloor};

use crate::tasks::{Task, TaskSet, activation_of};
use base::{cap_add, ceil_div};

/// The whole processor: 2 to the power 34, of which the shares are parts.
const WHOLE: u64 = 17_179_869_184;

/// The share of the processor that a task of higher rank takes in the long run, rounded down.
fn share(task: Task, block: u64) -> u64
    requires task { IsTask task }
    requires block { block ≤ 1000000001 }
    ensures less { result * task.frame ≤ WHOLE * activation block task }
    ensures range { result ≤ WHOLE }
{
    (WHOLE * activation_of(task, block) / task.frame).min(WHOLE)
}

/// The sum of the shares of the tasks.
fn shares(tasks: &[Task], block: u64) -> u64
    requires few { length tasks.now ≤ 64 }
    requires tasks { All IsTask tasks.now }
    requires block { block ≤ 1000000001 }
    ensures less { (r : ℕ) → result * r ≤ WHOLE * asked block r tasks.now }
    ensures range { result ≤ 64 * WHOLE }
{
    let mut total = 0;
    for task in tasks {
        total += share(*task, block);
    }
    total
}

/// A number of 1 up to the deadline of the level below which no response meets the recurrence, to
/// begin a search from: the own work of the level over what the tasks of higher rank leave of the
/// processor.
///
/// None only where no response of 1 up to the deadline meets it.
pub fn response_floor(set: &TaskSet, level: usize) -> Option<u64>
    requires { level < length set.now }
    ensures some { IfSome result (IsFloor set.now level) }
    ensures none { IfNone result ((r : ℕ) → ¬ Solves set.now level r) }
{
    let own = set.task(level);
    let work = cap_add(own.block, activation_of(own, own.block));
    let taken = shares(set.higher(level), own.block);
    if work == 0 {
        return Some(1);
    }
    if taken >= WHOLE {
        return None;
    }
    let floor = ceil_div(work * WHOLE, WHOLE - taken);
    if floor > own.deadline {
        return None;
    }
    Some(floor)
}
