//! The sums that are shown: the demand of a level, and the load.

ghost use Rattle.std.specs.Prelude.{◌≡◌, ◌≤◌, ◌<◌, ◌+◌, ◌*◌, length, All};
ghost use Rattle.std.specs.Int.{div_ceil};
ghost use Rattle.base.specs.Capped.{cap};
ghost use Rattle.sched_response.specs.Demand.{activation, demand_at, AreTasks, IsTask};
ghost use Rattle.sched_sections.specs.Load.{load, share};
ghost use Rattle.sched_sections.specs.Levels.{tasks_in};

use crate::Level;
use crate::levels::task_of;
use crate::lines::activation_of;
use base::{OVER, cap_add, cap_mul, ceil_div};
use sched_response::Task;

/// What the activations of a task that start in r ticks take, where each wait is followed by a
/// block.
#[tactic(auto, using(crate::proofs::Tasks::cap_times))]
pub fn all_taken(task: Task, block: u64, r: u64) -> u64
    requires task { IsTask task }
    requires block { block ≤ 1000000001 }
    requires r { r ≤ 1000000000 }
    ensures { result ≡ cap (div_ceil r task.frame * activation block task) }
{
    cap_mul(ceil_div(r, task.frame), activation_of(task, block))
}

/// One more task in the sum, with each activation that it starts in r ticks.
#[tactic(auto, using(crate::proofs::Tasks::cap_more))]
fn add_task(total: u64, task: Task, block: u64, r: u64) -> u64
    requires total { total ≤ 1000000001 }
    requires task { IsTask task }
    requires block { block ≤ 1000000001 }
    requires r { r ≤ 1000000000 }
    ensures { result ≡ cap (total + div_ceil r task.frame * activation block task) }
{
    cap_add(total, all_taken(task, block, r))
}

/// What a level and those above it ask for in r ticks.
pub fn sum_of(levels: &[Level], level: usize, r: u64) -> u64
    requires tasks { All IsTask (tasks_in levels.now) }
    requires level { level < length levels.now }
    requires r { r ≤ 1000000000 }
    ensures { result ≡ demand_at (tasks_in levels.now) level r }
{
    let own = task_of(levels, level);
    let mut total = cap_add(own.block, activation_of(own, own.block));
    for higher in 0..level {
        total = add_task(total, task_of(levels, higher), own.block, r);
    }
    total
}

/// The share of a task, in millionths of the processor.
fn share_of(task: Task) -> u64
    requires { IsTask task }
    ensures value { result ≡ share task }
    ensures range { result ≤ 100000000000000 }
{
    if task.run > 1_000_000_000 {
        return OVER;
    }
    ceil_div(1_000_000 * task.run, task.frame)
}

/// The load of the processor, in millionths of it.
pub fn load_of(levels: &[Level]) -> u64
    requires { AreTasks (tasks_in levels.now) }
    ensures { result ≡ load (tasks_in levels.now) }
{
    let mut total = 0;
    for level in 0..levels.len() {
        total += share_of(task_of(levels, level));
    }
    total
}
