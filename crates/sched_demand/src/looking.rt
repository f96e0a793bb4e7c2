//! One pass over the tasks.

ghost use Rattle.std.specs.Prelude.{◌≡◌, ◌≤◌, length};
ghost use Rattle.sched_demand.specs.Demand.{asked, demand_at, due_by, points, AreTasks, IsMost, IsNext, IsTask};

use crate::tasks::DemandTask;

/// How many activations of the task have their deadlines within so many ticks, where it is released
/// from tick 0 on a frame apart.
pub(crate) fn due(task: DemandTask, t: u64) -> u64
    requires task { IsTask task }
    requires t { t ≤ 1000000000 }
    ensures value { result ≡ due_by t task }
    ensures range { result ≤ 100000000 }
{
    if t < task.deadline {
        0
    } else {
        (t - task.deadline) / task.frame + 1
    }
}

/// The demand by a tick, and the next point after it.
#[derive(Clone, Copy)]
pub(crate) struct Look {
    /// The demand.
    pub demand: u64,
    /// The next point.
    pub next: u64,
}

/// The demand by a tick, and the next point after it.
pub(crate) fn look_at(tasks: &[DemandTask], t: u64) -> Look
    requires tasks { AreTasks tasks.now }
    requires t { t ≤ 1000000000 }
    ensures demand { result.demand ≡ demand_at tasks.now t }
    ensures next { IsNext tasks.now t (length tasks.now) result.next }
{
    let first = tasks[0];
    let mut next = first.deadline + due(first, t) * first.frame;
    let mut total = 0;
    let mut block = 0;
    for task in tasks {
        let turns = due(*task, t);
        total += turns * task.cost;
        if turns > 0 {
            block = task.block;
        }
        let after = task.deadline + turns * task.frame;
        if after < next {
            next = after;
        }
    }
    Look {
        demand: total + block,
        next,
    }
}

/// How many points there are up to a tick, those of each task counted by themselves.
pub(crate) fn count(tasks: &[DemandTask], reach: u64) -> u64
    requires tasks { AreTasks tasks.now }
    requires reach { reach ≤ 1000000000 }
    ensures { result ≡ points tasks.now reach }
{
    let mut total = 0;
    for task in tasks {
        total += due(*task, reach);
    }
    total
}

/// What the tasks ask for in so many ticks from a release of all of them.
pub(crate) fn asked_in(tasks: &[DemandTask], r: u64) -> u64
    requires tasks { AreTasks tasks.now }
    requires above { 1 ≤ r }
    requires r { r ≤ 1000000000 }
    ensures value { result ≡ asked tasks.now r }
    ensures range { result ≤ 6400000006400000000 }
{
    let mut total = 0;
    for task in tasks {
        total += r.div_ceil(task.frame) * task.cost;
    }
    total
}

/// The largest block.
pub(crate) fn most_block(tasks: &[DemandTask]) -> u64
    requires tasks { AreTasks tasks.now }
    ensures most { IsMost tasks.now result }
    ensures range { result ≤ 1000000001 }
{
    let mut most = tasks[0].block;
    for task in tasks {
        if task.block > most {
            most = task.block;
        }
    }
    most
}
