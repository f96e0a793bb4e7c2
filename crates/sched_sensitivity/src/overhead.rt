//! Which overhead fits: by bisection.

ghost use Rattle.std.specs.Prelude.{◌≡◌, ◌+◌, ◌*◌, ◌≤◌, ◌↔◌, length, IfOk, IsTrue, Some};
ghost use Rattle.sched_response.specs.Demand.{AreTasks, IsTask};
ghost use Rattle.sched_sensitivity.specs.Slack.{evaluations, IsTimely};
ghost use Rattle.sched_sensitivity.specs.Overhead.{with_dispatches as defined_with_dispatches, with_overhead as defined_with_overhead, IsOverheadFit};

use crate::first_failing;
use base::OVER;
use out_of_memory::OutOfMemory;
use sched_response::{Steps, Task, TaskSet};
use std::alloc::Global;
use std::sync::ledger::Ledger;

/// A task with its dispatches.
fn with_dispatches(task: Task, over: u64) -> Task
    requires task { IsTask task }
    requires over { over ≤ 1000 }
    ensures { result ≡ defined_with_dispatches over task }
{
    Task {
        run: (task.run + 2 * over * (1 + task.waits)).min(OVER),
        ..task
    }
}

/// The tasks with an overhead.
fn tasks_with(alloc: Global, tasks: &[Task], over: u64) -> Result<Vec<Task>, OutOfMemory>
    requires tasks { AreTasks tasks.now }
    requires over { over ≤ 1000 }
    ensures { IfOk result (λ v. v.items ≡ defined_with_overhead tasks.now over) }
{
    let mut all = Vec::new(alloc);
    for task in tasks {
        all.push(with_dispatches(*task, over))?;
    }
    Ok(all)
}

/// The set of tasks with an overhead of at most 1,000 ticks, or that memory is short.
pub fn with_overhead(alloc: Global, tasks: &[Task], over: u64) -> Result<TaskSet, OutOfMemory>
    requires tasks { AreTasks tasks.now }
    requires over { over ≤ 1000 }
    ensures { IfOk result (λ set. set ≡ defined_with_overhead tasks.now over) }
{
    match TaskSet::new(tasks_with(alloc, tasks, over)?) {
        Some(set) => Ok(set),
        None => unreachable!(),
    }
}

/// Whether each level has a bound with an overhead.
fn overhead_fits<L: Ledger>(
    alloc: Global,
    tasks: &[Task],
    over: u64,
    steps: &mut Steps<L>,
) -> Result<bool, OutOfMemory>
    requires tasks { AreTasks tasks.now }
    requires over { over ≤ 1000 }
    ensures fits { IfOk result (λ fits. IsTrue fits ↔
        IsTimely (defined_with_overhead tasks.now over)) }
    ensures cost { steps.new ≤ steps.old + evaluations tasks.now (length tasks.now) }
{
    let set = with_overhead(alloc, tasks, over)?;
    let fails = first_failing(&set, steps);
    Ok(fails.is_none())
}

/// The greatest overhead that fits, where 0 does.
fn greatest_overhead<L: Ledger>(
    alloc: Global,
    tasks: &[Task],
    steps: &mut Steps<L>,
) -> Result<u64, OutOfMemory>
    requires tasks { AreTasks tasks.now }
    requires zero { IsTimely (defined_with_overhead tasks.now 0) }
    ensures fits { IfOk result (λ over. IsOverheadFit tasks.now (Some over)) }
    ensures range { IfOk result (λ over. over ≤ 1000) }
    ensures cost { steps.new ≤ steps.old + 10 * evaluations tasks.now (length tasks.now) }
{
    let mut most = 0;
    let mut too_many = 1001;
    while too_many - most > 1 {
        let middle = most + (too_many - most) / 2;
        if overhead_fits(alloc, tasks, middle, steps)? {
            most = middle;
        } else {
            too_many = middle;
        }
    }
    Ok(most)
}

/// The greatest overhead of at most 1,000 ticks with which each level of the tasks, whose costs
/// hold no dispatch yet, has a bound, and None exactly where 0 does not do.
///
/// The evaluations of the demand are at most 11 times the sum, over all levels, of what `bound` may
/// take there. Only want of memory is an error.
pub fn overhead_fit<L: Ledger>(
    alloc: Global,
    tasks: &[Task],
    steps: &mut Steps<L>,
) -> Result<Option<u64>, OutOfMemory>
    requires { AreTasks tasks.now }
    ensures fit { IfOk result (λ fit. IsOverheadFit tasks.now fit) }
    ensures cost { steps.new ≤ steps.old + 11 * evaluations tasks.now (length tasks.now) }
{
    if !overhead_fits(alloc, tasks, 0, steps)? {
        return Ok(None);
    }
    let most = greatest_overhead(alloc, tasks, steps)?;
    Ok(Some(most))
}
