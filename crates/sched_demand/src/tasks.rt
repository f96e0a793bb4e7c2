//! Tasks with deadlines.

ghost use Rattle.std.specs.Prelude.{◌≡◌, ◌↔◌, IsTrue, SomeIff};
ghost use Rattle.sched_demand.specs.Demand.{AreTasks, AreOrdered, IsTask};

use base::OVER;
use std::marker::Model;

/// A task that is released again once in each frame, at the soonest, and has to end within its
/// deadline.
///
/// All are ticks. A number above 1,000,000,000 stands for all larger ones and is 1,000,000,001.
#[derive(Clone, Copy)]
pub struct DemandTask {
    /// The ticks from one release to the next, at least.
    pub frame: u64,
    /// The ticks from a release to the deadline of its activation.
    pub deadline: u64,
    /// The ticks that one activation runs, at most.
    pub cost: u64,
    /// The longest stay of a task with a later deadline in a monitor that keeps one with this
    /// deadline, or a sooner one, from running.
    pub block: u64,
}

/// 1 to 64 tasks in the order of their ranks, the highest first.
#[derive(Drop)]
pub struct DemandSet {
    tasks: Vec<DemandTask>,
}

impl Model for DemandSet {
    ghost use Rattle.std.specs.Prelude.{List};
    ghost use Rattle.sched_demand.specs.declared.tasks.DemandTask.{DemandTask};
    ghost use Rattle.sched_demand.specs.Demand.{AreTasks};

    ghost Value = { List DemandTask };

    ghost view = { λ s. s.tasks.items };

    ghost invariant = { λ s. AreTasks s.tasks.items };
}

impl DemandSet {
    /// The set of these tasks, which stand in the order of their ranks, the highest first.
    ///
    /// None exactly where there are none or more than 64, a frame is outside 10 .. 1,000,000,000, a
    /// deadline is outside 10 .. its frame, deadlines descend, equal deadlines have different
    /// blocks, or another number is above 1,000,000,001.
    pub fn new(tasks: Vec<DemandTask>) -> Option<DemandSet>
        ensures { SomeIff result (AreTasks tasks.items) tasks.items }
    {
        if are_tasks(&tasks) {
            Some(DemandSet { tasks })
        } else {
            None
        }
    }

    /// The tasks.
    pub(crate) fn tasks(&self) -> &[DemandTask]
        ensures value { result.now ≡ self.now }
        ensures tasks { AreTasks self.now }
    {
        &self.tasks
    }
}

/// Whether each number of the task is in its range.
fn is_task(task: &DemandTask) -> bool
    ensures { IsTrue result ↔ IsTask task.now }
{
    (10..=1_000_000_000).contains(&task.frame)
        && 10 <= task.deadline
        && task.deadline <= task.frame
        && task.cost <= OVER
        && task.block <= OVER
}

/// Whether the tasks can be a set.
fn are_tasks(tasks: &[DemandTask]) -> bool
    ensures { IsTrue result ↔ AreTasks tasks.now }
{
    (1..=64).contains(&tasks.len()) && tasks.iter().all(is_task) && are_ordered(tasks)
}

/// Whether no deadline is above a later one, and equal deadlines have equal blocks.
fn are_ordered(tasks: &[DemandTask]) -> bool
    ensures { IsTrue result ↔ AreOrdered tasks.now }
{
    tasks.is_sorted_by(|earlier, later| {
        earlier.deadline < later.deadline
            || earlier.deadline == later.deadline && earlier.block == later.block
    })
}
