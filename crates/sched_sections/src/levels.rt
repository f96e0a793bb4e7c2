//! Levels.

ghost use Rattle.std.specs.Prelude.{◌≡◌, ◌<◌, length, All};
ghost use Rattle.sched_response.specs.Demand.{task_at, IsTask};
ghost use Rattle.sched_sections.specs.Levels.{tasks_in};

use sched_response::Task;
use syntax_tree::Name;

/// What makes a block: the entry of a monitor in which a process of lower rank can stay.
#[derive(Drop)]
pub struct Blocker {
    /// The monitor's name.
    pub monitor: Name,
    /// The entry's name.
    pub entry: Name,
    /// The name of the process inside.
    pub process: Name,
}

/// A rank of a program: whose it is, what it asks for, and how long it can take.
#[derive(Drop)]
pub struct Level {
    /// The name of the process.
    pub name: Name,
    /// What it asks of the processor.
    pub task: Task,
    /// The least response that is safe, and none where no response within the deadline is.
    pub bound: Option<u64>,
    /// What makes its block, where it has one.
    pub blocker: Option<Blocker>,
}

/// The task of a level.
pub fn task_of(levels: &[Level], level: usize) -> Task
    requires tasks { All IsTask (tasks_in levels.now) }
    requires level { level < length levels.now }
    ensures value { result ≡ task_at (tasks_in levels.now) level }
    ensures range { IsTask result }
{
    levels[level].task
}
