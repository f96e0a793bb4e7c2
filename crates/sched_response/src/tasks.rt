//! Tasks, and what they ask of the processor.

ghost use Rattle.std.specs.Prelude.{◌≡◌, ◌+◌, ◌*◌, ◌≤◌, ◌<◌, ◌↔◌, length, take, All, IsTrue, SomeIff};
ghost use Rattle.std.specs.Int.{div_ceil};
ghost use Rattle.std.specs.List.Sorted.{IsNonDecreasingBy};
ghost use Rattle.base.specs.Capped.{cap};
ghost use Rattle.sched_response.specs.Demand.{activation, asked, demand_of, demand_at, deadline_at, task_at, with_run, with_susp, AreTasks, IsTask};

use crate::steps::Steps;
use base::{OVER, cap_add, cap_mul, ceil_div};
use std::marker::Model;
use std::sync::ledger::Ledger;

/// A task that is released again once in each frame, at the soonest.
///
/// All but the waits are ticks. A number above 1,000,000,000 stands for all larger ones and is
/// 1,000,000,001.
#[derive(Clone, Copy, Debug, PartialEq, Eq)]
pub struct Task {
    /// The ticks from one release to the next, at least.
    pub frame: u64,
    /// Within how many ticks of its release an activation has to end.
    pub deadline: u64,
    /// The ticks that one activation runs, at most.
    pub run: u64,
    /// The ticks for which one activation suspends itself, at most.
    pub susp: u64,
    /// How often it does so, at most.
    pub waits: u64,
    /// The ticks for which a task of lower rank keeps it from running, at most, once at its release
    /// and once more after each wait.
    pub block: u64,
}

/// 1 to 64 tasks in the order of their ranks, the highest first.
#[derive(Drop)]
pub struct TaskSet {
    tasks: Vec<Task>,
}

impl Model for TaskSet {
    ghost use Rattle.std.specs.Prelude.{List};
    ghost use Rattle.sched_response.specs.declared.tasks.Task.{Task};
    ghost use Rattle.sched_response.specs.Demand.{AreTasks};

    ghost Value = { List Task };

    ghost view = { λ s. s.tasks.items };

    ghost invariant = { λ s. AreTasks s.tasks.items };
}

impl TaskSet {
    /// The set of these tasks, which stand in the order of their ranks, the highest first.
    ///
    /// None exactly where there are none or more than 64, a frame is outside 10 .. 1,000,000,000, a
    /// deadline is outside 10 .. its frame, a deadline is above a later one, or another number is
    /// above 1,000,000,001.
    pub fn new(tasks: Vec<Task>) -> Option<TaskSet>
        ensures { SomeIff result (AreTasks tasks.items) tasks.items }
    {
        if are_tasks(&tasks) {
            Some(TaskSet { tasks })
        } else {
            None
        }
    }

    /// How many tasks there are.
    pub fn levels(&self) -> usize
        ensures value { result ≡ length self.now }
        ensures some { 0 < result }
        ensures few { result ≤ 64 }
    {
        self.tasks.len()
    }

    /// The greatest response that is allowed at the level, which is the deadline. Levels count from
    /// 0.
    pub fn limit(&self, level: usize) -> u64
        requires { level < length self.now }
        ensures value { result ≡ deadline_at self.now level }
        ensures low { 10 ≤ result }
        ensures high { result ≤ 1000000000 }
        ensures tasks { AreTasks self.now }
    {
        self.tasks[level].deadline
    }

    /// The task of the level.
    pub(crate) fn task(&self, level: usize) -> Task
        requires { level < length self.now }
        ensures value { result ≡ task_at self.now level }
        ensures range { IsTask result }
    {
        self.tasks[level]
    }

    /// The tasks that rank above the level.
    pub(crate) fn higher(&self, level: usize) -> &[Task]
        requires { level < length self.now }
        ensures value { result.now ≡ take level self.now }
        ensures few { length result.now ≤ 64 }
        ensures range { All IsTask result.now }
    {
        &self.tasks[..level]
    }

    /// The ticks that one activation of the level's task runs, at most.
    pub fn run(&self, level: usize) -> u64
        requires { level < length self.now }
        ensures value { result ≡ (task_at self.now level).run }
        ensures range { result ≤ 1000000001 }
    {
        self.tasks[level].run
    }

    /// Sets the ticks that one activation of the level's task runs, at most, and leaves all else as
    /// it is.
    pub fn set_run(&mut self, level: usize, run: u64)
        requires level { level < length self.old }
        requires run { run ≤ 1000000001 }
        ensures { self.new ≡ with_run self.old level run }
    {
        self.tasks[level].run = run;
    }

    /// The ticks for which one activation of the level's task suspends itself, at most.
    pub fn susp(&self, level: usize) -> u64
        requires { level < length self.now }
        ensures value { result ≡ (task_at self.now level).susp }
        ensures range { result ≤ 1000000001 }
    {
        self.tasks[level].susp
    }

    /// How often one activation of the level's task suspends itself, at most.
    pub fn waits(&self, level: usize) -> u64
        requires { level < length self.now }
        ensures { result ≡ (task_at self.now level).waits }
    {
        self.tasks[level].waits
    }

    /// Sets the ticks for which one activation of the level's task suspends itself, at most, and
    /// leaves all else as it is.
    pub fn set_susp(&mut self, level: usize, susp: u64)
        requires level { level < length self.old }
        requires susp { susp ≤ 1000000001 }
        ensures { self.new ≡ with_susp self.old level susp }
    {
        self.tasks[level].susp = susp;
    }
}

/// Whether each number of the task is in its range.
fn is_task(task: &Task) -> bool
    ensures { IsTrue result ↔ IsTask task.now }
{
    (10..=1_000_000_000).contains(&task.frame)
        && (10..=task.frame).contains(&task.deadline)
        && task.run <= OVER
        && task.susp <= OVER
        && task.waits <= OVER
        && task.block <= OVER
}

/// Whether the tasks can be a set.
fn are_tasks(tasks: &[Task]) -> bool
    ensures { IsTrue result ↔ AreTasks tasks.now }
{
    (1..=64).contains(&tasks.len()) && tasks.iter().all(is_task) && deadlines_ascend(tasks)
}

/// Whether no deadline is above a later one.
fn deadlines_ascend(tasks: &[Task]) -> bool
    ensures { IsTrue result ↔ IsNonDecreasingBy (λ t. t.deadline) tasks.now }
{
    tasks.is_sorted_by(|earlier, later| earlier.deadline <= later.deadline)
}

/// What one activation of the task asks for, where each wait is followed by a blocking.
pub(crate) fn activation_of(task: Task, block: u64) -> u64
    requires task { IsTask task }
    requires block { block ≤ 1000000001 }
    ensures { result ≡ cap (activation block task) }
{
    cap_add(cap_add(task.run, task.susp), cap_mul(task.waits, block))
}

/// One more task in the sum, with each activation that it starts in r ticks.
#[tactic(auto, using(crate::proofs::Caps::cap_added))]
fn add_task(total: u64, task: Task, block: u64, r: u64) -> u64
    requires total { total ≤ 1000000001 }
    requires task { IsTask task }
    requires block { block ≤ 1000000001 }
    requires r { r ≤ 1000000000 }
    ensures { result ≡ cap (total + div_ceil r task.frame * activation block task) }
{
    let starts = ceil_div(r, task.frame);
    cap_add(total, cap_mul(starts, activation_of(task, block)))
}

/// What a task and those before it ask for in r ticks.
fn demand_in(own: Task, before: &[Task], r: u64) -> u64
    requires own { IsTask own }
    requires before { All IsTask before.now }
    requires r { r ≤ 1000000000 }
    ensures { result ≡ demand_of own before.now r }
{
    let mut total = cap_add(own.block, activation_of(own, own.block));
    for task in before {
        total = add_task(total, *task, own.block, r);
    }
    total
}

/// What the task of the level and those before it ask for in r ticks, capped at 1,000,000,001: the
/// function of the recurrence of the response times. Each call is one step.
#[tactic(auto, unfolding(crate::specs::Demand::demand_at))]
pub fn demand<L: Ledger>(set: &TaskSet, level: usize, r: u64, steps: &mut Steps<L>) -> u64
    requires level { level < length set.now }
    requires r { r ≤ 1000000000 }
    ensures value { result ≡ demand_at set.now level r }
    ensures range { result ≤ 1000000001 }
    ensures cost { steps.new ≡ steps.old + 1 }
{
    steps.tick();
    demand_in(set.tasks[level], &set.tasks[..level], r)
}
