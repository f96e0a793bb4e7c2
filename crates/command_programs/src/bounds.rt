//! The least bounds where a level runs for some ticks more.

ghost use Rattle.std.specs.Prelude.{◌≡◌, ◌<◌, ◌≤◌, ◌+◌, ◌-◌, length, map, IfOk};
ghost use Rattle.image.specs.Raw.{process_of};
ghost use Rattle.sched_response.specs.Demand.{task_at, IsBound};
ghost use Rattle.sched_sensitivity.specs.Slack.{with_more, IsTimely, IsSpare};
ghost use Rattle.command_due.specs.Lines.{AreLeastBounds};
ghost use Rattle.command_programs.specs.Levels.{HaveLevels};

use image::RawProcess;
use out_of_memory::OutOfMemory;
use sched_response::{TaskSet, bound_of};
use sched_sensitivity::{Spare, slack_of};
use std::alloc::Global;
use syntax_tree::List;

/// The level of the rank of a process.
pub fn level_of(process: &RawProcess) -> usize
    ensures { result ≡ process.now.rank - 1 }
{
    (process.rank as usize).saturating_sub(1)
}

/// The ticks that a level of a timely set can spare. The set is afterwards as before.
pub fn spare_of(set: &mut TaskSet, level: usize) -> Spare
    requires timely { IsTimely set.old }
    requires level { level < length set.old }
    ensures kept { set.new ≡ set.old }
    ensures spare { IsSpare set.old level result }
{
    match slack_of(set, level) {
        Some(spare) => spare,
        None => unreachable!(),
    }
}

/// The least bound of a level of a timely set.
fn least_bound(set: &TaskSet, level: usize) -> u64
    requires timely { IsTimely set.now }
    requires level { level < length set.now }
    ensures { IsBound set.now level result }
{
    match bound_of(set, level) {
        Some(bound) => bound,
        None => unreachable!(),
    }
}

/// The least bound of each process by a timely set, in the order of the text.
fn least_bounds(
    alloc: Global,
    processes: &[RawProcess],
    set: &TaskSet,
) -> Result<List<u64>, OutOfMemory>
    requires timely { IsTimely set.now }
    requires levels { HaveLevels (map process_of processes.now) set.now }
    ensures { IfOk result (AreLeastBounds (map process_of processes.now) set.now) }
{
    let mut all = List::new(alloc);
    for number in 0..processes.len() {
        let bound = least_bound(set, level_of(&processes[number]));
        all.push(bound)?;
    }
    Ok(all)
}

/// The least bound of each process where the level runs for so many ticks more. The set is
/// afterwards as before.
pub fn bounds_with(
    alloc: Global,
    processes: &[RawProcess],
    set: &mut TaskSet,
    level: usize,
    extra: u64,
) -> Result<List<u64>, OutOfMemory>
    requires level { level < length set.old }
    requires room { (task_at set.old level).run + extra ≤ 1000000001 }
    requires timely { IsTimely (with_more set.old level extra) }
    requires levels { HaveLevels (map process_of processes.now) set.old }
    ensures kept { set.new ≡ set.old }
    ensures bounds { IfOk result (AreLeastBounds (map process_of processes.now)
        (with_more set.old level extra)) }
{
    let run = set.run(level);
    set.set_run(level, run + extra);
    let bounds = least_bounds(alloc, processes, set);
    set.set_run(level, run);
    bounds
}
