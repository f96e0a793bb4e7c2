//! The next action of a process.

ghost use Rattle.std.specs.Prelude.{◌≡◌, ◌++◌, ◌∷◌, [], IfOk, List, None, map, option_map, slice_get, unwrap_or};
ghost use Rattle.syntax_tree.specs.Placed.{placed, placed_process, plain, plain_process};
ghost use Rattle.source_semantics.specs.Names.{routine_count};
ghost use Rattle.source_semantics.specs.Config.{hold_vars, inside, vars_of as vars_inside};
ghost use Rattle.source_semantics.specs.Next as next_of_source;
ghost use Rattle.source_semantics.specs.Run as run_of;
ghost use Rattle.source_semantics.specs.Source.{job_next};
ghost use Rattle.replay_state.specs.View.{action_of, call_of, calls_of, config_of, holds_of, home_of, item_of, job_of, next_of, vars_of};
ghost use Rattle.replay_calls.specs.Reach.{area_of, memory_of, site_of};
ghost use Rattle.replay_next.specs.Remains.{came_of};

use crate::driving::run_whole;
use crate::remains::ItemResult;
use crate::results::{RunResult, Stop};
use out_of_memory::OutOfMemory;
use replay_calls::{CowSlots, EvalContext, Memory, lent, slots_copied};
use replay_state::{
    Action, Call, CallOwner, Config, Item, MonitorState, NextAction, ProcessState, Slot,
};
use std::alloc::Global;

/// An action after which these calls and variables remain.
fn acted<'a>(
    alloc: Global,
    action: Action,
    calls: Vec<Call<'a>>,
    process: CowSlots<'_, 'a>,
    monitor: CowSlots<'_, 'a>,
) -> Result<NextAction<'a>, OutOfMemory>
    ensures { IfOk result (λ next. next_of next ≡ record {
      action = action_of action;
      calls = calls_of calls.entry.items;
      process = area_of process.entry;
      monitor = area_of monitor.entry;
    }) }
{
    let mut process = process;
    let mut monitor = monitor;
    let process = process.take(alloc)?;
    let monitor = monitor.take(alloc)?;
    Ok(NextAction {
        action,
        calls,
        process,
        monitor,
    })
}

/// The same call once more.
fn call_copied<'a>(alloc: Global, call: &Call<'a>) -> Result<Call<'a>, OutOfMemory>
    ensures { IfOk result (λ copy. call_of copy ≡ call_of call.now) }
{
    let own = slots_copied(alloc, call.own.as_slice())?;
    let rest = Vec::from_slice(alloc, call.rest.as_slice())?;
    Ok(Call {
        home: call.home,
        own,
        rest,
    })
}

/// Adds the same calls once more.
fn add_calls<'a>(
    alloc: Global,
    all: &mut Vec<Call<'a>>,
    calls: &[Call<'a>],
) -> Result<(), OutOfMemory>
    ensures { IfOk result (λ done. calls_of all.new.items ≡
        calls_of all.old.items ++ calls_of calls.now) }
{
    for call in calls {
        let copy = call_copied(alloc, call)?;
        all.push(copy)?;
    }
    Ok(())
}

/// A visible action of a call with this home and memory, which these calls are around.
fn stopped<'a>(
    alloc: Global,
    stop: Stop<'a>,
    home: CallOwner,
    memory: Memory<'_, 'a>,
    around: &[Call<'a>],
) -> Result<NextAction<'a>, OutOfMemory>
    ensures { IfOk result (λ next. next_of next ≡ record {
      action = action_of stop.entry.action;
      calls = calls_of stop.entry.inside.items ++ record {
        home = home_of home;
        own = vars_of memory.entry.own.items;
        rest = map item_of stop.entry.rest.items;
      } ∷ calls_of around.now;
      process = area_of memory.entry.process;
      monitor = area_of memory.entry.monitor;
    }) }
{
    let Stop {
        action,
        mut inside,
        rest,
    } = stop;
    let Memory {
        own,
        process,
        monitor,
    } = memory;
    inside.push(Call { home, own, rest })?;
    add_calls(alloc, &mut inside, around)?;
    acted(alloc, action, inside, process, monitor)
}

/// The item once this value is given, if there is one: it is stored where the item waits for it.
fn with_given<'a>(item: Item<'a>, given: Option<i64>) -> Item<'a>
    ensures { (is : List run_of.Item) →
        next_of_source.given_item given (item_of item.entry ∷ is) ≡ item_of result ∷ is }
{
    match given {
        None => item,
        Some(value) => match item {
            Item::Receive(target) => Item::Store { target, value },
            other => other,
        },
    }
}

/// The items of a call, of which the first receives the value that is given, if there is one.
fn given_items<'a>(
    alloc: Global,
    items: &[Item<'a>],
    given: Option<i64>,
) -> Result<Vec<Item<'a>>, OutOfMemory>
    ensures { IfOk result (λ all. map item_of all.items ≡
        next_of_source.given_item given (map item_of items.now)) }
{
    let mut all = Vec::from_slice(alloc, items)?;
    if all.len() > 0 {
        let first = all[0];
        all[0] = with_given(first, given);
        return Ok(all);
    }
    Ok(all)
}

/// What the items of a call come to, of which the first receives the value that is given, if there
/// is one.
fn run_given<'a>(
    scope: &EvalContext<'a>,
    home: CallOwner,
    depth: usize,
    memory: &mut Memory<'_, 'a>,
    items: &[Item<'a>],
    given: Option<i64>,
) -> Result<ItemResult<'a>, OutOfMemory>
    ensures { IfOk result (λ came. came_of came (memory_of memory.new) ≡ next_of_source.run_items
        (site_of scope.now home depth) (memory_of memory.old)
        (next_of_source.given_item given (map item_of items.now))) }
{
    let items = given_items(scope.alloc, items, given)?;
    run_whole(scope, home, depth, memory, items)
}

/// The next action from calls in progress, the innermost first, over these variables of the process
/// and of the monitor that it is inside. Calls are nested at most as deep as there are routines.
pub fn next_from<'a>(
    scope: &EvalContext<'a>,
    depth: usize,
    calls: &[Call<'a>],
    process: &[Slot<'a>],
    monitor: &[Slot<'a>],
) -> Result<NextAction<'a>, OutOfMemory>
    requires { depth ≡ routine_count (plain (placed scope.now.declarations.now)) }
    ensures { IfOk result (λ next. next_of next ≡ next_of_source.next_from
        (plain (placed scope.now.declarations.now))
        (plain_process (placed_process scope.now.process.now)) (calls_of calls.now) None
        (vars_of process.now) (vars_of monitor.now)) }
{
    let mut memory = Memory {
        own: Vec::new(scope.alloc),
        process: lent(process),
        monitor: lent(monitor),
    };
    let mut given = None;
    for at in 0..calls.len() {
        let call = &calls[at];
        memory.own = slots_copied(scope.alloc, call.own.as_slice())?;
        let items = call.rest.as_slice();
        match run_given(scope, call.home, depth, &mut memory, items, given)? {
            ItemResult::Gives(value) => given = Some(value),
            ItemResult::Ran(ran) => match ran {
                RunResult::Goes | RunResult::Exits => given = None,
                RunResult::Fails(number) => {
                    let none = Vec::new(scope.alloc);
                    let action = Action::Raises { number };
                    return acted(scope.alloc, action, none, memory.process, memory.monitor);
                }
                RunResult::Stops(stop) => {
                    return stopped(scope.alloc, stop, call.home, memory, &calls[at + 1..]);
                }
            },
        }
    }
    let none = Vec::new(scope.alloc);
    acted(
        scope.alloc,
        Action::Ends,
        none,
        memory.process,
        memory.monitor,
    )
}

/// The variables of the monitor of that number.
fn vars_held<'c, 'a>(holds: &'c [MonitorState<'a>], mon: usize) -> Option<&'c [Slot<'a>]>
    ensures { unwrap_or (option_map (λ s. vars_of s.now) result) [] ≡
        hold_vars (slice_get (holds_of holds.now) mon) }
{
    match holds.get(mon) {
        None => None,
        Some(hold) => Some(hold.vars.as_slice()),
    }
}

/// The variables of the monitor that a process is inside.
fn monitor_vars<'c, 'a>(config: &'c Config<'a>, process: usize) -> Option<&'c [Slot<'a>]>
    ensures { unwrap_or (option_map (λ s. vars_of s.now) result) [] ≡
        vars_inside (config_of config.now) (inside (config_of config.now) process) }
{
    match config.inside(process) {
        None => None,
        Some(mon) => vars_held(config.holds.as_slice(), mon),
    }
}

/// The next action of a process, of which this is the number and the job. The configuration stays
/// as it is; the only error is want of memory.
pub fn next_action<'a>(
    scope: &EvalContext<'a>,
    depth: usize,
    config: &Config<'a>,
    process: usize,
    job: &ProcessState<'a>,
) -> Result<NextAction<'a>, OutOfMemory>
    requires { depth ≡ routine_count (plain (placed scope.now.declarations.now)) }
    ensures { IfOk result (λ next. next_of next ≡ job_next (config_of config.now) process
        (plain_process (placed_process scope.now.process.now)) (job_of job.now)
        (plain (placed scope.now.declarations.now))) }
{
    let calls = job.calls.as_slice();
    match monitor_vars(config, process) {
        None => next_from(scope, depth, calls, job.vars.as_slice(), &[]),
        Some(monitor) => next_from(scope, depth, calls, job.vars.as_slice(), monitor),
    }
}
