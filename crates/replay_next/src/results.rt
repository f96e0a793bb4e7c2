//! What statements come to.

ghost use Rattle.std.specs.Prelude.{◌≡◌, ◌++◌, ◌∷◌, [], IfOk, map, option_map};
ghost use Rattle.source_semantics.specs.Run as run_of;
ghost use Rattle.replay_state.specs.View.{action_of, calls_of, home_of, item_of, vars_of};
ghost use Rattle.replay_next.specs.Driving.{rest_of};
ghost use Rattle.replay_next.specs.Ran.{listed, ran_of};

use out_of_memory::OutOfMemory;
use replay_state::{Action, Call, CallOwner, Item, Slot};
use std::alloc::Global;

/// A visible action; after it remain calls inside this one, the innermost first, and items of this
/// one.
#[derive(Drop)]
pub struct Stop<'a> {
    pub action: Action,
    pub inside: Vec<Call<'a>>,
    pub rest: Vec<Item<'a>>,
}

/// What statements come to.
#[derive(Drop)]
pub enum RunResult<'a> {
    Goes,
    /// An exit from the innermost loop.
    Exits,
    /// An exception.
    Fails(u32),
    Stops(Stop<'a>),
}

/// A stop with nothing inside it, after which this much of its statement remains.
pub fn stops<'a>(
    alloc: Global,
    action: Action,
    rest: Option<Item<'a>>,
) -> Result<RunResult<'a>, OutOfMemory>
    ensures { IfOk result (λ ran. (m : run_of.Memory) → ran_of ran m ≡
        run_of.stops (action_of action) [] (listed (option_map item_of rest.entry)) m) }
{
    let mut items = Vec::new(alloc);
    if let Some(item) = rest {
        items.push(item)?;
    }
    Ok(RunResult::Stops(Stop {
        action,
        inside: Vec::new(alloc),
        rest: items,
    }))
}

/// A stop after which these items remain besides, the outermost first.
pub fn stopped_before<'a>(
    stop: Stop<'a>,
    items: Vec<Item<'a>>,
) -> Result<RunResult<'a>, OutOfMemory>
    ensures { IfOk result (λ ran. (m : run_of.Memory) → ran_of ran m ≡
        run_of.stops (action_of stop.entry.action) (calls_of stop.entry.inside.items)
        (map item_of stop.entry.rest.items ++ rest_of items.entry.items) m) }
{
    let Stop {
        action,
        inside,
        mut rest,
    } = stop;
    let mut items = items;
    items.reverse();
    if rest.is_empty() {
        rest = items;
    } else {
        rest.extend_from_slice(items.as_slice())?;
    }
    Ok(RunResult::Stops(Stop {
        action,
        inside,
        rest,
    }))
}

/// A stop inside a procedure with this home and these variables.
pub fn stopped_in<'a>(
    alloc: Global,
    stop: Stop<'a>,
    home: CallOwner,
    own: Vec<Slot<'a>>,
) -> Result<RunResult<'a>, OutOfMemory>
    ensures { IfOk result (λ ran. (m : run_of.Memory) → ran_of ran m ≡
        run_of.stops (action_of stop.entry.action) (calls_of stop.entry.inside.items ++
        record {
          home = home_of home;
          own = vars_of own.entry.items;
          rest = map item_of stop.entry.rest.items;
        } ∷ []) [] m) }
{
    let Stop {
        action,
        mut inside,
        rest,
    } = stop;
    inside.push(Call { home, own, rest })?;
    Ok(RunResult::Stops(Stop {
        action,
        inside,
        rest: Vec::new(alloc),
    }))
}
