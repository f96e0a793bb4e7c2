//! Values that calls wait for.

ghost use Rattle.std.specs.Prelude.{Some, map, ◌≡◌};
ghost use Rattle.base.specs.Words.{of_bool};
ghost use Rattle.source_semantics.specs.Next.{given, given_item};
ghost use Rattle.source_semantics.specs.Config.{changed, job_calls};
ghost use Rattle.replay_state.specs.View.{calls_of, item_of, jobs_of};
ghost use Rattle.replay_accept.specs.Told.{awaited, first_awaited};

use replay_state::{Call, Item, ProcessState, Target};

/// The variable that the item waits to store to.
fn target_of<'a>(item: &Item<'a>) -> Option<Target<'a>>
    ensures { result ≡ awaited item.now }
{
    match *item {
        Item::Receive(target) => Some(target),
        Item::DoAll(_)
        | Item::TurnsLeft { .. }
        | Item::Store { .. }
        | Item::EnterAgain { .. }
        | Item::LeaveWith { .. }
        | Item::Give(_) => None,
    }
}

/// The variable that the first item waits to store to.
fn first_target<'a>(items: &[Item<'a>]) -> Option<Target<'a>>
    ensures { result ≡ first_awaited items.now }
{
    match items.first() {
        None => None,
        Some(item) => target_of(item),
    }
}

/// The value is stored next, if it is waited for.
fn give_items(items: &mut Vec<Item<'_>>, value: i64)
    ensures { map item_of items.new.items ≡
        given_item (Some value) (map item_of items.old.items) }
{
    match first_target(items.as_slice()) {
        None => {}
        Some(target) => items[0] = Item::Store { target, value },
    }
}

/// The innermost call is given the value, if it waits for it.
fn give_calls(calls: &mut Vec<Call<'_>>, value: i64)
    ensures { calls_of calls.new.items ≡ given (Some value) (calls_of calls.old.items) }
{
    if !calls.is_empty() {
        give_items(&mut calls[0].rest, value);
    }
}

/// The process is given a value that it waits for.
pub fn give(jobs: &mut Vec<ProcessState<'_>>, process: usize, value: i64)
    ensures { jobs_of jobs.new.items ≡ changed (λ j. job_calls (given (Some value) j.calls) j)
        process (jobs_of jobs.old.items) }
{
    if process < jobs.len() {
        give_calls(&mut jobs[process].calls, value);
    }
}

/// The word of a truth value.
pub fn word_of(holds: bool) -> i64
    ensures { result ≡ of_bool holds }
{
    if holds { 1 } else { 0 }
}
