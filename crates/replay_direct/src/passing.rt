//! Direct actions done where the calls stand.

ghost use Rattle.std.specs.Prelude.{◌≡◌, [], map};
ghost use Rattle.syntax_tree.specs.Placed.{placed_stmts, plain_stmts};
ghost use Rattle.source_semantics.specs.Config.{changed, idle, job_calls, job_doing};
ghost use Rattle.replay_state.specs.View.{calls_of, item_of, jobs_of};
ghost use Rattle.replay_direct.specs.Direct.{calls_from, items_from};

use replay_state::{Activity, Call, Item, ProcessState};
use syntax_tree::Stmt;

/// These statements stand in place of the first item.
fn pass_item<'a>(items: &mut Vec<Item<'a>>, others: &'a [Stmt])
    ensures { map item_of items.new.items ≡
        items_from (plain_stmts (placed_stmts others.now)) (map item_of items.old.items) }
{
    if !items.is_empty() {
        items[0] = Item::DoAll(others);
    }
}

/// The same in the innermost call.
fn pass_call<'a>(calls: &mut Vec<Call<'a>>, others: &'a [Stmt])
    ensures { calls_of calls.new.items ≡
        calls_from (plain_stmts (placed_stmts others.now)) (calls_of calls.old.items) }
{
    if !calls.is_empty() {
        pass_item(&mut calls[0].rest, others);
    }
}

/// The process has put, and of the first item of its innermost call these statements remain.
pub fn pass_put<'a>(jobs: &mut Vec<ProcessState<'a>>, process: usize, others: &'a [Stmt])
    ensures { jobs_of jobs.new.items ≡ changed
        (λ j. job_calls (calls_from (plain_stmts (placed_stmts others.now)) j.calls) j) process
        (jobs_of jobs.old.items) }
{
    if process < jobs.len() {
        pass_call(&mut jobs[process].calls, others);
    }
}

/// The process has ended: no call is left, and it is idle.
pub fn end_calls(jobs: &mut Vec<ProcessState<'_>>, process: usize)
    ensures { jobs_of jobs.new.items ≡ changed (λ j. job_doing idle (job_calls [] j)) process
        (jobs_of jobs.old.items) }
{
    if process < jobs.len() {
        let job = &mut jobs[process];
        job.calls.clear();
        job.doing = Activity::Idle;
    }
}
