//! What the items of a call come to.

ghost use Rattle.std.specs.Prelude.{◌≡◌, ◌*◌, ◌+◌, ◌<◌, ◌∷◌, IfOk, List, OnOk, Option, option_map, suc};
ghost use Rattle.source_semantics.specs.Next as next_of_source;
ghost use Rattle.source_semantics.specs.Run as run_of;
ghost use Rattle.replay_state.specs.View.{answers_of, item_of, vars_of};
ghost use Rattle.replay_calls.specs.Reach.{memory_of, site_of};
ghost use Rattle.replay_next.specs.Driving.{others_of, rest_of, then_items};
ghost use Rattle.replay_next.specs.declared.remains.Beside as code_beside;
ghost use Rattle.replay_next.specs.Ran.{ran_of};
ghost use Rattle.replay_next.specs.Remains.{step_of, stmts_of};
ghost use Rattle.replay_next.specs.Weights.{Costs, answers_weight, costs, item_weight, items_weight, step_weight, stmts_weight};

use crate::beginning::{begin, evaluates, ran};
use crate::remains::{Beside, ItemResult, Step, StmtItem};
use crate::results::{RunResult, stops};
use crate::storing::store;
use out_of_memory::OutOfMemory;
use replay_calls::{Answer, EvalContext, Memory, drop_turn, push_turn};
use replay_state::{Action, CallOwner, Item, ResultExpr, Slot, TurnsLeft};
use std::alloc::Global;
use syntax_tree::{Name, Stmt};

/// The end of an entry: its answer is evaluated inside the monitor.
fn leave_with<'a>(
    alloc: Global,
    answers: Option<ResultExpr<'a>>,
    mon: usize,
) -> Result<Step<'a>, OutOfMemory>
    ensures run { IfOk result (λ step. (c : run_of.Site) (m : run_of.Memory) →
        step_of c step m ≡ next_of_source.left_with c m mon (option_map answers_of answers.entry)) }
    ensures falls { IfOk result (λ step. (k : Costs) →
        step_weight k step < suc (answers_weight k (option_map answers_of answers.entry))) }
{
    match answers {
        None => Ok(ran(stops(alloc, Action::Leaves { mon }, None)?)),
        Some(ResultExpr { kind, value }) => {
            Ok(evaluates(alloc, value, StmtItem::Leave { mon, kind }))
        }
    }
}

/// The innermost loop's variable goes out of reach.
fn end_turn(memory: &mut Memory<'_, '_>)
    ensures same { memory_of memory.new ≡ run_of.without_turn (memory_of memory.old) }
    ensures others { (kept : Option code_beside.Beside) →
        others_of kept memory.new ≡ others_of kept memory.old }
{
    drop_turn(&mut memory.own);
}

/// A loop before its next turn: the variable of the last one goes out of reach.
fn begin_turns<'a>(
    memory: &mut Memory<'_, 'a>,
    name: &'a Name,
    turns: TurnsLeft,
    body: &'a [Stmt],
) -> Step<'a>
    ensures run { (c : run_of.Site) → step_of c result (memory_of memory.new) ≡
        next_of_source.run_item c (memory_of memory.old)
        (run_of.turns_left name.now turns.value turns.left (stmts_of body.now)) }
    ensures others { (kept : Option code_beside.Beside) →
        others_of kept memory.new ≡ others_of kept memory.old }
    ensures falls { (k : Costs) → step_weight k result ≡
        suc (turns.left * suc (suc (suc (suc (stmts_weight k (stmts_of body.now)))))) }
{
    end_turn(memory);
    Step::Turns { name, turns, body }
}

/// The first step of an item, of which the others remain.
pub fn begin_item<'s, 'a>(
    scope: &EvalContext<'a>,
    home: CallOwner,
    depth: usize,
    memory: &mut Memory<'s, 'a>,
    kept: &mut Option<Beside<'s, 'a>>,
    rest: &mut Vec<Item<'a>>,
    item: Item<'a>,
) -> Result<Step<'a>, OutOfMemory>
    ensures run { let c = site_of scope.now home depth in IfOk result (λ step.
        then_items c (rest_of rest.new.items) (step_of c step (memory_of memory.new)) ≡
        then_items c (rest_of rest.old.items)
        (next_of_source.run_item c (memory_of memory.old) (item_of item.entry))) }
    ensures others { OnOk result (others_of kept.new memory.new ≡ others_of kept.old memory.old) }
    ensures falls { let k = costs scope.now depth in IfOk result (λ step.
        items_weight k rest.new.items + step_weight k step <
        items_weight k rest.old.items + item_weight k (item_of item.entry)) }
{
    match item {
        Item::DoAll(stmts) => next_stmt(scope, home, depth, rest, stmts),
        Item::TurnsLeft { name, turns, body } => Ok(begin_turns(memory, name, turns, body)),
        Item::Receive(_) => Ok(ran(RunResult::Goes)),
        Item::Store { target, value } => {
            let answer = Answer::Word(value);
            Ok(ran(store(scope.alloc, home, memory, kept, target, answer)?))
        }
        Item::EnterAgain { mon } => Ok(ran(stops(scope.alloc, Action::Enters { mon }, None)?)),
        Item::LeaveWith { answers, mon } => leave_with(scope.alloc, answers, mon),
        Item::Give(value) => Ok(Step::Came(ItemResult::Gives(value))),
    }
}

/// What an item comes to while the innermost loop is being left: what is left of that loop is
/// dropped.
pub fn leave_item<'a>(memory: &mut Memory<'_, 'a>, item: Item<'a>) -> RunResult<'a>
    ensures run { (c : run_of.Site) (is : List run_of.Item) →
        then_items c is (ran_of result (memory_of memory.new)) ≡
        next_of_source.leave_loop c (memory_of memory.old) (item_of item.entry ∷ is) }
    ensures others { (kept : Option code_beside.Beside) →
        others_of kept memory.new ≡ others_of kept memory.old }
{
    match item {
        Item::TurnsLeft { .. } => {
            end_turn(memory);
            RunResult::Goes
        }
        _ => RunResult::Exits,
    }
}

/// The first step of statements, of which the others remain.
pub fn next_stmt<'a>(
    scope: &EvalContext<'a>,
    home: CallOwner,
    depth: usize,
    rest: &mut Vec<Item<'a>>,
    stmts: &'a [Stmt],
) -> Result<Step<'a>, OutOfMemory>
    ensures run { let c = site_of scope.now home depth in IfOk result (λ step.
        (m : run_of.Memory) → then_items c (rest_of rest.new.items) (step_of c step m) ≡
        then_items c (rest_of rest.old.items) (run_of.run_all c m (stmts_of stmts.now))) }
    ensures falls { let k = costs scope.now depth in IfOk result (λ step.
        items_weight k rest.new.items + step_weight k step <
        items_weight k rest.old.items + suc (stmts_weight k (stmts_of stmts.now))) }
{
    match stmts.split_first() {
        None => Ok(ran(RunResult::Goes)),
        Some((stmt, others)) => {
            rest.push(Item::DoAll(others))?;
            begin(scope, home, depth, stmt)
        }
    }
}

/// The next turn of a loop, of which the others remain.
pub fn next_turn<'a>(
    own: &mut Vec<Slot<'a>>,
    rest: &mut Vec<Item<'a>>,
    name: &'a Name,
    turns: TurnsLeft,
    body: &'a [Stmt],
) -> Result<Step<'a>, OutOfMemory>
    ensures run { IfOk result (λ step. (c : run_of.Site) (m : run_of.Memory) →
        then_items c (rest_of rest.new.items)
        (step_of c step (run_of.with_own m (vars_of own.new.items))) ≡
        then_items c (rest_of rest.old.items) (run_of.turns
        (λ n. run_of.run_all c n (stmts_of body.now)) name.now (stmts_of body.now) turns.left
        turns.value (run_of.with_own m (vars_of own.old.items)))) }
    ensures falls { IfOk result (λ step. (k : Costs) →
        items_weight k rest.new.items + step_weight k step < items_weight k rest.old.items +
        suc (turns.left * suc (suc (suc (suc (stmts_weight k (stmts_of body.now))))))) }
{
    if turns.left == 0 {
        return Ok(ran(RunResult::Goes));
    }
    push_turn(own, name, turns.value)?;
    let turns = TurnsLeft {
        value: turns.value + 1,
        left: turns.left - 1,
    };
    rest.push(Item::TurnsLeft { name, turns, body })?;
    Ok(Step::Does(body))
}
