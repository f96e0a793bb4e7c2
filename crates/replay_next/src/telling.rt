//! Statements whose expression is evaluated.

ghost use Rattle.std.specs.Prelude.{◌≡◌, ◌+◌, ◌<◌, ◌≤◌, ◌∷◌, [], IfOk, OnOk, cond, suc};
ghost use Rattle.base.specs.Words.{is_true as is_truth};
ghost use Rattle.source_semantics.specs.Run as run_of;
ghost use Rattle.replay_calls.specs.Reach.{memory_of, site_of};
ghost use Rattle.replay_calls.specs.Seen.{answer_of};
ghost use Rattle.replay_next.specs.Driving.{others_of};
ghost use Rattle.replay_next.specs.Remains.{step_of, stmt_told as item_told, stmts_of, told};
ghost use Rattle.replay_next.specs.Weights.{Costs, costs, remains_weight, step_weight, stmt_item_weight, stmts_weight};
ghost use Rattle.replay_next.specs.Ran.{ran_of};

use crate::beginning::{entry_called, procedure_called, ran, use_target};
use crate::binding::bind;
use crate::evaluating::tell_expr;
use crate::remains::{AwaitingCall, Beside, ItemResult, Remains, Step, StmtItem};
use crate::results::{RunResult, stops};
use crate::storing::store;
use crate::visible::{ConditionResult, asserted, device_here, exited, puts, tested};
use out_of_memory::OutOfMemory;
use replay_calls::{Answer, EvalContext, Memory, checked, range_of};
use replay_state::{Action, CallOwner, Item, Target};
use std::alloc::Global;
use syntax_tree::Stmt;

/// The monitor is left, and the answer is given back.
fn leaves<'a>(alloc: Global, mon: usize, answer: Answer) -> Result<RunResult<'a>, OutOfMemory>
    ensures { IfOk result (λ ran. (m : run_of.Memory) → ran_of ran m ≡
        run_of.with_value (answer_of answer) m
        (λ v. run_of.stops (run_of.leaves mon) [] (run_of.give v ∷ []) m)) }
{
    match answer {
        Answer::Raised(number) => Ok(RunResult::Fails(number)),
        Answer::Word(value) => stops(alloc, Action::Leaves { mon }, Some(Item::Give(value))),
    }
}

/// A function is over with this answer.
fn gives<'a>(answer: Answer) -> Step<'a>
    ensures run { (c : run_of.Site) (m : run_of.Memory) → step_of c result m ≡
        run_of.with_value (answer_of answer) m (λ v. run_of.answers v m) }
    ensures falls { (k : Costs) → step_weight k result ≡ 0 }
{
    match answer {
        Answer::Raised(number) => ran(RunResult::Fails(number)),
        Answer::Word(value) => Step::Came(ItemResult::Gives(value)),
    }
}

/// The statements of a choice.
fn chosen<'a>(first: &'a [Stmt], second: &'a [Stmt], answer: Answer) -> Step<'a>
    ensures run { (c : run_of.Site) (m : run_of.Memory) → step_of c result m ≡
        run_of.with_value (answer_of answer) m (λ v. cond (is_truth v)
        (run_of.run_all c m (stmts_of first.now)) (run_of.run_all c m (stmts_of second.now))) }
    ensures falls { (k : Costs) → step_weight k result ≤
        suc (stmts_weight k (stmts_of first.now) + stmts_weight k (stmts_of second.now)) }
{
    match tested(answer) {
        ConditionResult::Raised(number) => ran(RunResult::Fails(number)),
        ConditionResult::Holds => Step::Does(first),
        ConditionResult::Not => Step::Does(second),
    }
}

/// The next step of a statement, whose expression has this answer.
fn tell_stmt<'s, 'a>(
    scope: &EvalContext<'a>,
    home: CallOwner,
    depth: usize,
    memory: &mut Memory<'s, 'a>,
    kept: &mut Option<Beside<'s, 'a>>,
    stmt: StmtItem<'a>,
    answer: Answer,
) -> Result<Step<'a>, OutOfMemory>
    ensures run { let c = site_of scope.now home depth in IfOk result (λ step.
        step_of c step (memory_of memory.new) ≡
        item_told c (memory_of memory.old) stmt.entry (answer_of answer)) }
    ensures others { OnOk result (others_of kept.new memory.new ≡ others_of kept.old memory.old) }
    ensures falls { let k = costs scope.now depth in IfOk result (λ step.
        step_weight k step < stmt_item_weight k stmt.entry) }
{
    match stmt {
        StmtItem::Index { name, then } => match answer {
            Answer::Raised(number) => Ok(ran(RunResult::Fails(number))),
            Answer::Word(at) => {
                let index = Some(at);
                use_target(scope, home, depth, then, Target { name, index })
            }
        },
        StmtItem::Store(target) => {
            Ok(ran(store(scope.alloc, home, memory, kept, target, answer)?))
        }
        StmtItem::Choice { first, second } => Ok(chosen(first, second, answer)),
        StmtItem::Exit => Ok(ran(exited(answer))),
        StmtItem::Assertion => Ok(ran(asserted(answer))),
        StmtItem::Put(device) => { Ok(ran(puts(scope.alloc, device_here(scope, device), answer)?)) }
        StmtItem::Perform(call) => {
            let AwaitingCall { found, binding } = Box::into_inner(call);
            let bound = bind(scope, binding, answer)?;
            procedure_called(scope, found, bound)
        }
        StmtItem::Enter { call, mon, target } => {
            let AwaitingCall { found, binding } = Box::into_inner(call);
            let bound = bind(scope, binding, answer)?;
            entry_called(scope, found, bound, mon, target)
        }
        StmtItem::Leave { mon, kind } => {
            let answer = checked(range_of(scope.declarations, kind), answer);
            Ok(ran(leaves(scope.alloc, mon, answer)?))
        }
        StmtItem::Result(kind) => { Ok(gives(checked(range_of(scope.declarations, kind), answer))) }
    }
}

/// The next step, where what was evaluated has this answer.
pub fn tell<'s, 'a>(
    scope: &EvalContext<'a>,
    home: CallOwner,
    depth: usize,
    memory: &mut Memory<'s, 'a>,
    kept: &mut Option<Beside<'s, 'a>>,
    remains: Remains<'a>,
    answer: Answer,
) -> Result<Step<'a>, OutOfMemory>
    ensures run { let c = site_of scope.now home depth in IfOk result (λ step.
        step_of c step (memory_of memory.new) ≡
        told c (memory_of memory.old) remains.entry (answer_of answer)) }
    ensures others { OnOk result (others_of kept.new memory.new ≡ others_of kept.old memory.old) }
    ensures falls { let k = costs scope.now depth in IfOk result (λ step.
        step_weight k step < remains_weight k remains.entry) }
{
    let Remains { mut exprs, stmt } = remains;
    match exprs.pop() {
        None => tell_stmt(scope, home, depth, memory, kept, stmt, answer),
        Some(item) => {
            let remains = Remains { exprs, stmt };
            tell_expr(scope, home, depth, memory, item, answer, remains)
        }
    }
}
