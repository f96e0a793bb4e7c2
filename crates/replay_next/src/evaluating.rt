//! Expressions, evaluated part by part.

ghost use Rattle.std.specs.Prelude.{◌≡◌, ◌+◌, ◌<◌, ◌≤◌, IfOk, ℕ, suc};
ghost use Rattle.base.specs.Words.{with_word};
ghost use Rattle.syntax_tree.specs.Plain.{call as called_expr};
ghost use Rattle.syntax_tree.specs.Placed.{placed, plain};
ghost use Rattle.source_semantics.specs.Run as run_of;
ghost use Rattle.replay_calls.specs.Lookups.{found_of};
ghost use Rattle.replay_calls.specs.Reach.{memory_of, site_of};
ghost use Rattle.replay_calls.specs.Seen.{answer_of};
ghost use Rattle.replay_next.specs.Remains.{bound_of, expr_of, expr_told as item_told, exprs_of, operands_of, step_of, told};
ghost use Rattle.replay_next.specs.Weights.{Costs, bound_weight, costs, expr_item_weight, expr_weight, exprs_weight, named_weight, operands_weight, remains_weight, step_weight};

use crate::binding::{bind, next_argument};
use crate::calling::own_vars;
use crate::remains::{BoundSoFar, CalledRoutine, ExprItem, Part, Remains, Step};
use out_of_memory::OutOfMemory;
use replay_calls::{
    Answer, EvalContext, Memory, ResolvedRoutine, element, joined, minus, name_value, opposite,
    routine_named,
};
use replay_state::CallOwner;
use syntax_tree::{Expr, Name, Op};

/// A part of an expression is evaluated next, after which this remains besides.
fn deeper<'a>(
    part: &'a Expr,
    item: ExprItem<'a>,
    remains: Remains<'a>,
) -> Result<Step<'a>, OutOfMemory>
    ensures run { IfOk result (λ step. (c : run_of.Site) (m : run_of.Memory) → step_of c step m ≡
        told c m remains.entry (item_told c m item.entry (run_of.value c m (expr_of part.now)))) }
    ensures falls { IfOk result (λ step. (k : Costs) → step_weight k step ≡
        expr_weight k (expr_of part.now) +
        (expr_item_weight k item.entry + remains_weight k remains.entry)) }
{
    let Remains { mut exprs, stmt } = remains;
    exprs.push(item)?;
    Ok(Step::Part(Part::Expr(part), Remains { exprs, stmt }))
}

/// A call of a function, its arguments so far.
fn function_called<'a>(
    scope: &EvalContext<'a>,
    found: ResolvedRoutine<'a>,
    bound: BoundSoFar<'a>,
    remains: Remains<'a>,
) -> Result<Step<'a>, OutOfMemory>
    ensures run { IfOk result (λ step. (c : run_of.Site) (m : run_of.Memory) →
        c.program ≡ plain (placed scope.now.declarations.now) → step_of c step m ≡
        told c m remains.entry (run_of.answer_of c m (found_of found.entry)
        (bound_of c m bound.entry))) }
    ensures falls { IfOk result (λ step. (k : Costs) → step_weight k step ≤
        k.found (found_of found.entry) + (bound_weight k bound.entry +
        remains_weight k remains.entry)) }
{
    match bound {
        BoundSoFar::Raised(number) => Ok(Step::Part(Part::Answer(Answer::Raised(number)), remains)),
        BoundSoFar::Next(part, binding) => {
            deeper(part, ExprItem::Argument { found, binding }, remains)
        }
        BoundSoFar::All(params) => {
            let own = own_vars(scope.alloc, scope.declarations, found.routine, params)?;
            Ok(Step::Part(Part::Call(CalledRoutine { found, own }), remains))
        }
    }
}

/// A call of a function.
fn call<'a>(
    scope: &EvalContext<'a>,
    home: CallOwner,
    depth: usize,
    memory: &Memory<'_, 'a>,
    name: &Name,
    args: &'a [Expr],
    remains: Remains<'a>,
) -> Result<Step<'a>, OutOfMemory>
    ensures run { let c = site_of scope.now home depth in let m = memory_of memory.now in
        IfOk result (λ step. step_of c step m ≡ told c m remains.entry
        (run_of.value c m (called_expr name.now (exprs_of args.now)))) }
    ensures falls { let k = costs scope.now depth in IfOk result (λ step. step_weight k step ≤
        named_weight k name.now + (exprs_weight k (exprs_of args.now) +
        remains_weight k remains.entry)) }
{
    match routine_named(scope, name) {
        None => Ok(Step::Part(Part::Answer(Answer::Word(0)), remains)),
        Some(found) => {
            let params = found.routine.params.as_slice();
            let bound = next_argument(Vec::new(scope.alloc), params, args);
            function_called(scope, found, bound, remains)
        }
    }
}

/// The first step of an expression.
pub fn evaluate<'a>(
    scope: &EvalContext<'a>,
    home: CallOwner,
    depth: usize,
    memory: &Memory<'_, 'a>,
    expr: &'a Expr,
    remains: Remains<'a>,
) -> Result<Step<'a>, OutOfMemory>
    ensures run { let c = site_of scope.now home depth in let m = memory_of memory.now in
        IfOk result (λ step. step_of c step m ≡
        told c m remains.entry (run_of.value c m (expr_of expr.now))) }
    ensures falls { let k = costs scope.now depth in IfOk result (λ step. step_weight k step <
        expr_weight k (expr_of expr.now) + remains_weight k remains.entry) }
{
    match expr {
        Expr::Literal { value, .. } => {
            Ok(Step::Part(Part::Answer(Answer::Word(i64::from(*value))), remains))
        }
        Expr::True { .. } => Ok(Step::Part(Part::Answer(Answer::Word(1)), remains)),
        Expr::False { .. } => Ok(Step::Part(Part::Answer(Answer::Word(0)), remains)),
        Expr::Variable { name, .. } => {
            Ok(Step::Part(
                Part::Answer(name_value(scope, home, depth, memory, name)),
                remains,
            ))
        }
        Expr::Element { name, index, .. } => deeper(index, ExprItem::Element(name), remains),
        Expr::Call { name, args, .. } => {
            call(scope, home, depth, memory, name, args.as_slice(), remains)
        }
        Expr::Minus { operand, .. } => deeper(operand, ExprItem::Minus, remains),
        Expr::Not { operand, .. } => deeper(operand, ExprItem::Not, remains),
        Expr::Paren { inner, .. } => Ok(Step::Part(Part::Expr(inner), remains)),
        Expr::Chain { first, rest } => deeper(first, ExprItem::Row(rest.as_slice()), remains),
    }
}

/// A row of operators, of which the part left of it has this answer.
fn row<'a>(
    left: Answer,
    rest: &'a [(Op, Expr)],
    remains: Remains<'a>,
) -> Result<Step<'a>, OutOfMemory>
    ensures run { IfOk result (λ step. (c : run_of.Site) (m : run_of.Memory) → step_of c step m ≡
        told c m remains.entry (with_word (answer_of left)
        (λ v. run_of.row_value c m (operands_of rest.now) v))) }
    ensures falls { IfOk result (λ step. (k : Costs) → step_weight k step ≤
        operands_weight k (operands_of rest.now) + remains_weight k remains.entry) }
{
    match left {
        Answer::Raised(_) => Ok(Step::Part(Part::Answer(left), remains)),
        Answer::Word(word) => match rest.split_first() {
            None => Ok(Step::Part(Part::Answer(left), remains)),
            Some((operand, rest)) => {
                let item = ExprItem::Operand {
                    left: word,
                    op: operand.0,
                    rest,
                };
                deeper(&operand.1, item, remains)
            }
        },
    }
}

/// The next step of an expression, of which this part has this answer.
pub fn tell_expr<'a>(
    scope: &EvalContext<'a>,
    home: CallOwner,
    depth: usize,
    memory: &Memory<'_, 'a>,
    item: ExprItem<'a>,
    answer: Answer,
    remains: Remains<'a>,
) -> Result<Step<'a>, OutOfMemory>
    ensures run { let c = site_of scope.now home depth in let m = memory_of memory.now in
        IfOk result (λ step. step_of c step m ≡
        told c m remains.entry (item_told c m item.entry (answer_of answer))) }
    ensures falls { let k = costs scope.now depth in IfOk result (λ step. step_weight k step <
        expr_item_weight k item.entry + remains_weight k remains.entry) }
{
    match item {
        ExprItem::Element(name) => {
            Ok(Step::Part(Part::Answer(element(home, memory, name, answer)), remains))
        }
        ExprItem::Minus => Ok(Step::Part(Part::Answer(minus(answer)), remains)),
        ExprItem::Not => Ok(Step::Part(Part::Answer(opposite(answer)), remains)),
        ExprItem::Row(rest) => row(answer, rest, remains),
        ExprItem::Operand { left, op, rest } => {
            row(joined(op, Answer::Word(left), answer), rest, remains)
        }
        ExprItem::Argument { found, binding } => {
            let bound = bind(scope, binding, answer)?;
            function_called(scope, found, bound, remains)
        }
    }
}
