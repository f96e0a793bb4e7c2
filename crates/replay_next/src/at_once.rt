//! Expressions that are answered where they are met: names and literals, and what stands over these
//! alone.

ghost use Rattle.std.specs.Prelude.{◌≡◌, IfSome};
ghost use Rattle.base.specs.Words.{with_word};
ghost use Rattle.source_semantics.specs.Run as run_of;
ghost use Rattle.replay_calls.specs.Reach.{memory_of, site_of};
ghost use Rattle.replay_calls.specs.Seen.{answer_of};
ghost use Rattle.replay_next.specs.Remains.{expr_of, operands_of};

use replay_calls::{Answer, EvalContext, Memory, element, joined, minus, name_value, opposite};
use replay_state::CallOwner;
use syntax_tree::{Expr, Op};

/// The answer of a literal, of a truth value, or of a name.
fn atom(
    scope: &EvalContext<'_>,
    home: CallOwner,
    depth: usize,
    memory: &Memory<'_, '_>,
    expr: &Expr,
) -> Option<Answer>
    ensures { let c = site_of scope.now home depth in let m = memory_of memory.now in
        IfSome result (λ answer. answer_of answer ≡ run_of.value c m (expr_of expr.now)) }
{
    match expr {
        Expr::Literal { value, .. } => Some(Answer::Word(i64::from(*value))),
        Expr::True { .. } => Some(Answer::Word(1)),
        Expr::False { .. } => Some(Answer::Word(0)),
        Expr::Variable { name, .. } => Some(name_value(scope, home, depth, memory, name)),
        _ => None,
    }
}

/// The same, and the answer of what stands over one of these.
fn operand(
    scope: &EvalContext<'_>,
    home: CallOwner,
    depth: usize,
    memory: &Memory<'_, '_>,
    expr: &Expr,
) -> Option<Answer>
    ensures { let c = site_of scope.now home depth in let m = memory_of memory.now in
        IfSome result (λ answer. answer_of answer ≡ run_of.value c m (expr_of expr.now)) }
{
    match expr {
        Expr::Element { name, index, .. } => {
            let at = atom(scope, home, depth, memory, index)?;
            Some(element(home, memory, name, at))
        }
        Expr::Minus { operand, .. } => Some(minus(atom(scope, home, depth, memory, operand)?)),
        Expr::Not { operand, .. } => Some(opposite(atom(scope, home, depth, memory, operand)?)),
        _ => atom(scope, home, depth, memory, expr),
    }
}

/// The answer of a row of these, of which the part left of it has this answer.
fn operands(
    scope: &EvalContext<'_>,
    home: CallOwner,
    depth: usize,
    memory: &Memory<'_, '_>,
    first: Answer,
    rest: &[(Op, Expr)],
) -> Option<Answer>
    ensures { let c = site_of scope.now home depth in let m = memory_of memory.now in
        IfSome result (λ answer. answer_of answer ≡ with_word (answer_of first)
        (λ v. run_of.row_value c m (operands_of rest.now) v)) }
{
    let mut left = first;
    for part in rest {
        let right = operand(scope, home, depth, memory, &part.1)?;
        left = joined(part.0, left, right);
    }
    Some(left)
}

/// The answer of an expression, where it needs no step of its own.
pub fn at_once(
    scope: &EvalContext<'_>,
    home: CallOwner,
    depth: usize,
    memory: &Memory<'_, '_>,
    expr: &Expr,
) -> Option<Answer>
    ensures { let c = site_of scope.now home depth in let m = memory_of memory.now in
        IfSome result (λ answer. answer_of answer ≡ run_of.value c m (expr_of expr.now)) }
{
    match expr {
        Expr::Chain { first, rest } => {
            let left = operand(scope, home, depth, memory, first)?;
            operands(scope, home, depth, memory, left, rest.as_slice())
        }
        _ => operand(scope, home, depth, memory, expr),
    }
}
