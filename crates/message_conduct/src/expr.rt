//! Calls in expressions.

ghost use Rattle.std.specs.Prelude.{◌≡◌};
ghost use Rattle.syntax_tree.specs.Placed.{placed, placed_expr, placed_exprs, placed_operands};
ghost use Rattle.static_declarations.specs.Things.{named_at};
ghost use Rattle.message_conduct.specs.Faults.{expr_fault, exprs_fault, operands_fault};
ghost use Rattle.message_conduct.specs.Seen.{seen};

use crate::calls::term;
use crate::stray::{Stray, first};
use static_declarations::Declarations;
use syntax_tree::{Expr, Op};

/// The first call in an expression that may not stand in one.
#[cycle(strays)]
pub(crate) fn expr_stray<'a>(declarations: &Declarations<'_>, e: &'a Expr) -> Option<Stray<'a>>
    ensures { seen result ≡ expr_fault (named_at (placed declarations.now)) (placed_expr e.now) }
{
    match e {
        Expr::Literal { .. } | Expr::True { .. } | Expr::False { .. } | Expr::Variable { .. } => {
            None
        }
        Expr::Element { index, .. } => expr_stray(declarations, index),
        Expr::Call { place, name, args } => first(
            exprs_stray(declarations, args.as_slice()),
            term(declarations, name, *place),
        ),
        Expr::Minus { operand, .. } | Expr::Not { operand, .. } => {
            expr_stray(declarations, operand)
        }
        Expr::Paren { inner, .. } => expr_stray(declarations, inner),
        Expr::Chain { first: left, rest } => first(
            expr_stray(declarations, left),
            operands_stray(declarations, rest.as_slice()),
        ),
    }
}

/// The same of the expressions of a list.
#[cycle(strays)]
pub(crate) fn exprs_stray<'a>(
    declarations: &Declarations<'_>,
    list: &'a [Expr],
) -> Option<Stray<'a>>
    ensures { seen result ≡ exprs_fault (named_at (placed declarations.now)) (placed_exprs list.now) }
{
    for e in list {
        if let Some(stray) = expr_stray(declarations, e) {
            return Some(stray);
        }
    }
    None
}

/// The same of the right operands of a row.
#[cycle(strays)]
fn operands_stray<'a>(declarations: &Declarations<'_>, rest: &'a [(Op, Expr)]) -> Option<Stray<'a>>
    ensures { seen result ≡ operands_fault (named_at (placed declarations.now))
        (placed_operands rest.now) }
{
    for operand in rest {
        if let Some(stray) = expr_stray(declarations, &operand.1) {
            return Some(stray);
        }
    }
    None
}
