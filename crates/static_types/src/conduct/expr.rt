//! Calls in expressions.

ghost use Rattle.std.specs.Prelude.{◌≡◌};
ghost use Rattle.syntax_tree.specs.Placed.{placed, placed_expr, placed_exprs, placed_operands};
ghost use Rattle.static_declarations.specs.Things.{named_at};
ghost use Rattle.static_types.specs.Conduct.{is_barred as names_barred, strays as expr_strays, exprs_stray as some_stray, operands_stray as operands_do_stray};

use static_declarations::{Declarations, Entity};
use syntax_tree::{Expr, Op, Place, RoutineKind};

/// Whether the name is that of a routine that an expression may not call: a procedure, or an entry
/// by its bare name.
fn is_barred(declarations: &Declarations<'_>, place: Place) -> bool
    ensures { result ≡ names_barred (named_at (placed declarations.now) place) }
{
    match declarations.named(place) {
        Some(Entity::Routine { is_entry, routine }) => {
            is_entry || routine.kind == RoutineKind::Procedure
        }
        _ => false,
    }
}

/// Whether a procedure, or an entry by its bare name, is called in the expression.
#[cycle(strays)]
pub fn strays(declarations: &Declarations<'_>, e: &Expr) -> bool
    ensures { result ≡ expr_strays (named_at (placed declarations.now)) (placed_expr e.now) }
{
    match e {
        Expr::Literal { .. } | Expr::True { .. } | Expr::False { .. } | Expr::Variable { .. } => {
            false
        }
        Expr::Element { index, .. } => strays(declarations, index),
        Expr::Call { place, args, .. } => {
            is_barred(declarations, *place) || exprs_stray(declarations, args.as_slice())
        }
        Expr::Minus { operand, .. } | Expr::Not { operand, .. } => strays(declarations, operand),
        Expr::Paren { inner, .. } => strays(declarations, inner),
        Expr::Chain { first, rest } => {
            strays(declarations, first) || operands_stray(declarations, rest.as_slice())
        }
    }
}

/// The same of some expression of a list.
#[cycle(strays)]
pub fn exprs_stray(declarations: &Declarations<'_>, list: &[Expr]) -> bool
    ensures { result ≡ some_stray (named_at (placed declarations.now)) (placed_exprs list.now) }
{
    for e in list {
        if strays(declarations, e) {
            return true;
        }
    }
    false
}

/// The same of some right operand of a row.
#[cycle(strays)]
fn operands_stray(declarations: &Declarations<'_>, rest: &[(Op, Expr)]) -> bool
    ensures { result ≡ operands_do_stray (named_at (placed declarations.now))
        (placed_operands rest.now) }
{
    for operand in rest {
        if strays(declarations, &operand.1) {
            return true;
        }
    }
    false
}

/// Whether the expression of a function's result calls a procedure, or an entry by its bare name.
pub fn answer_strays(declarations: &Declarations<'_>, e: &Expr) -> bool
    ensures { result ≡ expr_strays (named_at (placed declarations.now)) (placed_expr e.now) }
{
    strays(declarations, e)
}
