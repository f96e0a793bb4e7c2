//! The sorts in expressions.

ghost use Rattle.std.specs.Prelude.{◌≡◌, Some, map, option_map};
ghost use Rattle.syntax_tree.specs.Placed.{placed, placed_expr, placed_exprs, placed_operands, placed_param};
ghost use Rattle.static_declarations.specs.Things.{named_at};
ghost use Rattle.static_types.specs.Sorts.{judged, row_judged, asked as params_asked, call_agrees as call_is_agreed};
ghost use Rattle.static_types.specs.Types.{is_of as has_the_sort};

use crate::types::sorts::{answer_sort, element_sort, fits, gives, takes, word};
use static_declarations::{Declarations, Entity, Sort, sort_of};
use syntax_tree::{Expr, Op, Param, Place};

/// The parameters of a routine that is called.
pub fn asked<'a>(declarations: &Declarations<'a>, place: Place) -> Option<&'a [Param]>
    ensures { option_map (λ ps. map placed_param ps.now) result ≡
        params_asked (named_at (placed declarations.now) place) }
{
    match declarations.named(place)? {
        Entity::Routine { routine, .. } => Some(routine.params.as_slice()),
        _ => None,
    }
}

/// The sort that an expression has by its form, where the sorts in it agree: an array is used by
/// element only, an index is a number, and each operator and each routine has operands of its
/// sorts. A call of a procedure has no sort.
#[cycle(agrees)]
pub fn agreed(declarations: &Declarations<'_>, e: &Expr) -> Option<Option<Sort>>
    ensures { result ≡ judged (named_at (placed declarations.now)) (placed_expr e.now) }
{
    match e {
        Expr::Literal { .. } => Some(Some(Sort::Number)),
        Expr::True { .. } | Expr::False { .. } => Some(Some(Sort::Truth)),
        Expr::Variable { place, .. } => word(declarations, *place),
        Expr::Element { place, index, .. } => match element_sort(declarations, *place) {
            Some(sort) if is_of(declarations, Sort::Number, index) => Some(Some(sort)),
            _ => None,
        },
        Expr::Call { place, args, .. } => {
            if call_agrees(declarations, *place, args.as_slice()) {
                Some(answer_sort(declarations, *place))
            } else {
                None
            }
        }
        Expr::Minus { operand, .. } => {
            if is_of(declarations, Sort::Number, operand) {
                Some(Some(Sort::Number))
            } else {
                None
            }
        }
        Expr::Not { operand, .. } => {
            if is_of(declarations, Sort::Truth, operand) {
                Some(Some(Sort::Truth))
            } else {
                None
            }
        }
        Expr::Paren { inner, .. } => agreed(declarations, inner),
        Expr::Chain { first, rest } => {
            row_agreed(declarations, agreed(declarations, first)?, rest.as_slice())
        }
    }
}

/// The sort of a row where operands and their operators agree; what stands left of them has the
/// sort `left`.
#[cycle(agrees)]
fn row_agreed(
    declarations: &Declarations<'_>,
    left: Option<Sort>,
    rest: &[(Op, Expr)],
) -> Option<Option<Sort>>
    ensures { result ≡ row_judged (named_at (placed declarations.now)) left
        (placed_operands rest.now) }
{
    let mut left = left;
    for operand in rest {
        let right = agreed(declarations, &operand.1)?;
        if !takes(operand.0, left, right) {
            return None;
        }
        left = Some(gives(operand.0));
    }
    Some(left)
}

/// Whether there are as many arguments as parameters, each of its parameter's sort.
#[cycle(agrees)]
fn args_agree(declarations: &Declarations<'_>, params: &[Param], args: &[Expr]) -> bool
    ensures { result ≡ call_is_agreed (named_at (placed declarations.now))
        (Some (map placed_param params.now)) (placed_exprs args.now) }
{
    let mut left = params;
    for arg in args {
        let Some((param, others)) = left.split_first() else {
            return false;
        };
        if !is_of(declarations, sort_of(&param.kind), arg) {
            return false;
        }
        left = others;
    }
    left.is_empty()
}

/// Whether a call at the place has as many arguments as the routine has parameters, each of its
/// parameter's sort.
#[cycle(agrees)]
pub fn call_agrees(declarations: &Declarations<'_>, place: Place, args: &[Expr]) -> bool
    ensures { let named = named_at (placed declarations.now) in result ≡
        call_is_agreed named (params_asked (named place)) (placed_exprs args.now) }
{
    match asked(declarations, place) {
        None => true,
        Some(params) => args_agree(declarations, params, args),
    }
}

/// Whether an expression agrees and has the sort.
#[cycle(agrees)]
pub fn is_of(declarations: &Declarations<'_>, want: Sort, e: &Expr) -> bool
    ensures { result ≡ has_the_sort (named_at (placed declarations.now)) want (placed_expr e.now) }
{
    match agreed(declarations, e) {
        Some(sort) => fits(want, sort),
        None => false,
    }
}
