//! Expressions.

ghost use Rattle.std.specs.Prelude.{◌≡◌, Some, map, option_map};
ghost use Rattle.syntax_tree.specs.Placed.{call, element, placed, placed_expr, placed_exprs, placed_operands, placed_param};
ghost use Rattle.static_declarations.specs.Things.{named_at};
ghost use Rattle.static_types.specs.Sorts.{asked as params_asked};
ghost use Rattle.message_types.specs.Mismatches.{args_mismatch as mismatch_in_args, miscounted as is_miscounted, mismatch as mismatch_in, row_mismatch as mismatch_in_row, unfit as is_unfit};
ghost use Rattle.message_types.specs.Seen.{seen, spot_of};

use crate::mismatch::{Mismatch, Spot, first};
use crate::sorts::{differ, gives, misjoined, sort, used_by_element, used_whole};
use static_declarations::{Declarations, Entity, Sort, sort_of};
use syntax_tree::{Expr, Op, Param, Place};

/// The parameters of a routine that is called.
fn asked<'a>(declarations: &Declarations<'a>, place: Place) -> Option<&'a [Param]>
    ensures { option_map (λ ps. map placed_param ps.now) result ≡
        params_asked (named_at (placed declarations.now) place) }
{
    match declarations.named(place)? {
        Entity::Routine { routine, .. } => Some(routine.params.as_slice()),
        _ => None,
    }
}

/// More or fewer arguments than parameters.
fn miscounted<'p>(routine: &'p [u8], params: &[Param], args: &[Expr]) -> Option<Mismatch<'p>>
    ensures { seen result ≡
        is_miscounted routine.now (Some (map placed_param params.now)) (placed_exprs args.now) }
{
    if args.len() == params.len() {
        return None;
    }
    Some(Mismatch::CountsDiffer {
        routine,
        wanted: params.len(),
        found: args.len(),
    })
}

/// The first mismatch in an expression; what stands inside comes before what is around it.
#[cycle(mismatch)]
pub(crate) fn mismatch<'p>(declarations: &Declarations<'_>, e: &'p Expr) -> Option<Mismatch<'p>>
    ensures { seen result ≡
        mismatch_in (named_at (placed declarations.now)) (placed_expr e.now) }
{
    match e {
        Expr::Literal { .. } | Expr::True { .. } | Expr::False { .. } => None,
        Expr::Variable { place, name } => used_whole(declarations, *place, name.as_bytes()),
        Expr::Element { place, name, index } => {
            element_mismatch(declarations, *place, name.as_bytes(), index)
        }
        Expr::Call { place, name, args } => {
            call_mismatch(declarations, *place, name.as_bytes(), args.as_slice())
        }
        Expr::Minus { operand, .. } => {
            unfit(declarations, Spot::BehindMinus, Sort::Number, operand)
        }
        Expr::Not { operand, .. } => unfit(declarations, Spot::BehindNot, Sort::Truth, operand),
        Expr::Paren { inner, .. } => mismatch(declarations, inner),
        Expr::Chain { first: left, rest } => first(
            mismatch(declarations, left),
            row_mismatch(declarations, sort(declarations, left), rest.as_slice()),
        ),
    }
}

/// The first mismatch in an expression, or that it is not of the sort that is wanted there.
#[cycle(mismatch)]
pub(crate) fn unfit<'p>(
    declarations: &Declarations<'_>,
    spot: Spot<'p>,
    wanted: Sort,
    e: &'p Expr,
) -> Option<Mismatch<'p>>
    ensures { seen result ≡ is_unfit (named_at (placed declarations.now))
        (spot_of spot.entry) wanted (placed_expr e.now) }
{
    first(
        mismatch(declarations, e),
        differ(spot, Some(wanted), sort(declarations, e)),
    )
}

/// The first mismatch in an element of an array: the index comes before the array.
#[cycle(mismatch)]
pub(crate) fn element_mismatch<'p>(
    declarations: &Declarations<'_>,
    place: Place,
    name: &'p [u8],
    index: &'p Expr,
) -> Option<Mismatch<'p>>
    ensures { seen result ≡ mismatch_in (named_at (placed declarations.now))
        (element place name.now (placed_expr index.now)) }
{
    let found = sort(declarations, index);
    first(
        mismatch(declarations, index),
        first(
            differ(Spot::IndexOf(name), Some(Sort::Number), found),
            used_by_element(declarations, place, name),
        ),
    )
}

/// The first mismatch in the operators of a row and their right operands; what stands left of them
/// has the sort `left`.
#[cycle(mismatch)]
fn row_mismatch<'p>(
    declarations: &Declarations<'_>,
    left: Option<Sort>,
    rest: &'p [(Op, Expr)],
) -> Option<Mismatch<'p>>
    ensures { seen result ≡ mismatch_in_row (named_at (placed declarations.now))
        left (placed_operands rest.now) }
{
    let mut left = left;
    for operand in rest {
        if let Some(found) = mismatch(declarations, &operand.1) {
            return Some(found);
        }
        if let Some(found) = misjoined(operand.0, left, sort(declarations, &operand.1)) {
            return Some(found);
        }
        left = Some(gives(operand.0));
    }
    None
}

/// The first mismatch in the call of a routine that is used at the place: the number of the
/// arguments comes before the arguments.
#[cycle(mismatch)]
pub(crate) fn call_mismatch<'p>(
    declarations: &Declarations<'_>,
    place: Place,
    routine: &'p [u8],
    args: &'p [Expr],
) -> Option<Mismatch<'p>>
    ensures { seen result ≡ mismatch_in (named_at (placed declarations.now))
        (call place routine.now (placed_exprs args.now)) }
{
    let params = asked(declarations, place)?;
    first(
        miscounted(routine, params, args),
        args_mismatch(declarations, routine, params, args),
    )
}

/// The first mismatch in the arguments of a call, each against its parameter.
#[cycle(mismatch)]
fn args_mismatch<'p>(
    declarations: &Declarations<'_>,
    routine: &'p [u8],
    params: &[Param],
    args: &'p [Expr],
) -> Option<Mismatch<'p>>
    ensures { seen result ≡ mismatch_in_args (named_at (placed declarations.now))
        routine.now 1 (Some (map placed_param params.now)) (placed_exprs args.now) }
{
    let mut left = params;
    let mut number = 0;
    for arg in args {
        let Some((param, others)) = left.split_first() else {
            return None;
        };
        number += 1;
        let spot = Spot::Argument { number, routine };
        if let Some(found) = unfit(declarations, spot, sort_of(&param.kind), arg) {
            return Some(found);
        }
        left = others;
    }
    None
}
