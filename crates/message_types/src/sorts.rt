//! The sorts of names and expressions, and tests of one thing.

ghost use Rattle.std.specs.Prelude.{◌≡◌};
ghost use Rattle.syntax_tree.specs.Placed.{placed, placed_expr, placed_operands, op_of};
ghost use Rattle.static_declarations.specs.Things.{named_at};
ghost use Rattle.static_declarations.specs.Sorts.{gives as sort_given};
ghost use Rattle.static_types.specs.Sorts.{word_sort as sort_of_word, element_sort as sort_of_element, answer_sort as sort_of_answer, is_array as names_array, row_sort as sort_of_row, sort as sort_of_expr};
ghost use Rattle.message_types.specs.Mismatches.{differ as differ_at, used_whole as is_used_whole, used_by_element as is_used_by_element, wants as sort_wanted, misjoined as is_misjoined};
ghost use Rattle.message_types.specs.Seen.{seen, spot_of};

use crate::mismatch::{Mismatch, Spot, first};
use static_declarations::{Declarations, Entity, Sort, VarType, sort_of};
use syntax_tree::{Expr, Op, Place};

/// The sort of a name that stands for one word.
pub(crate) fn word_sort(declarations: &Declarations<'_>, place: Place) -> Option<Sort>
    ensures { result ≡ sort_of_word (named_at (placed declarations.now) place) }
{
    match declarations.named(place)? {
        Entity::Constant | Entity::Loop => Some(Sort::Number),
        Entity::Variable {
            shape: VarType::One(sort),
            ..
        } => Some(sort),
        _ => None,
    }
}

/// The sort of the elements of a name that stands for an array.
pub(crate) fn element_sort(declarations: &Declarations<'_>, place: Place) -> Option<Sort>
    ensures { result ≡ sort_of_element (named_at (placed declarations.now) place) }
{
    match declarations.named(place)? {
        Entity::Variable {
            shape: VarType::Many(sort),
            ..
        } => Some(sort),
        _ => None,
    }
}

/// The sort of what a function answers; a procedure answers nothing.
pub(crate) fn answer_sort(declarations: &Declarations<'_>, place: Place) -> Option<Sort>
    ensures { result ≡ sort_of_answer (named_at (placed declarations.now) place) }
{
    match declarations.named(place)? {
        Entity::Routine { routine, .. } => Some(sort_of(routine.result.as_ref()?)),
        _ => None,
    }
}

fn is_array(declarations: &Declarations<'_>, place: Place) -> bool
    ensures { result ≡ names_array (named_at (placed declarations.now) place) }
{
    matches!(
        declarations.named(place),
        Some(Entity::Variable {
            shape: VarType::Many(_),
            ..
        },)
    )
}

/// The sort of what an operator gives.
pub(crate) fn gives(op: Op) -> Sort
    ensures { result ≡ sort_given (op_of op) }
{
    match op {
        Op::Or
        | Op::And
        | Op::Equal
        | Op::Unequal
        | Op::Less
        | Op::LessEqual
        | Op::Greater
        | Op::GreaterEqual => Sort::Truth,
        Op::Add | Op::Sub | Op::Mul | Op::Div | Op::Mod => Sort::Number,
    }
}

/// The sort that an operator wants on both sides; `=` and `<>` want two that go together.
fn wants(op: Op) -> Option<Sort>
    ensures { result ≡ sort_wanted (op_of op) }
{
    match op {
        Op::Or | Op::And => Some(Sort::Truth),
        Op::Equal | Op::Unequal => None,
        Op::Less
        | Op::LessEqual
        | Op::Greater
        | Op::GreaterEqual
        | Op::Add
        | Op::Sub
        | Op::Mul
        | Op::Div
        | Op::Mod => Some(Sort::Number),
    }
}

/// The sort of a row whose first operand has the sort `first`: that of its last operator.
fn row_sort(first: Option<Sort>, rest: &[(Op, Expr)]) -> Option<Sort>
    ensures { result ≡ sort_of_row first (placed_operands rest.now) }
{
    let mut sort = first;
    for operand in rest {
        sort = Some(gives(operand.0));
    }
    sort
}

/// The sort that an expression has by its form.
pub(crate) fn sort(declarations: &Declarations<'_>, e: &Expr) -> Option<Sort>
    ensures { result ≡ sort_of_expr (named_at (placed declarations.now)) (placed_expr e.now) }
{
    match e {
        Expr::Literal { .. } | Expr::Minus { .. } => Some(Sort::Number),
        Expr::True { .. } | Expr::False { .. } | Expr::Not { .. } => Some(Sort::Truth),
        Expr::Variable { place, .. } => word_sort(declarations, *place),
        Expr::Element { place, .. } => element_sort(declarations, *place),
        Expr::Call { place, .. } => answer_sort(declarations, *place),
        Expr::Paren { inner, .. } => sort(declarations, inner),
        Expr::Chain { first, rest } => row_sort(sort(declarations, first), rest.as_slice()),
    }
}

/// A sort that is found where another is wanted; what has no sort of its own goes with every sort.
pub(crate) fn differ(
    spot: Spot<'_>,
    wanted: Option<Sort>,
    found: Option<Sort>,
) -> Option<Mismatch<'_>>
    ensures { seen result ≡ differ_at (spot_of spot.entry) wanted found }
{
    let (wanted, found) = (wanted?, found?);
    if wanted == found {
        return None;
    }
    Some(Mismatch::SortsDiffer {
        spot,
        wanted,
        found,
    })
}

/// An array that is used without an index.
pub(crate) fn used_whole<'p>(
    declarations: &Declarations<'_>,
    place: Place,
    name: &'p [u8],
) -> Option<Mismatch<'p>>
    ensures { seen result ≡
        is_used_whole (named_at (placed declarations.now) place) name.now }
{
    if is_array(declarations, place) {
        Some(Mismatch::LacksIndex { array: name })
    } else {
        None
    }
}

/// What is no array, and is used with an index.
pub(crate) fn used_by_element<'p>(
    declarations: &Declarations<'_>,
    place: Place,
    name: &'p [u8],
) -> Option<Mismatch<'p>>
    ensures { seen result ≡
        is_used_by_element (named_at (placed declarations.now) place) name.now }
{
    if is_array(declarations, place) {
        None
    } else {
        Some(Mismatch::HasIndex { name })
    }
}

/// An operator that stands between these sorts: the left one, the right one, and whether they go
/// together.
pub(crate) fn misjoined(
    op: Op,
    left: Option<Sort>,
    right: Option<Sort>,
) -> Option<Mismatch<'static>>
    ensures { seen result ≡ is_misjoined (op_of op) left right }
{
    let wanted = wants(op);
    first(
        differ(Spot::LeftOf(op), wanted, left),
        first(
            differ(Spot::RightOf(op), wanted, right),
            differ(Spot::RightOf(op), left, right),
        ),
    )
}
