//! The sorts in statements and results.

ghost use Rattle.std.specs.Prelude.{◌≡◌};
ghost use Rattle.syntax_tree.specs.Placed.{placed, placed_scalar, placed_expr, placed_ref, placed_stmt};
ghost use Rattle.static_declarations.specs.Things.{named_at, sort_of as sort_of_scalar};
ghost use Rattle.static_types.specs.Types.{target_judged, target_takes, is_of as has_the_sort, stmt_agrees as is_agreed};

use crate::types::expr::{agreed, call_agrees, is_of};
use crate::types::sorts::{alike, answer_sort, element_sort, word};
use static_declarations::{Declarations, Sort, sort_of};
use syntax_tree::{Expr, Ref, Scalar, Stmt};

/// The sort of what is assigned to, where it is one word and its index is a number.
fn target(declarations: &Declarations<'_>, target: &Ref) -> Option<Option<Sort>>
    ensures { result ≡ target_judged (named_at (placed declarations.now)) (placed_ref target.now) }
{
    match &target.index {
        None => word(declarations, target.place),
        Some(index) => match element_sort(declarations, target.place) {
            Some(sort) if is_of(declarations, Sort::Number, index) => Some(Some(sort)),
            _ => None,
        },
    }
}

/// Whether one word of the sort is assigned to.
fn takes_sort(declarations: &Declarations<'_>, to: &Ref, sort: Option<Sort>) -> bool
    ensures { result ≡ target_takes (named_at (placed declarations.now)) (placed_ref to.now) sort }
{
    match target(declarations, to) {
        Some(own) => alike(own, sort),
        None => false,
    }
}

/// Whether the types in a statement agree, and the numbers of arguments, those in its inner
/// statements aside.
pub fn stmt_agrees(declarations: &Declarations<'_>, s: &Stmt) -> bool
    ensures { result ≡ is_agreed (named_at (placed declarations.now)) (placed_stmt s.now) }
{
    match s {
        Stmt::Assign { target, value } => match agreed(declarations, value) {
            Some(sort) => takes_sort(declarations, target, sort),
            None => false,
        },
        Stmt::AssignEntry {
            target,
            entry_place,
            args,
            ..
        } => {
            call_agrees(declarations, *entry_place, args.as_slice())
                && takes_sort(
                    declarations,
                    target,
                    answer_sort(declarations, *entry_place),
                )
        }
        Stmt::AssignEmpty { target, .. } => { takes_sort(declarations, target, Some(Sort::Truth)) }
        Stmt::Call { place, args, .. } => call_agrees(declarations, *place, args.as_slice()),
        Stmt::CallEntry {
            entry_place,
            args,
            ..
        } => call_agrees(declarations, *entry_place, args.as_slice()),
        Stmt::If { test, .. } | Stmt::ExitWhen { test, .. } | Stmt::Assert { test, .. } => {
            is_of(declarations, Sort::Truth, test)
        }
        Stmt::Get { target, .. } => { takes_sort(declarations, target, Some(Sort::Number)) }
        Stmt::Put { value, .. } => is_of(declarations, Sort::Number, value),
        Stmt::For { .. }
        | Stmt::Wait { .. }
        | Stmt::Signal { .. }
        | Stmt::Broadcast { .. }
        | Stmt::Except { .. } => true,
    }
}

/// Whether the expression of a function's result agrees and has the sort of the result's type.
pub fn answer_agrees(declarations: &Declarations<'_>, kind: &Scalar, e: &Expr) -> bool
    ensures { result ≡ has_the_sort (named_at (placed declarations.now))
        (sort_of_scalar (placed_scalar kind.now)) (placed_expr e.now) }
{
    is_of(declarations, sort_of(kind), e)
}
