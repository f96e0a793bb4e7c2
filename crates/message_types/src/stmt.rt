//! Statements, those in them aside.

ghost use Rattle.std.specs.Prelude.{◌≡◌, Some};
ghost use Rattle.std.specs.Option.{option_or};
ghost use Rattle.syntax_tree.specs.Placed.{assign, call, placed, placed_expr, placed_exprs, placed_ref, placed_stmt};
ghost use Rattle.static_declarations.specs.Things.{named_at};
ghost use Rattle.static_declarations.specs.declared.sort.Sort.TheVariants as sort_is;
ghost use Rattle.static_types.specs.Sorts.{answer_sort as sort_of_answer};
ghost use Rattle.static_types.specs.Types.{target_sort as sort_of_target};
ghost use Rattle.message_types.specs.Mismatches.{differ as differ_at, got_into, put_to, misassigned as is_misassigned, mismatch as mismatch_in, stmt_mismatch as mismatch_in_stmt, target_mismatch as mismatch_in_target, target_name, unfit as is_unfit};
ghost use Rattle.message_types.specs.Seen.{seen};

use crate::expr::{call_mismatch, element_mismatch, mismatch, unfit};
use crate::mismatch::{Mismatch, Spot, first};
use crate::sorts::{answer_sort, differ, element_sort, sort, used_whole, word_sort};
use static_declarations::{Declarations, Sort};
use syntax_tree::{Expr, Name, Place, Ref, Stmt};

fn name_of(target: &Ref) -> &[u8]
    ensures { result.now ≡ target_name (placed_ref target.now) }
{
    target.name.as_bytes()
}

/// The sort of what is assigned to.
fn target_sort(declarations: &Declarations<'_>, target: &Ref) -> Option<Sort>
    ensures { result ≡ sort_of_target (named_at (placed declarations.now)) (placed_ref target.now) }
{
    match &target.index {
        None => word_sort(declarations, target.place),
        Some(_) => element_sort(declarations, target.place),
    }
}

/// The first mismatch in what is assigned to.
fn target_mismatch<'p>(declarations: &Declarations<'_>, target: &'p Ref) -> Option<Mismatch<'p>>
    ensures { seen result ≡
        mismatch_in_target (named_at (placed declarations.now)) (placed_ref target.now) }
{
    match &target.index {
        None => used_whole(declarations, target.place, name_of(target)),
        Some(index) => element_mismatch(declarations, target.place, name_of(target), index),
    }
}

/// A value of a sort that is not what may be assigned there.
fn misassigned<'p>(
    declarations: &Declarations<'_>,
    target: &'p Ref,
    sort: Option<Sort>,
) -> Option<Mismatch<'p>>
    ensures { seen result ≡
        is_misassigned (named_at (placed declarations.now)) (placed_ref target.now) sort }
{
    differ(
        Spot::AssignedTo(name_of(target)),
        target_sort(declarations, target),
        sort,
    )
}

/// The first mismatch in an assignment.
fn assign_mismatch<'p>(
    declarations: &Declarations<'_>,
    target: &'p Ref,
    value: &'p Expr,
) -> Option<Mismatch<'p>>
    ensures { seen result ≡ mismatch_in_stmt (named_at (placed declarations.now))
        (assign (placed_ref target.now) (placed_expr value.now)) }
{
    first(
        target_mismatch(declarations, target),
        first(
            mismatch(declarations, value),
            misassigned(declarations, target, sort(declarations, value)),
        ),
    )
}

/// The first mismatch in an assignment of what the entry that is used at the place answers.
fn answer_mismatch<'p>(
    declarations: &Declarations<'_>,
    target: &'p Ref,
    place: Place,
    entry: &'p [u8],
    args: &'p [Expr],
) -> Option<Mismatch<'p>>
    ensures { let named = named_at (placed declarations.now) in
        let target = placed_ref target.now in
        seen result ≡ option_or (mismatch_in_target named target)
        (option_or (mismatch_in named (call place entry.now (placed_exprs args.now)))
        (is_misassigned named target (sort_of_answer (named place)))) }
{
    first(
        target_mismatch(declarations, target),
        first(
            call_mismatch(declarations, place, entry, args),
            misassigned(declarations, target, answer_sort(declarations, place)),
        ),
    )
}

/// The first mismatch in an assignment of whether nobody waits.
fn empty_mismatch<'p>(declarations: &Declarations<'_>, target: &'p Ref) -> Option<Mismatch<'p>>
    ensures { let named = named_at (placed declarations.now) in
        let target = placed_ref target.now in
        seen result ≡ option_or (mismatch_in_target named target)
        (is_misassigned named target (Some sort_is.Truth)) }
{
    first(
        target_mismatch(declarations, target),
        misassigned(declarations, target, Some(Sort::Truth)),
    )
}

/// The first mismatch in what is got from a device.
fn get_mismatch<'p>(declarations: &Declarations<'_>, target: &'p Ref) -> Option<Mismatch<'p>>
    ensures { let named = named_at (placed declarations.now) in
        let target = placed_ref target.now in
        seen result ≡ option_or (mismatch_in_target named target)
        (differ_at (got_into (target_name target)) (Some sort_is.Number)
        (sort_of_target named target)) }
{
    let found = target_sort(declarations, target);
    first(
        target_mismatch(declarations, target),
        differ(Spot::GotInto(name_of(target)), Some(Sort::Number), found),
    )
}

/// The first mismatch in what is put to a device.
fn put_mismatch<'p>(
    declarations: &Declarations<'_>,
    device: &'p Name,
    value: &'p Expr,
) -> Option<Mismatch<'p>>
    ensures { seen result ≡ is_unfit (named_at (placed declarations.now)) (put_to device.now)
        sort_is.Number (placed_expr value.now) }
{
    let spot = Spot::PutTo(device.as_bytes());
    unfit(declarations, spot, Sort::Number, value)
}

/// The first mismatch in a statement, those in it aside.
pub(crate) fn stmt_mismatch<'p>(
    declarations: &Declarations<'_>,
    s: &'p Stmt,
) -> Option<Mismatch<'p>>
    ensures { seen result ≡
        mismatch_in_stmt (named_at (placed declarations.now)) (placed_stmt s.now) }
{
    match s {
        Stmt::Assign { target, value } => assign_mismatch(declarations, target, value),
        Stmt::AssignEntry {
            target,
            entry,
            entry_place,
            args,
            ..
        } => answer_mismatch(
            declarations,
            target,
            *entry_place,
            entry.as_bytes(),
            args.as_slice(),
        ),
        Stmt::AssignEmpty { target, .. } => empty_mismatch(declarations, target),
        Stmt::Call { place, name, args } => {
            call_mismatch(declarations, *place, name.as_bytes(), args.as_slice())
        }
        Stmt::CallEntry {
            entry,
            entry_place,
            args,
            ..
        } => call_mismatch(
            declarations,
            *entry_place,
            entry.as_bytes(),
            args.as_slice(),
        ),
        Stmt::If { test, .. } => unfit(declarations, Spot::If, Sort::Truth, test),
        Stmt::ExitWhen { test, .. } => unfit(declarations, Spot::ExitWhen, Sort::Truth, test),
        Stmt::Assert { test, .. } => unfit(declarations, Spot::Assert, Sort::Truth, test),
        Stmt::Get { target, .. } => get_mismatch(declarations, target),
        Stmt::Put { device, value, .. } => put_mismatch(declarations, device, value),
        Stmt::For { .. }
        | Stmt::Wait { .. }
        | Stmt::Signal { .. }
        | Stmt::Broadcast { .. }
        | Stmt::Except { .. } => None,
    }
}
