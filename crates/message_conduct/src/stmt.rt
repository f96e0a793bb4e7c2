//! What may be wrong with a statement, the statements in it aside.

ghost use Rattle.std.specs.Prelude.{◌≡◌, ◌==◌};
ghost use Rattle.syntax_tree.specs.Placed.{placed, placed_stmt, placed_ref};
ghost use Rattle.static_declarations.specs.Things.{named_at};
ghost use Rattle.static_declarations.specs.Parts.{statement};
ghost use Rattle.static_types.specs.Conduct.{is_foreign as names_foreign, is_device as names_device};
ghost use Rattle.message_conduct.specs.Faults.{change_fault, target_fault, inner_fault, outer_fault, stmt_fault, direction_fault, part_fault};
ghost use Rattle.message_conduct.specs.Seen.{seen};

use crate::calls::{by_function, call, entry_call, entry_value, outside_entry, outside_loop};
use crate::expr::{expr_stray, exprs_stray};
use crate::stray::{Deed, Stray, Word, first};
use static_declarations::{Declarations, Entity, StmtContext, Where};
use static_rule::rule;
use syntax_tree::{Name, Place, Ref, Stmt};

/// Whether a function that is no entry assigns to a variable that is not its own.
fn is_foreign(declarations: &Declarations<'_>, home: StmtContext, place: Place) -> bool
    ensures { result ≡ names_foreign home (named_at (placed declarations.now) place) }
{
    let StmtContext::Function(own) = home else {
        return false;
    };
    match declarations.named(place) {
        Some(Entity::Variable { owner, .. }) => owner != Some(own),
        _ => false,
    }
}

/// A variable that is assigned to, in a function that it does not belong to.
fn change<'a>(
    declarations: &Declarations<'_>,
    home: StmtContext,
    name: &'a Name,
    place: Place,
) -> Option<Stray<'a>>
    ensures { seen result ≡ change_fault home name.now (named_at (placed declarations.now) place) }
{
    if is_foreign(declarations, home, place) {
        by_function(home, Deed::Changes(name))
    } else {
        None
    }
}

/// What is assigned to: its index, and then the variable.
fn target_stray<'a>(
    declarations: &Declarations<'_>,
    home: StmtContext,
    target: &'a Ref,
) -> Option<Stray<'a>>
    ensures { seen result ≡ target_fault (named_at (placed declarations.now)) home
        (placed_ref target.now) }
{
    let changed = change(declarations, home, &target.name, target.place);
    match &target.index {
        None => changed,
        Some(index) => first(expr_stray(declarations, index), changed),
    }
}

/// What stands in a statement: its target, and then its expressions.
fn inner_stray<'a>(
    declarations: &Declarations<'_>,
    home: StmtContext,
    s: &'a Stmt,
) -> Option<Stray<'a>>
    ensures { seen result ≡ inner_fault (named_at (placed declarations.now)) home
        (placed_stmt s.now) }
{
    match s {
        Stmt::Assign { target, value } => first(
            target_stray(declarations, home, target),
            expr_stray(declarations, value),
        ),
        Stmt::AssignEntry { target, args, .. } => first(
            target_stray(declarations, home, target),
            exprs_stray(declarations, args.as_slice()),
        ),
        Stmt::AssignEmpty { target, .. } | Stmt::Get { target, .. } => {
            target_stray(declarations, home, target)
        }
        Stmt::Call { args, .. } | Stmt::CallEntry { args, .. } => {
            exprs_stray(declarations, args.as_slice())
        }
        Stmt::If { test: e, .. }
        | Stmt::ExitWhen { test: e, .. }
        | Stmt::Put { value: e, .. }
        | Stmt::Assert { test: e, .. } => expr_stray(declarations, e),
        Stmt::For { .. }
        | Stmt::Wait { .. }
        | Stmt::Signal { .. }
        | Stmt::Broadcast { .. }
        | Stmt::Except { .. } => None,
    }
}

/// The statement itself, by where it stands.
fn outer_stray<'a>(declarations: &Declarations<'_>, here: Where, s: &'a Stmt) -> Option<Stray<'a>>
    ensures { seen result ≡ outer_fault (named_at (placed declarations.now)) here
        (placed_stmt s.now) }
{
    let home = here.home;
    match s {
        Stmt::AssignEntry {
            mon,
            entry,
            entry_place,
            ..
        } => entry_value(declarations, home, mon, entry, *entry_place),
        Stmt::AssignEmpty { .. } => outside_entry(home, Word::Empty),
        Stmt::Call { place, name, .. } => call(declarations, home, name, *place),
        Stmt::CallEntry {
            mon,
            entry,
            entry_place,
            ..
        } => entry_call(declarations, home, mon, entry, *entry_place),
        Stmt::ExitWhen { .. } => outside_loop(here),
        Stmt::Get { .. } | Stmt::Put { .. } => by_function(home, Deed::Moves),
        Stmt::Wait { .. } => outside_entry(home, Word::Wait),
        Stmt::Signal { .. } => outside_entry(home, Word::Signal),
        Stmt::Broadcast { .. } => outside_entry(home, Word::Broadcast),
        Stmt::Assign { .. }
        | Stmt::If { .. }
        | Stmt::For { .. }
        | Stmt::Except { .. }
        | Stmt::Assert { .. } => None,
    }
}

/// The first that is wrong with where the statement stands, or with an expression of it. The
/// statements in it are left aside.
fn stmt_stray<'a>(declarations: &Declarations<'_>, here: Where, s: &'a Stmt) -> Option<Stray<'a>>
    ensures { seen result ≡ stmt_fault (named_at (placed declarations.now)) here (placed_stmt s.now) }
{
    first(
        inner_stray(declarations, here.home, s),
        outer_stray(declarations, here, s),
    )
}

/// Whether the name is that of a device of this direction.
fn is_device(declarations: &Declarations<'_>, wants_out: bool, place: Place) -> bool
    ensures { result ≡ names_device wants_out (named_at (placed declarations.now) place) }
{
    match declarations.named(place) {
        Some(Entity::Device { is_out }) => is_out == wants_out,
        _ => false,
    }
}

/// The device of a `get` or a `put` that has the other direction.
fn misdirected<'a>(declarations: &Declarations<'_>, here: Where, s: &'a Stmt) -> Option<Stray<'a>>
    ensures { seen result ≡ direction_fault (named_at (placed declarations.now))
        (statement here (placed_stmt s.now)) }
{
    match s {
        Stmt::Get {
            device,
            device_place,
            ..
        } if is_device(declarations, true, *device_place) => Some(Stray::OutDevice(device)),
        Stmt::Put {
            device,
            device_place,
            ..
        } if is_device(declarations, false, *device_place) => Some(Stray::InDevice(device)),
        _ => None,
    }
}

/// What is wrong with a statement by the rule with that number, the statements in it aside.
pub(crate) fn by_rule<'a>(
    declarations: &Declarations<'_>,
    number: u8,
    here: Where,
    s: &'a Stmt,
) -> Option<Stray<'a>>
    ensures { seen result ≡ part_fault (named_at (placed declarations.now)) number
        (statement here (placed_stmt s.now)) }
{
    if number == rule::MISPLACED {
        stmt_stray(declarations, here, s)
    } else if number == rule::WRONG_DIRECTION {
        misdirected(declarations, here, s)
    } else {
        None
    }
}
