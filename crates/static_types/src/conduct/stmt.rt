//! What statements may do where they stand.

ghost use Rattle.std.specs.Prelude.{◌≡◌};
ghost use Rattle.syntax_tree.specs.Placed.{placed, placed_stmt, placed_ref};
ghost use Rattle.static_declarations.specs.Things.{named_at};
ghost use Rattle.static_declarations.specs.declared.home.Where.{Where};
ghost use Rattle.static_declarations.specs.Parts.{statement};
ghost use Rattle.static_types.specs.Conduct.{is_function as names_function, is_procedure as names_procedure, is_foreign as names_foreign, ref_strays as index_strays, target_strays as ref_is_astray, calls_nothing as is_silent, stmt_strays as is_astray, is_device as names_device, misdirected as misdirected_at};

use crate::conduct::expr::{exprs_stray, strays};
use static_declarations::{Declarations, Entity, StmtContext, Where};
use syntax_tree::{Place, Ref, RoutineKind, Stmt};

/// Whether the name is that of a function, be it an entry or not.
fn is_function(declarations: &Declarations<'_>, place: Place) -> bool
    ensures { result ≡ names_function (named_at (placed declarations.now) place) }
{
    match declarations.named(place) {
        Some(Entity::Routine { routine, .. }) => routine.kind == RoutineKind::Function,
        _ => false,
    }
}

/// Whether the name is that of a procedure, be it an entry or not.
fn is_procedure(declarations: &Declarations<'_>, place: Place) -> bool
    ensures { result ≡ names_procedure (named_at (placed declarations.now) place) }
{
    match declarations.named(place) {
        Some(Entity::Routine { routine, .. }) => routine.kind == RoutineKind::Procedure,
        _ => false,
    }
}

/// Whether the name is that of a device of this direction.
fn is_device(declarations: &Declarations<'_>, wants_out: bool, place: Place) -> bool
    ensures { result ≡ names_device wants_out (named_at (placed declarations.now) place) }
{
    match declarations.named(place) {
        Some(Entity::Device { is_out }) => is_out == wants_out,
        _ => false,
    }
}

/// Whether a function that is no entry assigns to a variable that is not its own.
fn is_foreign(declarations: &Declarations<'_>, home: StmtContext, place: Place) -> bool
    ensures { result ≡ names_foreign home (named_at (placed declarations.now) place) }
{
    let StmtContext::Function(own) = home else {
        return false;
    };
    match declarations.named(place) {
        Some(Entity::Variable { owner, .. }) => owner != Some(own),
        _ => false,
    }
}

/// Whether an assignment there may not be, or its index may not.
fn target_strays(declarations: &Declarations<'_>, home: StmtContext, target: &Ref) -> bool
    ensures { result ≡ ref_is_astray (named_at (placed declarations.now)) home
        (placed_ref target.now) }
{
    if is_foreign(declarations, home, target.place) {
        return true;
    }
    match &target.index {
        None => false,
        Some(index) => strays(declarations, index),
    }
}

/// Whether entries and procedures may not be called: in an entry, and in a function.
fn calls_nothing(home: StmtContext) -> bool
    ensures { result ≡ is_silent home }
{
    match home {
        StmtContext::Free => false,
        StmtContext::Entry | StmtContext::Function(_) => true,
    }
}

/// Whether the statement, or an expression of it, stands where it may not. The statements in it
/// are left aside.
pub fn stmt_strays(declarations: &Declarations<'_>, here: Where, s: &Stmt) -> bool
    ensures { result ≡ is_astray (named_at (placed declarations.now)) here (placed_stmt s.now) }
{
    let home = here.home;
    match s {
        Stmt::Assign { target, value } => {
            target_strays(declarations, home, target) || strays(declarations, value)
        }
        Stmt::AssignEntry {
            target,
            entry_place,
            args,
            ..
        } => {
            calls_nothing(home)
                || is_procedure(declarations, *entry_place)
                || target_strays(declarations, home, target)
                || exprs_stray(declarations, args.as_slice())
        }
        Stmt::AssignEmpty { target, .. } => {
            home != StmtContext::Entry || target_strays(declarations, home, target)
        }
        Stmt::Call {
            place: routine,
            args,
            ..
        }
        | Stmt::CallEntry {
            entry_place: routine,
            args,
            ..
        } => {
            calls_nothing(home)
                || is_function(declarations, *routine)
                || exprs_stray(declarations, args.as_slice())
        }
        Stmt::If { test, .. } | Stmt::Assert { test, .. } => strays(declarations, test),
        Stmt::ExitWhen { test, .. } => !here.in_loop || strays(declarations, test),
        Stmt::Get { target, .. } => {
            matches!(home, StmtContext::Function(_)) || target_strays(declarations, home, target)
        }
        Stmt::Put { value, .. } => {
            matches!(home, StmtContext::Function(_)) || strays(declarations, value)
        }
        Stmt::Wait { .. } | Stmt::Signal { .. } | Stmt::Broadcast { .. } => home
            != StmtContext::Entry,
        Stmt::For { .. } | Stmt::Except { .. } => false,
    }
}

/// The place of a `get` from an out device, or of a `put` to an in device.
pub fn misdirected(declarations: &Declarations<'_>, s: &Stmt) -> Option<Place>
    ensures { (here : Where) → result ≡ misdirected_at (named_at (placed declarations.now))
        (statement here (placed_stmt s.now)) }
{
    match s {
        Stmt::Get {
            place,
            device_place,
            ..
        } if is_device(declarations, true, *device_place) => Some(*place),
        Stmt::Put {
            place,
            device_place,
            ..
        } if is_device(declarations, false, *device_place) => Some(*place),
        _ => None,
    }
}
