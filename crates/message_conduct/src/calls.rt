//! What may be wrong with a call, or with what stands in a routine of some kind.

ghost use Rattle.std.specs.Prelude.{◌≡◌, None, Some, if◌then◌else◌};
ghost use Rattle.syntax_tree.specs.Placed.{placed};
ghost use Rattle.static_declarations.specs.Things.{named_at};
ghost use Rattle.static_types.specs.Conduct.{is_function as names_function, is_procedure as names_procedure};
ghost use Rattle.message_conduct.specs.Faults.{word_fault, function_fault, entry_fault, procedure_fault, statement_fault, value_fault, is_entry as names_entry, term_fault, call_fault, entry_call_fault, entry_value_fault, exit_fault, entry_inside as spec_inside};
ghost use Rattle.message_conduct.specs.Seen.{seen, deed as deed_of, monitor_name};

use crate::stray::{Deed, Stray, Word, first};
use static_declarations::{Declarations, Entity, StmtContext, Where};
use syntax_tree::{Name, Place, RoutineKind};

/// Whether the name is that of a function, be it an entry or not.
fn is_function(declarations: &Declarations<'_>, place: Place) -> bool
    ensures { result ≡ names_function (named_at (placed declarations.now) place) }
{
    match declarations.named(place) {
        Some(Entity::Routine { routine, .. }) => routine.kind == RoutineKind::Function,
        _ => false,
    }
}

/// Whether the name is that of a procedure, be it an entry or not.
fn is_procedure(declarations: &Declarations<'_>, place: Place) -> bool
    ensures { result ≡ names_procedure (named_at (placed declarations.now) place) }
{
    match declarations.named(place) {
        Some(Entity::Routine { routine, .. }) => routine.kind == RoutineKind::Procedure,
        _ => false,
    }
}

/// Whether the name is that of an entry.
fn is_entry(declarations: &Declarations<'_>, place: Place) -> bool
    ensures { result ≡ names_entry (named_at (placed declarations.now) place) }
{
    match declarations.named(place) {
        Some(Entity::Routine { is_entry, .. }) => is_entry,
        _ => false,
    }
}

/// What entries alone have, outside of one.
pub(crate) fn outside_entry<'a>(home: StmtContext, word: Word) -> Option<Stray<'a>>
    ensures { seen result ≡ word_fault home word }
{
    match home {
        StmtContext::Entry => None,
        StmtContext::Free | StmtContext::Function(_) => Some(Stray::OutsideEntry(word)),
    }
}

/// An `exit` outside a loop.
pub(crate) fn outside_loop<'a>(here: Where) -> Option<Stray<'a>>
    ensures { seen result ≡ exit_fault here }
{
    if here.in_loop {
        None
    } else {
        Some(Stray::OutsideLoop)
    }
}

/// What a function that is no entry does, in one.
pub(crate) fn by_function<'a>(home: StmtContext, deed: Deed<'a>) -> Option<Stray<'a>>
    ensures { seen result ≡ function_fault home (deed_of deed.entry) }
{
    match home {
        StmtContext::Function(own) => Some(Stray::ByFunction { own, deed }),
        StmtContext::Free | StmtContext::Entry => None,
    }
}

/// An entry that is called, in an entry.
fn entry_inside<'a>(home: StmtContext) -> Option<Stray<'a>>
    ensures { seen result ≡ entry_fault home }
{
    match home {
        StmtContext::Entry => Some(Stray::EntryInside),
        StmtContext::Free | StmtContext::Function(_) => None,
    }
}

/// A procedure that is called, in an entry.
fn procedure_inside<'a>(home: StmtContext) -> Option<Stray<'a>>
    ensures { seen result ≡ procedure_fault home }
{
    match home {
        StmtContext::Entry => Some(Stray::ProcedureInside),
        StmtContext::Free | StmtContext::Function(_) => None,
    }
}

/// A function that is called as a statement.
fn as_statement<'a>(
    declarations: &Declarations<'_>,
    monitor: Option<&'a Name>,
    name: &'a Name,
    place: Place,
) -> Option<Stray<'a>>
    ensures { seen result ≡ statement_fault (monitor_name monitor.entry) name.now
        (named_at (placed declarations.now) place) }
{
    if is_function(declarations, place) {
        Some(Stray::AsStatement { monitor, name })
    } else {
        None
    }
}

/// A procedure of which a value is asked.
fn no_value<'a>(
    declarations: &Declarations<'_>,
    monitor: Option<&'a Name>,
    name: &'a Name,
    place: Place,
) -> Option<Stray<'a>>
    ensures { seen result ≡ value_fault (monitor_name monitor.entry) name.now
        (named_at (placed declarations.now) place) }
{
    if is_procedure(declarations, place) {
        Some(Stray::NoValue { monitor, name })
    } else {
        None
    }
}

/// The call of an entry by its bare name, in an expression.
fn bare_entry<'a>(declarations: &Declarations<'_>, place: Place) -> Option<Stray<'a>>
    ensures { seen result ≡
        (if names_entry (named_at (placed declarations.now) place) then Some spec_inside else None) }
{
    if is_entry(declarations, place) {
        Some(Stray::EntryInside)
    } else {
        None
    }
}

/// A call in an expression.
pub(crate) fn term<'a>(
    declarations: &Declarations<'_>,
    name: &'a Name,
    place: Place,
) -> Option<Stray<'a>>
    ensures { seen result ≡ term_fault name.now (named_at (placed declarations.now) place) }
{
    first(
        no_value(declarations, None, name, place),
        bare_entry(declarations, place),
    )
}

/// The call of an entry by its bare name, as a statement.
fn called_entry<'a>(
    declarations: &Declarations<'_>,
    home: StmtContext,
    place: Place,
) -> Option<Stray<'a>>
    ensures { seen result ≡
        (if names_entry (named_at (placed declarations.now) place) then entry_fault home else None) }
{
    if is_entry(declarations, place) {
        entry_inside(home)
    } else {
        None
    }
}

/// A statement that calls a routine by its bare name.
pub(crate) fn call<'a>(
    declarations: &Declarations<'_>,
    home: StmtContext,
    name: &'a Name,
    place: Place,
) -> Option<Stray<'a>>
    ensures { seen result ≡ call_fault home name.now (named_at (placed declarations.now) place) }
{
    let around = first(
        procedure_inside(home),
        by_function(home, Deed::CallsProcedure),
    );
    let kind = as_statement(declarations, None, name, place);
    first(called_entry(declarations, home, place), first(kind, around))
}

/// A statement that calls an entry of a monitor.
pub(crate) fn entry_call<'a>(
    declarations: &Declarations<'_>,
    home: StmtContext,
    monitor: &'a Name,
    name: &'a Name,
    place: Place,
) -> Option<Stray<'a>>
    ensures { seen result ≡ entry_call_fault home monitor.now name.now
        (named_at (placed declarations.now) place) }
{
    let kind = as_statement(declarations, Some(monitor), name, place);
    first(
        entry_inside(home),
        first(kind, by_function(home, Deed::CallsEntry)),
    )
}

/// An assignment of what an entry of a monitor answers.
pub(crate) fn entry_value<'a>(
    declarations: &Declarations<'_>,
    home: StmtContext,
    monitor: &'a Name,
    name: &'a Name,
    place: Place,
) -> Option<Stray<'a>>
    ensures { seen result ≡ entry_value_fault home monitor.now name.now
        (named_at (placed declarations.now) place) }
{
    let kind = no_value(declarations, Some(monitor), name, place);
    first(
        entry_inside(home),
        first(kind, by_function(home, Deed::CallsEntry)),
    )
}
