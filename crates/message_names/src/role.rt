//! What a name does where it stands.

ghost use Rattle.std.specs.Prelude.{◌≡◌};
ghost use Rattle.message_names.specs.Mentions.{scope_from};
ghost use Rattle.message_names.specs.Reach.{declared, is_entry, monitor_before, scope_begin};

use syntax_tree::Place;

/// What a name is declared as.
#[derive(Clone, Copy)]
pub(crate) enum What {
    Program,
    Constant,
    Device,
    Event,
    Monitor,
    Condition,
    Procedure,
    Function,
    Entry,
    Process,
    Variable,
    Parameter,
    LoopVariable,
}

/// What is wanted where a name is used. `Value` is a name in an expression, `Target` one that is
/// assigned to, `Entry` one behind a full stop and the name of a monitor, which stands there.
#[derive(Clone, Copy)]
pub(crate) enum Wanted {
    Constant,
    Value,
    Target,
    Routine,
    Entry(Place),
    Device,
    Event,
    Monitor,
    Condition,
}

/// The part of a text, behind one place and up to another, in which the names of a program, of a
/// monitor, a process, a routine or a loop reach.
#[derive(Clone, Copy)]
pub(crate) struct Scope {
    pub begin: Place,
    pub end: Place,
}

/// Where a declaration reaches: behind one place, up to the end of its scope.
#[derive(Clone, Copy)]
pub(crate) struct Reach {
    pub what: What,
    pub scope: Scope,
    pub from: Place,
}

/// What a name does where it stands. One that closes repeats the name that stands at that place.
#[derive(Clone, Copy)]
pub(crate) enum Role {
    Declares(Reach),
    Uses(Wanted),
    Closes(Place),
}

/// A place before the first of a text.
pub(crate) const BEFORE_ALL: Place = Place { line: 0, col: 0 };

/// The scope of what is declared in a routine, a monitor or a process.
pub(crate) fn scope_from(place: Place, close_place: Place) -> Scope
    ensures { result ≡ scope_from place close_place }
{
    Scope {
        begin: place,
        end: close_place,
    }
}

/// Whether it is an entry.
pub(crate) fn is_entry(what: What) -> bool
    ensures { result ≡ is_entry what }
{
    matches!(what, What::Entry)
}

/// What the name declares, if it does.
pub(crate) fn declared(role: Role) -> Option<Reach>
    ensures { result ≡ declared role }
{
    match role {
        Role::Declares(reach) => Some(reach),
        Role::Uses(_) | Role::Closes(_) => None,
    }
}

/// Where the name of the monitor stands, where the name stands behind one and a full stop.
pub(crate) fn monitor_before(role: Role) -> Option<Place>
    ensures { result ≡ monitor_before role }
{
    match role {
        Role::Uses(Wanted::Entry(monitor)) => Some(monitor),
        _ => None,
    }
}

/// Where the scope of what is declared begins.
pub(crate) fn scope_begin(role: Role) -> Place
    ensures { result ≡ scope_begin role }
{
    match declared(role) {
        Some(reach) => reach.scope.begin,
        None => BEFORE_ALL,
    }
}
