//! What may be wrong with where a part of a program stands.

ghost use Rattle.std.specs.Prelude.{◌≡◌};
ghost use Rattle.std.specs.Option.{option_or};
ghost use Rattle.message_conduct.specs.Seen.{seen};

use syntax_tree::{Name, Place};

/// What entries alone have.
#[derive(Clone, Copy)]
pub(crate) enum Word {
    Wait,
    Signal,
    Broadcast,
    Empty,
}

/// What a function that is no entry may not do.
#[derive(Clone, Copy)]
pub(crate) enum Deed<'a> {
    CallsEntry,
    CallsProcedure,
    /// It has a `get` or a `put`.
    Moves,
    /// It changes the variable of this name, which is not its own.
    Changes(&'a Name),
}

/// What is wrong. A routine is named as it is called, an entry behind its monitor.
#[derive(Clone, Copy)]
pub(crate) enum Stray<'a> {
    /// What entries alone have stands outside of one.
    OutsideEntry(Word),
    /// An entry is called inside an entry.
    EntryInside,
    /// A procedure is called inside an entry.
    ProcedureInside,
    /// A function that is no entry, by the place of its name, does that.
    ByFunction {
        own: Place,
        deed: Deed<'a>,
    },
    /// A function is called as a statement.
    AsStatement {
        monitor: Option<&'a Name>,
        name: &'a Name,
    },
    /// A value is asked of a procedure.
    NoValue {
        monitor: Option<&'a Name>,
        name: &'a Name,
    },
    /// An `exit` stands outside a loop.
    OutsideLoop,
    /// A `get` takes from an out device.
    OutDevice(&'a Name),
    /// A `put` gives to an in device.
    InDevice(&'a Name),
}

/// The first of the two, if one is there.
pub(crate) fn first<'a>(one: Option<Stray<'a>>, other: Option<Stray<'a>>) -> Option<Stray<'a>>
    ensures { seen result ≡ option_or (seen one.entry) (seen other.entry) }
{
    match one {
        Some(stray) => Some(stray),
        None => other,
    }
}
