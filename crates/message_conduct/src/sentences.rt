//! What is said.

ghost use Rattle.std.specs.Prelude.{◌≡◌, ◌++◌, IfOk, OnOk, List, [], ◌∷◌, map, codes, unwrap_or};
ghost use Rattle.std.specs.Option.{option_or};
ghost use Rattle.syntax_tree.specs.Placed.{Decl as SpecDecl, placed_routine, placed_decl};
ghost use Rattle.syntax_tree.specs.Parts.{routines};
ghost use Rattle.syntax_tree.specs.declared.place.Place.{Place as SpecPlace};
ghost use Rattle.message_conduct.specs.Sentences.{name_at, spelled as spelled_as, called, among, denied, sentence};
ghost use Rattle.message_conduct.specs.Seen.{deed as deed_of, fault, monitor_name};

use crate::stray::{Deed, Stray, Word};
use message_text::add_quoted;
use out_of_memory::OutOfMemory;
use std::alloc::Global;
use syntax_tree::{Declaration, Name, Place, Routine, Text};

/// The name of the routine whose name stands at the place, if it is one of these.
fn name_among<'a>(place: Place, list: &'a [Routine]) -> Option<&'a Name>
    ensures { monitor_name result ≡ name_at place (map placed_routine list.now) }
{
    for routine in list {
        if routine.place == place {
            return Some(&routine.name);
        }
    }
    None
}

/// The same of the routines of a declaration.
fn name_in<'a>(place: Place, decl: &'a Declaration) -> Option<&'a Name>
    ensures { (rest : List (SpecDecl SpecPlace)) →
        option_or (monitor_name result) (name_at place (routines rest)) ≡
        name_at place (routines (placed_decl decl.now ∷ rest)) }
{
    match decl {
        Declaration::Const { .. } | Declaration::Device { .. } | Declaration::Event { .. } => None,
        Declaration::Routine(routine) => {
            if routine.place == place {
                Some(&routine.name)
            } else {
                None
            }
        }
        Declaration::Monitor(monitor) => name_among(place, monitor.entries.as_slice()),
        Declaration::Process(process) => name_among(place, process.routines.as_slice()),
    }
}

/// The same of all routines; nothing where there is none.
pub fn routine_name(place: Place, list: &[Declaration]) -> &[u8]
    ensures { result.now ≡ unwrap_or (name_at place (routines (map placed_decl list.now))) [] }
{
    for decl in list {
        if let Some(name) = name_in(place, decl) {
            return name.as_bytes();
        }
    }
    b""
}

/// Puts a name among some words.
fn add_among(text: &mut Text, before: &[u8], name: &[u8], behind: &[u8]) -> Result<(), OutOfMemory>
    ensures { OnOk result (text.new ≡ text.old ++ among before.now name.now behind.now) }
{
    text.extend(before)?;
    add_quoted(text, name)?;
    text.extend(behind)
}

/// A routine as it is called, an entry behind its monitor.
fn call_text(alloc: Global, monitor: Option<&Name>, name: &Name) -> Result<Text, OutOfMemory>
    ensures { IfOk result (λ text. text ≡ called (monitor_name monitor.entry) name.now) }
{
    let mut text = Text::new(alloc);
    if let Some(monitor) = monitor {
        text.extend(monitor.as_bytes())?;
        text.extend(b".")?;
    }
    text.extend(name.as_bytes())?;
    Ok(text)
}

/// Puts a routine, as it is called, among some words.
fn add_call(
    text: &mut Text,
    alloc: Global,
    before: &[u8],
    monitor: Option<&Name>,
    name: &Name,
    behind: &[u8],
) -> Result<(), OutOfMemory>
    ensures { OnOk result (text.new ≡ text.old ++
        among before.now (called (monitor_name monitor.entry) name.now) behind.now) }
{
    let call = call_text(alloc, monitor, name)?;
    add_among(text, before, call.as_bytes(), behind)
}

/// The word of what entries alone have.
fn spelled(word: Word) -> &'static [u8]
    ensures { result.now ≡ spelled_as word }
{
    match word {
        Word::Wait => b"wait",
        Word::Signal => b"signal",
        Word::Broadcast => b"broadcast",
        Word::Empty => b"empty",
    }
}

/// Puts what is said of a function that does it.
fn add_denied(text: &mut Text, deed: Deed<'_>) -> Result<(), OutOfMemory>
    ensures { OnOk result (text.new ≡ text.old ++ denied (deed_of deed.entry)) }
{
    match deed {
        Deed::CallsEntry => text.extend(b"calls no entry"),
        Deed::CallsProcedure => text.extend(b"calls no procedure"),
        Deed::Moves => text.extend(b"has neither `get` nor `put`"),
        Deed::Changes(name) => add_among(text, b"changes no ", name.as_bytes(), b""),
    }
}

/// Puts that the function of this name does what it may not.
fn add_by_function(text: &mut Text, own: &[u8], deed: Deed<'_>) -> Result<(), OutOfMemory>
    ensures { OnOk result (text.new ≡ text.old ++
        among (codes "the function ") own.now (codes ", being no entry, " ++ denied (deed_of deed.entry))) }
{
    add_among(text, b"the function ", own, b", being no entry, ")?;
    add_denied(text, deed)
}

/// Puts that a function is called as a statement.
fn add_as_statement(
    text: &mut Text,
    alloc: Global,
    monitor: Option<&Name>,
    name: &Name,
) -> Result<(), OutOfMemory>
    ensures { OnOk result (text.new ≡ text.old ++
        among (codes "the function ") (called (monitor_name monitor.entry) name.now)
        (codes " stands as a statement")) }
{
    add_call(
        text,
        alloc,
        b"the function ",
        monitor,
        name,
        b" stands as a statement",
    )
}

/// Puts that a value is asked of a procedure.
fn add_no_value(
    text: &mut Text,
    alloc: Global,
    monitor: Option<&Name>,
    name: &Name,
) -> Result<(), OutOfMemory>
    ensures { OnOk result (text.new ≡ text.old ++
        among [] (called (monitor_name monitor.entry) name.now)
        (codes " is a procedure and gives no value")) }
{
    add_call(
        text,
        alloc,
        b"",
        monitor,
        name,
        b" is a procedure and gives no value",
    )
}

/// Puts what is said of what is wrong in a program of these declarations.
pub(crate) fn add_sentence(
    text: &mut Text,
    alloc: Global,
    list: &[Declaration],
    stray: Stray<'_>,
) -> Result<(), OutOfMemory>
    ensures { OnOk result (text.new ≡ text.old ++
        sentence (routines (map placed_decl list.now)) (fault stray.entry)) }
{
    match stray {
        Stray::OutsideEntry(word) => {
            add_among(text, b"", spelled(word), b" stands outside an entry")
        }
        Stray::EntryInside => text.extend(b"inside an entry no entry is called"),
        Stray::ProcedureInside => text.extend(b"inside an entry no procedure is called"),
        Stray::ByFunction { own, deed } => add_by_function(text, routine_name(own, list), deed),
        Stray::AsStatement { monitor, name } => add_as_statement(text, alloc, monitor, name),
        Stray::NoValue { monitor, name } => add_no_value(text, alloc, monitor, name),
        Stray::OutsideLoop => text.extend(b"`exit` stands outside a loop"),
        Stray::OutDevice(name) => add_among(
            text,
            b"`get` takes from an `in` device; ",
            name.as_bytes(),
            b" is an `out` device",
        ),
        Stray::InDevice(name) => add_among(
            text,
            b"`put` gives to an `out` device; ",
            name.as_bytes(),
            b" is an `in` device",
        ),
    }
}
