//! The sentence for a rule for calls that fails at a place.

ghost use Rattle.std.specs.Prelude.{◌≡◌, ◌++◌, IfOk, OnOk, find, map, option_map};
ghost use Rattle.message_text.specs.Words.{quoted};
ghost use Rattle.syntax_tree.specs.Parts.{processes};
ghost use Rattle.syntax_tree.specs.Placed.{placed, placed_decl, placed_process};
ghost use Rattle.message_conduct.specs.Told.{IsCallTold, IsRoundTold, handler_sentence, handler_told, is_handled_at, round_sentence, routine_name};

use crate::routine_name;
use message_text::add_quoted;
use out_of_memory::OutOfMemory;
use static_calls::way_back;
use static_declarations::Declarations;
use std::alloc::Global;
use syntax_tree::{Declaration, Place, Process, Text};

/// Puts two names with words between them.
fn add_names(text: &mut Text, one: &[u8], words: &[u8], other: &[u8]) -> Result<(), OutOfMemory>
    ensures { OnOk result (text.new ≡ text.old ++
        (quoted one.now ++ (words.now ++ quoted other.now))) }
{
    add_quoted(text, one)?;
    text.extend(words)?;
    add_quoted(text, other)
}

/// Puts a name among some words.
fn add_among(text: &mut Text, before: &[u8], name: &[u8], behind: &[u8]) -> Result<(), OutOfMemory>
    ensures { OnOk result (text.new ≡ text.old ++
        (before.now ++ (quoted name.now ++ behind.now))) }
{
    text.extend(before)?;
    add_quoted(text, name)?;
    text.extend(behind)
}

/// Puts that a routine reaches itself, and by which call.
fn add_round(text: &mut Text, caller: &[u8], callee: &[u8]) -> Result<(), OutOfMemory>
    ensures { OnOk result (text.new ≡ text.old ++ round_sentence caller.now callee.now) }
{
    add_names(
        text,
        caller,
        b" reaches itself through its call of ",
        callee,
    )
}

/// Puts that the handler of a process reaches a wait.
fn add_handler(text: &mut Text, process: &[u8]) -> Result<(), OutOfMemory>
    ensures { OnOk result (text.new ≡ text.old ++ handler_sentence process.now) }
{
    add_among(text, b"the handler of ", process, b" reaches a `wait`")
}

/// The sentence for the routine at the place that reaches itself, first by its call of the callee.
fn round_text(
    alloc: Global,
    declarations: &Declarations<'_>,
    place: Place,
    callee: Place,
) -> Result<Text, OutOfMemory>
    ensures { IfOk result (λ said. said ≡ round_sentence
        (routine_name (placed declarations.now) place)
        (routine_name (placed declarations.now) callee)) }
{
    let decls = declarations.program().decls.as_slice();
    let mut sentence = Text::new(alloc);
    add_round(
        &mut sentence,
        routine_name(place, decls),
        routine_name(callee, decls),
    )?;
    Ok(sentence)
}

/// The sentence for the routine at the place that reaches itself, if one does.
fn round_told(
    alloc: Global,
    declarations: &Declarations<'_>,
    place: Place,
) -> Result<Option<Text>, OutOfMemory>
    ensures { IfOk result (λ said. IsRoundTold (placed declarations.now) place said) }
{
    let Some(callee) = way_back(alloc, declarations, place)? else {
        return Ok(None);
    };
    let sentence = round_text(alloc, declarations, place, callee)?;
    Ok(Some(sentence))
}

/// Whether the process has a handler, and its name stands at the place.
fn is_handled_at(place: Place, process: &Process) -> bool
    ensures { result ≡ is_handled_at place (placed_process process.now) }
{
    match &process.handler {
        Some(_) => process.place == place,
        None => false,
    }
}

/// The process whose name stands at the place, and that has a handler.
fn handled_at<'a>(place: Place, list: &'a [Declaration]) -> Option<&'a Process>
    ensures { option_map (λ p. placed_process p.now) result ≡
        find (is_handled_at place) (processes (map placed_decl list.now)) }
{
    for decl in list {
        if let Declaration::Process(process) = decl {
            if is_handled_at(place, process) {
                return Some(process);
            }
        }
    }
    None
}

/// The sentence for a process that has a handler.
fn handler_text(alloc: Global, process: &Process) -> Result<Text, OutOfMemory>
    ensures { IfOk result (λ said. said ≡ handler_sentence (placed_process process.now).name) }
{
    let mut sentence = Text::new(alloc);
    add_handler(&mut sentence, process.name.as_bytes())?;
    Ok(sentence)
}

/// The sentence for the process at the place that has a handler, if one has.
fn handler_told(
    alloc: Global,
    declarations: &Declarations<'_>,
    place: Place,
) -> Result<Option<Text>, OutOfMemory>
    ensures { IfOk result (λ said. said ≡ handler_told (placed declarations.now) place) }
{
    let Some(process) = handled_at(place, declarations.program().decls.as_slice()) else {
        return Ok(None);
    };
    let sentence = handler_text(alloc, process)?;
    Ok(Some(sentence))
}

/// The sentence for a rule for calls that fails at this place: 31 of a routine that reaches itself,
/// with the first of its calls that comes back; 35 of a process whose handler reaches a wait. `None`
/// where no routine at the place reaches itself, where no process with a handler stands there, and
/// for other numbers. The only error is want of memory.
pub fn call_sentence(
    alloc: Global,
    declarations: &Declarations<'_>,
    number: u8,
    place: Place,
) -> Result<Option<Text>, OutOfMemory>
    ensures { IfOk result (λ said. IsCallTold (placed declarations.now) number place said) }
{
    match number {
        31 => round_told(alloc, declarations, place),
        35 => handler_told(alloc, declarations, place),
        _ => Ok(None),
    }
}
