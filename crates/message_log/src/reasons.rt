//! Why a line is the text of no event.

ghost use Rattle.std.specs.Prelude.{◌≡◌, ◌++◌, ◌∷◌, [], IfOk, OnOk, bytes_eq, codes, map, option_map};
ghost use Rattle.std.specs.List.{list_any};
ghost use Rattle.std.specs.Option.{option_map_or};
ghost use Rattle.message_text.specs.Lines.{words};
ghost use Rattle.message_text.specs.Nearest.{nearest};
ghost use Rattle.message_log.specs.Log.{event_told, event_words, form_reason, hint};
ghost use Rattle.message_log.specs.Log.{process_reason, reason, tick_reason, unknown, words_reason};
ghost use Rattle.message_log.specs.Seen.{form_of};

use crate::table::{Form, event_form, event_words};
use crate::ticks::is_tick;
use message_text::{add_parts, add_plain, add_quoted, cut, has_return, nearest};
use out_of_memory::OutOfMemory;
use std::alloc::Global;
use syntax_tree::{Name, Text};

/// Puts the nearest name, if there is one.
fn add_hint(text: &mut Text, near: Option<&[u8]>) -> Result<(), OutOfMemory>
    ensures { OnOk result
        (text.new ≡ text.old ++ hint (option_map (λ name. name.now) near.entry)) }
{
    match near {
        None => Ok(()),
        Some(name) => {
            text.extend(b"; the nearest is `")?;
            add_plain(text, name)?;
            text.extend(b"`")
        }
    }
}

/// Puts that a word is not what is wanted, and the nearest name.
#[tactic(auto, unfolding(crate::specs::Log::unknown))]
fn add_unknown(
    text: &mut Text,
    word: &[u8],
    what: &[u8],
    near: Option<&[u8]>,
) -> Result<(), OutOfMemory>
    ensures { OnOk result (text.new ≡ text.old ++
        unknown word.now what.now (option_map (λ name. name.now) near.entry)) }
{
    add_quoted(text, word)?;
    text.extend(what)?;
    add_hint(text, near)
}

/// The nearest event's word, if one is near.
fn nearest_event(alloc: Global, word: &[u8]) -> Result<Option<&'static [u8]>, OutOfMemory>
    ensures { IfOk result (λ found.
        option_map (λ name. name.now) found ≡ nearest word.now event_words) }
{
    let all = event_words(alloc)?;
    nearest(alloc, word, all.as_slice())
}

/// Puts what a line of this event looks like.
fn add_form(text: &mut Text, form: &Form) -> Result<(), OutOfMemory>
    ensures { OnOk result (text.new ≡ text.old ++ form_reason (form_of form.now)) }
{
    add_parts(
        text,
        &[
            b"the form is `T P ",
            form.word.as_bytes(),
            form.behind.as_bytes(),
            b"`, with names of the program",
        ],
    )
}

/// Puts what is wrong with a line from its third word on.
#[tactic(auto, unfolding(crate::specs::Log::event_told))]
fn add_event_reason(alloc: Global, text: &mut Text, word: &[u8]) -> Result<(), OutOfMemory>
    ensures { OnOk result (text.new ≡ text.old ++ event_told word.now) }
{
    match event_form(word) {
        None => {
            let near = nearest_event(alloc, word)?;
            add_unknown(text, word, b" is no event", near)
        }
        Some(form) => add_form(text, form),
    }
}

/// The names of these processes.
fn names_of(alloc: Global, processes: &[Name]) -> Result<Vec<&[u8]>, OutOfMemory>
    ensures { IfOk result (λ all. map (λ name. name.now) all.items ≡ processes.now) }
{
    let mut all = Vec::new(alloc);
    for process in processes {
        all.push(process.as_bytes())?;
    }
    Ok(all)
}

/// The nearest process, if one is near.
fn nearest_process<'a>(
    alloc: Global,
    word: &[u8],
    processes: &'a [Name],
) -> Result<Option<&'a [u8]>, OutOfMemory>
    ensures { IfOk result (λ found.
        option_map (λ name. name.now) found ≡ nearest word.now processes.now) }
{
    let all = names_of(alloc, processes)?;
    nearest(alloc, word, all.as_slice())
}

/// Whether the word is the name of a process.
fn is_process(processes: &[Name], word: &[u8]) -> bool
    ensures { result ≡ list_any (λ name. bytes_eq name word.now) processes.now }
{
    processes.iter().any(|name| name.as_bytes() == word)
}

/// Puts that the second word is no process, and the nearest one.
fn add_no_process(
    alloc: Global,
    text: &mut Text,
    processes: &[Name],
    process: &[u8],
) -> Result<(), OutOfMemory>
    ensures { OnOk result (text.new ≡ text.old ++
        unknown process.now (codes " is no process") (nearest process.now processes.now)) }
{
    let near = nearest_process(alloc, process, processes)?;
    add_unknown(text, process, b" is no process", near)
}

/// Puts what is wrong with a line from its second word on.
#[tactic(auto, unfolding(crate::specs::Log::process_reason))]
fn add_process_reason(
    alloc: Global,
    text: &mut Text,
    processes: &[Name],
    process: &[u8],
    event: &[u8],
) -> Result<(), OutOfMemory>
    ensures { OnOk result
        (text.new ≡ text.old ++ process_reason processes.now process.now event.now) }
{
    if is_process(processes, process) {
        return add_event_reason(alloc, text, event);
    }
    add_no_process(alloc, text, processes, process)
}

/// Puts what is wrong with a line that has three words or more.
fn add_tick_reason(
    alloc: Global,
    text: &mut Text,
    processes: &[Name],
    tick: &[u8],
    process: &[u8],
    event: &[u8],
) -> Result<(), OutOfMemory>
    ensures { OnOk result
        (text.new ≡ text.old ++ tick_reason processes.now tick.now process.now event.now) }
{
    if is_tick(tick) {
        return add_process_reason(alloc, text, processes, process, event);
    }
    add_unknown(text, tick, b" is no tick", None)
}

/// The first word, and what stands behind its blank, if there is one.
fn cut_word(line: &[u8]) -> (&[u8], Option<&[u8]>)
    ensures { words line.now ≡ result.0.now ∷ option_map_or (λ rest. words rest.now) result.1 [] }
{
    cut(line, b' ')
}

/// Puts what is wrong with the words of a line.
fn add_words_reason(
    alloc: Global,
    text: &mut Text,
    processes: &[Name],
    line: &[u8],
) -> Result<(), OutOfMemory>
    ensures { OnOk result
        (text.new ≡ text.old ++ words_reason processes.now (words line.now)) }
{
    if let (tick, Some(behind)) = cut_word(line) {
        if let (process, Some(event)) = cut_word(behind) {
            return add_tick_reason(alloc, text, processes, tick, process, cut_word(event).0);
        }
    }
    text.extend(b"a line has a tick, a process and an event")
}

/// Puts why a line is the text of no event, the first that applies.
fn add_reason(
    alloc: Global,
    text: &mut Text,
    processes: &[Name],
    line: &[u8],
    is_ended: bool,
) -> Result<(), OutOfMemory>
    ensures { OnOk result (text.new ≡ text.old ++ reason processes.now line.now is_ended) }
{
    if !is_ended {
        return text.extend(b"the last line has no line feed");
    }
    if has_return(line) {
        return text.extend(b"a carriage return; lines end with a line feed alone");
    }
    add_words_reason(alloc, text, processes, line)
}

/// Why a line is the text of no event.
pub(crate) fn reason(
    alloc: Global,
    processes: &[Name],
    line: &[u8],
    is_ended: bool,
) -> Result<Text, OutOfMemory>
    ensures { IfOk result (λ text. text ≡ reason processes.now line.now is_ended) }
{
    let mut text = Text::new(alloc);
    add_reason(alloc, &mut text, processes, line, is_ended)?;
    Ok(text)
}
