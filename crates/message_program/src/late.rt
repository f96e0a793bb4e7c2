//! The message for a program of which a process has no bound.

ghost use Rattle.std.specs.Prelude.{◌≡◌, ◌++◌, IfOk, OnOk};
ghost use Rattle.message_program.specs.Late.{advice_line, call_words, deadline_words};
ghost use Rattle.message_program.specs.Late.{late_message, overhead, unnamed_line, untimely_line};

use crate::process::{LateProcess, late_process};
use crate::ticks::add_between;
use image::ImageNames;
use message_text::{add_number, add_parts, add_plain, add_quoted};
use out_of_memory::OutOfMemory;
use sched_table::Table;
use std::alloc::Global;
use syntax_tree::Text;

/// Puts the overhead as the last word of a call, if there is one.
fn add_overhead(text: &mut Text, over: u16) -> Result<(), OutOfMemory>
    ensures { OnOk result (text.new ≡ text.old ++ overhead over) }
{
    if over == 0 {
        return Ok(());
    }
    text.extend(b" ")?;
    add_number(text, usize::from(over))
}

/// The file and the overhead, as the words of a call.
fn call_words(alloc: Global, file: &[u8], over: u16) -> Result<Text, OutOfMemory>
    ensures { IfOk result (λ words. words ≡ call_words file.now over) }
{
    let mut words = Text::new(alloc);
    add_plain(&mut words, file)?;
    add_overhead(&mut words, over)?;
    Ok(words)
}

/// Puts within how many ticks there is no bound.
fn add_deadline(text: &mut Text, deadline: u64) -> Result<(), OutOfMemory>
    ensures { OnOk result (text.new ≡ text.old ++ deadline_words deadline) }
{
    add_between(
        text,
        b" has no bound within its deadline of ",
        deadline,
        b" ticks\n",
    )
}

/// Puts that a process has no bound within its deadline.
fn add_untimely(text: &mut Text, file: &[u8], name: &[u8], deadline: u64) -> Result<(), OutOfMemory>
    ensures { OnOk result (text.new ≡ text.old ++ untimely_line file.now name.now deadline) }
{
    add_plain(text, file)?;
    text.extend(b": untimely: the process ")?;
    add_quoted(text, name)?;
    add_deadline(text, deadline)
}

/// Puts that a process has no bound, and names none.
fn add_unnamed(text: &mut Text, file: &[u8]) -> Result<(), OutOfMemory>
    ensures { OnOk result (text.new ≡ text.old ++ unnamed_line file.now) }
{
    add_plain(text, file)?;
    text.extend(b": untimely: a process has no bound within its deadline\n")
}

/// Puts which calls tell more.
fn add_advice(text: &mut Text, words: &[u8]) -> Result<(), OutOfMemory>
    ensures { OnOk result (text.new ≡ text.old ++ advice_line words.now) }
{
    add_parts(
        text,
        &[
            b"rte: `rte why ",
            words,
            b"` takes the bounds apart; `rte fit ",
            words,
            b"` tells what would fit\n",
        ],
    )
}

/// Tells that a process has no bound, and names none.
fn tell_unnamed(alloc: Global, file: &[u8], over: u16) -> Result<Text, OutOfMemory>
    ensures { IfOk result (λ text. text ≡
        unnamed_line file.now ++ advice_line (call_words file.now over)) }
{
    let words = call_words(alloc, file, over)?;
    let mut text = Text::new(alloc);
    add_unnamed(&mut text, file)?;
    add_advice(&mut text, words.as_bytes())?;
    Ok(text)
}

/// Tells which process has no bound.
fn tell_late(
    alloc: Global,
    file: &[u8],
    over: u16,
    process: LateProcess<'_>,
) -> Result<Text, OutOfMemory>
    ensures { IfOk result (λ text. text ≡
        untimely_line file.now process.entry.name.now process.entry.row.now.deadline
        ++ advice_line (call_words file.now over)) }
{
    let words = call_words(alloc, file, over)?;
    let mut text = Text::new(alloc);
    add_untimely(
        &mut text,
        file,
        process.name.as_bytes(),
        process.row.deadline,
    )?;
    add_advice(&mut text, words.as_bytes())?;
    Ok(text)
}

/// The message for a program of which a process has no bound under an overhead of so many ticks:
/// the first such process with its deadline, and the calls that tell more. Where no row lacks a
/// bound, or the first that does has no name, no process is named.
#[tactic(auto, unfolding(crate::specs::Late::late_message))]
pub fn late_message(
    alloc: Global,
    file: &str,
    over: u16,
    names: &ImageNames,
    table: &Table,
) -> Result<Text, OutOfMemory>
    ensures { IfOk result (λ message. message ≡ late_message file.now over names.now table.now) }
{
    match late_process(names.processes.as_slice(), table.rows.as_slice()) {
        None => tell_unnamed(alloc, file.as_bytes(), over),
        Some(process) => tell_late(alloc, file.as_bytes(), over, process),
    }
}
