//! Reading a table.

ghost use Rattle.std.specs.Prelude.{◌≡◌, ◌≤◌, ◌<◌, ◌+◌, ◌++◌, ◌^◌, length, All, OnOk, MatchOption, IfOk, IfErr, MatchResult};
ghost use Rattle.table_format.specs.Spelling.{lines_before_end, table_bytes};
ghost use Rattle.table_format.specs.Rules.{IsBegun, IsName, longest_text, names_of_line};
ghost use Rattle.table_format.specs.Faults.{Breaks, HasTakenName, IsFormed, IsLeast, meant};
ghost use Rattle.table_reader.specs.declared.fault.TableFault.TheVariants.{Bad};
ghost use Rattle.table_reader.specs.Answer.{Answers};
ghost use Rattle.table_reader.specs.Judging.{IsAdded, IsLineFault, IsNew};
ghost use Rattle.table_reader.specs.Reading.{line_seen};

use crate::fault::TableFault;
use crate::form::{has_names, is_name};
use crate::judge::{can_be_met, has_taken_name, is_small};
use crate::line::LineWords;
use crate::next::{NextLine, first_line, next_line};
use crate::refusal::{self, LONG_TABLE};
use crate::task::task_of;
use out_of_memory::OutOfMemory;
use std::alloc::Global;
use syntax_tree::{List, Name};
use table_format::{TaskLine, TaskTable};

/// How many bytes a table has at most.
pub const LONGEST_TABLE: usize = 1_048_576;

/// A fault on a line.
fn bad(number: u8, line: usize) -> TableFault
    requires { line < 2 ^ 32 }
    ensures { result ≡ Bad number line }
{
    TableFault::Bad {
        number,
        line: line as u32,
    }
}

/// The number of the fault that the words of a process line have behind the lines of a table by
/// their names, if any.
fn name_fault(
    alloc: Global,
    table: &TaskTable,
    words: &LineWords<'_>,
) -> Result<Option<u8>, OutOfMemory>
    ensures { IfOk result (λ fault. MatchOption fault
        (All IsName (names_of_line (meant (line_seen words.now)))
        × ¬ HasTakenName table.now (meant (line_seen words.now)))
        (λ number. IsLeast (Breaks table.now (meant (line_seen words.now))) number)) }
{
    if !has_names(alloc, words)? {
        return Ok(Some(refusal::NAME));
    }
    if has_taken_name(table, words) {
        return Ok(Some(refusal::TAKEN));
    }
    Ok(None)
}

/// The process line of these words behind the lines of a table, or the fault that it has by itself
/// or by its names.
fn new_task(alloc: Global, table: &TaskTable, words: &LineWords<'_>) -> Result<TaskLine, TableFault>
    requires few { length table.now.tasks ≤ 64 }
    requires formed { IsFormed (line_seen words.now) }
    ensures { MatchResult result (λ task. IsNew table.now (line_seen words.now) task)
        (λ fault. IsLineFault table.now (line_seen words.now) fault) }
{
    let line = table.tasks.len() + 2;
    if let Some(number) = name_fault(alloc, table, words)? {
        return Err(bad(number, line));
    }
    let Some(task) = task_of(alloc, words)? else {
        return Err(bad(refusal::RANGE, line));
    };
    if !can_be_met(&task) {
        return Err(bad(refusal::UNMET, line));
    }
    Ok(task)
}

/// Puts the process line of these words behind the lines of a table, or gives its fault.
fn add_line(alloc: Global, table: &mut TaskTable, words: &LineWords<'_>) -> Result<(), TableFault>
    requires begun { IsBegun table.old }
    requires formed { IsFormed (line_seen words.now) }
    ensures ok { OnOk result (IsAdded table.old (line_seen words.now) table.new) }
    ensures err { IfErr result (λ fault. IsLineFault table.old (line_seen words.now) fault) }
{
    let line = table.tasks.len() + 2;
    let task = new_task(alloc, table, words)?;
    table.tasks.push(task)?;
    if !is_small(alloc, table)? {
        return Err(bad(refusal::COUNT, line));
    }
    Ok(())
}

/// The table, whose last line stands before these bytes; else its fault.
fn end_of(table: TaskTable, rest: &[u8]) -> Result<TaskTable, TableFault>
    requires begun { IsBegun table }
    requires short { length (table_bytes table ++ rest.now) ≤ longest_text }
    ensures { Answers (table_bytes table ++ rest.now) result }
{
    let line = table.tasks.len() + 2;
    if table.tasks.is_empty() {
        return Err(bad(refusal::COUNT, line));
    }
    if !rest.is_empty() {
        return Err(bad(refusal::FORM, line + 1));
    }
    Ok(table)
}

/// Reads the lines behind the first one.
fn read_lines(alloc: Global, mut table: TaskTable, rest: &[u8]) -> Result<TaskTable, TableFault>
    requires begun { IsBegun table }
    requires short { length (lines_before_end table ++ rest.now) ≤ longest_text }
    ensures { Answers (lines_before_end table ++ rest.now) result }
{
    let mut bytes = rest;
    'lines: loop {
        match next_line(alloc, bytes)? {
            None => return Err(bad(refusal::FORM, table.tasks.len() + 2)),
            Some(NextLine::Last { rest }) => return end_of(table, rest),
            Some(NextLine::Process { words, rest }) => {
                add_line(alloc, &mut table, &words)?;
                bytes = rest;
            }
        }
    }
}

/// The table that the text is: exactly where it is the one spelling of that table.
///
/// # Errors
///
/// `Bad` has the number and the line of the first line with a fault, the least number that it has:
/// 7 on line 0 where the text is too long, else 1 to 6. `Memory` may stand in place of any answer
/// but that.
pub fn read_table(alloc: Global, text: &[u8]) -> Result<TaskTable, TableFault>
    ensures { Answers text.now result }
{
    if text.len() > LONGEST_TABLE {
        return Err(bad(LONG_TABLE, 0));
    }
    let Some(first) = first_line(text) else {
        return Err(bad(refusal::FORM, 1));
    };
    if !is_name(first.name) {
        return Err(bad(refusal::NAME, 1));
    }
    let table = TaskTable {
        name: Name::new(alloc, first.name)?,
        tasks: List::new(alloc),
    };
    read_lines(alloc, table, first.rest)
}
