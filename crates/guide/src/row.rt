//! A row of a table of faults.

use crate::answer;
use std::alloc::Global;
use std::{fs, io};

/// Where the texts of a row are written.
const TEXT: &str = "row.txt";

/// The words by which a program of a row is judged.
const CHECK: &str = "check row.txt";

/// The words by which a script of a row is judged: that of the program of the guide.
const GO: &str = "go guide/five.rte row.img row.txt";

/// A row: a fault, what a person is told of it, a text that has it, and one that is mended.
#[derive(Clone, Copy)]
struct Row<'a> {
    fault: &'a str,
    told: &'a str,
    wrong: &'a str,
    mended: &'a str,
}

/// The row of a line. None where it is no row of a fault.
fn row_of(line: &str) -> Option<Row<'_>> {
    let mut cells = line.split('|').map(|cell| cell.trim());
    cells.next()?;
    let fault = cells.next()?;
    cells.next()?;
    let told = cells.next()?;
    let wrong = cells.next()?;
    let mended = cells.next()?;
    if !wrong.starts_with('`') || !(fault.starts_with('E') || fault.starts_with('S')) {
        return None;
    }
    Some(Row {
        fault,
        told,
        wrong,
        mended,
    })
}

/// What is put for these words where the text is written, and then told.
fn put_of<R: std::rt::Files + AllocGlobal>(rt: &R, text: &str, words: &str) -> io::Result<String> {
    fs::write(rt, TEXT, text)?;
    let mut status = 0;
    answer::of_rte(rt, words, &mut status)
}

/// The same of a script, whose lines are parted.
fn put_of_script<R: std::rt::Files + AllocGlobal>(rt: &R, script: &str) -> io::Result<String> {
    let mut lines = script.replace(rt.alloc(), " / ", "\n")?;
    lines.push_str("\n")?;
    put_of(rt, lines.as_str(), GO)
}

/// What is put for the text of a cell, and then told: its fault where it has one, else a report.
fn put<R: std::rt::Files + AllocGlobal>(
    rt: &R,
    frame: &str,
    fault: &str,
    cell: &str,
) -> io::Result<String> {
    let text = cell.trim_matches('`');
    if fault.starts_with('S') {
        return put_of_script(rt, text);
    }
    let whole = frame.replace(rt.alloc(), "HERE", text)?;
    put_of(rt, whole.as_str(), CHECK)
}

/// Whether a line is the first of a program's message: the place of the fault, its code, and what a
/// person is told.
fn tells_place(
    alloc: Global,
    first: &str,
    place: &str,
    code: &str,
    told: &str,
) -> io::Result<bool> {
    let whole = format!(in alloc; "{TEXT}:{place}: {code}: {told}")?;
    Ok(first == whole.as_str())
}

/// The same of a script, of whose fault no column is put: the line stands first.
fn tells_line(
    alloc: Global,
    first: &str,
    numbers: &str,
    code: &str,
    told: &str,
) -> io::Result<bool> {
    let line = numbers.split(' ').next().unwrap_or("");
    let begin = format!(in alloc; "{TEXT}:{line}:")?;
    let end = format!(in alloc; ": {code}: {told}")?;
    Ok(first.starts_with(begin.as_str()) && first.ends_with(end.as_str()))
}

/// Whether the fault of a row is put, and then what a person is told of it.
fn is_told(alloc: Global, row: Row<'_>, put: &str) -> io::Result<bool> {
    let mut lines = put.lines();
    let (Some(fault), Some(first)) = (lines.next(), lines.next()) else {
        return Ok(false);
    };
    let Some((code, place)) = fault.split_once(' ') else {
        return Ok(false);
    };
    if fault != row.fault {
        return Ok(false);
    }
    if code.starts_with('S') {
        tells_line(alloc, first, place, code, row.told)
    } else {
        tells_place(alloc, first, place, code, row.told)
    }
}

/// Whether the row is told of what is put for its wrong line, and the mended one has a report. Puts
/// both where this is not so.
fn agrees<R: Print + AllocGlobal>(
    rt: &R,
    row: Row<'_>,
    wrong: &str,
    right: &str,
) -> io::Result<bool> {
    if is_told(rt.alloc(), row, wrong)? && right.starts_with("program") {
        return Ok(true);
    }
    println!(rt; "{}: {wrong}\n{}: {right}", row.wrong, row.mended)?;
    Ok(false)
}

/// Whether a row's wrong line has its fault, told as in the row, and the mended one has none. None
/// where it is no row of a fault.
pub fn stands<R: std::rt::Files + Print + AllocGlobal>(
    rt: &R,
    frame: &str,
    line: &str,
) -> io::Result<Option<bool>> {
    let Some(row) = row_of(line) else {
        return Ok(None);
    };
    let wrong = put(rt, frame, row.fault, row.wrong)?;
    let right = put(rt, frame, row.fault, row.mended)?;
    Ok(Some(agrees(rt, row, wrong.as_str(), right.as_str())?))
}
