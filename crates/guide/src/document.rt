//! A document, line by line.

use crate::{answer, row};
use std::io;

/// What a document came to: its commands, its rows with a fault, and how many of both are not as
/// shown.
#[derive(Clone, Copy)]
pub struct Told {
    pub commands: u64,
    pub rows: u64,
    pub differing: u64,
}

/// Where the reading stands.
#[derive(Drop)]
struct Standing {
    /// The text of the last `cat`, in which rows stand.
    frame: String,
    /// The status of the last `rte`.
    status: u8,
    told: Told,
}

/// Compares what a command puts with what is shown of it.
fn compare<R: std::rt::Files + Print + AllocGlobal>(
    rt: &R,
    standing: &mut Standing,
    command: &str,
    shown: &str,
) -> io::Result<()> {
    let put = answer::of(rt, command, &mut standing.status)?;
    standing.told.commands = standing.told.commands.saturating_add(1);
    if put.as_str() != shown {
        standing.told.differing = standing.told.differing.saturating_add(1);
        println!(rt; "$ {command}\n{}", put.as_str())?;
    }
    if command.starts_with("cat ") {
        standing.frame = put;
    }
    Ok(())
}

/// Compares a row of a table, if its first cell is a fault.
fn compare_row<R: std::rt::Files + Print + AllocGlobal>(
    rt: &R,
    standing: &mut Standing,
    line: &str,
) -> io::Result<()> {
    let Some(stands) = row::stands(rt, standing.frame.as_str(), line)? else {
        return Ok(());
    };
    standing.told.rows = standing.told.rows.saturating_add(1);
    if !stands {
        standing.told.differing = standing.told.differing.saturating_add(1);
    }
    Ok(())
}

/// A block of commands, if it is open: the last command, and what is shown of it so far.
#[derive(Drop)]
struct Block {
    is_open: bool,
    command: String,
    shown: String,
}

/// Compares the last command, if there is one, and begins the next.
fn begin<R: std::rt::Files + Print + AllocGlobal>(
    rt: &R,
    standing: &mut Standing,
    block: &mut Block,
    command: &str,
) -> io::Result<()> {
    if block.command.as_str() != "" {
        compare(rt, standing, block.command.as_str(), block.shown.as_str())?;
    }
    block.shown.clear();
    block.command.clear();
    Ok(block.command.push_str(command)?)
}

/// Puts a line behind what is shown.
fn show(shown: &mut String, line: &str) -> io::Result<()> {
    shown.push_str(line)?;
    Ok(shown.push_str("\n")?)
}

fn read_line<R: std::rt::Files + Print + AllocGlobal>(
    rt: &R,
    standing: &mut Standing,
    block: &mut Block,
    line: &str,
) -> io::Result<()> {
    if line.starts_with("```") {
        block.is_open = !block.is_open;
        return begin(rt, standing, block, "");
    }
    if !block.is_open {
        return compare_row(rt, standing, line);
    }
    match line.strip_prefix("$ ") {
        Some(command) => begin(rt, standing, block, command),
        None => show(&mut block.shown, line),
    }
}

fn read_lines<R: std::rt::Files + Print + AllocGlobal>(
    rt: &R,
    standing: &mut Standing,
    block: &mut Block,
    text: &str,
) -> io::Result<()> {
    for line in text.lines() {
        read_line(rt, standing, block, line)?;
    }
    Ok(())
}

/// Runs a document, and puts what differs.
pub fn run<R: std::rt::Files + Print + AllocGlobal>(rt: &R, text: &str) -> io::Result<Told> {
    let alloc = rt.alloc();
    let told = Told {
        commands: 0,
        rows: 0,
        differing: 0,
    };
    let mut standing = Standing {
        frame: String::new(alloc),
        status: 0,
        told,
    };
    let mut block = Block {
        is_open: false,
        command: String::new(alloc),
        shown: String::new(alloc),
    };
    read_lines(rt, &mut standing, &mut block, text)?;
    Ok(standing.told)
}
