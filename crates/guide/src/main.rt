//! Documents, run: each command and each wrong line that they show.
//!
//! The words of the program are documents; behind each command that a document shows has to stand
//! what that command puts and what it tells a person, and behind each wrong line the fault that it
//! has and the first line of its message.
//!
//! - In a block between lines of three back quotes, a line that begins with `$ ` is a command, and
//!   the lines up to the next command or the block's end are what is shown of it. The commands are
//!   `rte`,
//!   `cat` of one file and `echo $?`; behind `rte` may stand one of `| grep WORD`, `| head -n N`,
//!   `| tail -n N` and `| diff - FILE`.
//! - In a table, a row whose first cell is a fault has in its third cell what a person is told of
//!   it, behind its code in the first line of the message, in its fourth a wrong line and in its
//!   fifth the mended one. They stand in place of `HERE` in the file that was put last by `cat`; a
//!   fault of scripts is that of a script, whose lines are parted by ` / `.
//!
//! It puts a line for each thing that differs, and one for each document.
#![tactic(auto)]

mod answer;
mod document;
mod row;

use command::system_words;
use document::Told;
use std::process::ExitCode;
use std::{fs, io};

/// Runs a document, and tells whether all stood as shown.
fn stands<R: fs::Files + Print + AllocGlobal>(rt: &R, name: &str) -> io::Result<bool> {
    let text = fs::read_to_string(rt, name)?;
    let Told {
        commands,
        rows,
        differing,
    } = document::run(rt, text.as_str())?;
    println!(rt; "{name}: {commands} commands, {rows} rows, {differing} differ")?;
    Ok(differing == 0)
}

fn all_stand<R: fs::Files + Print + AllocGlobal>(rt: &R, names: &[String]) -> io::Result<bool> {
    let mut all = true;
    for name in names {
        if !stands(rt, name.as_str())? {
            all = false;
        }
    }
    Ok(all)
}

fn main(rt: HostRuntime) -> io::Result<ExitCode> {
    let names = system_words(&rt)?;
    let all = all_stand(&rt, names.as_slice())?;
    Ok(ExitCode::from(if all { 0 } else { 1 }))
}
