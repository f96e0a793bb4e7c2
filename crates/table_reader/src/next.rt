//! The next line of some bytes.

ghost use Rattle.table_reader.specs.Nexts.{IsFirst, IsNext, IsProcess};
ghost use Rattle.std.specs.Prelude.{IfOk};

use crate::form::{is_formed, is_table_word};
use crate::line::{LineWords, read_line};
use out_of_memory::OutOfMemory;
use std::alloc::Global;
use text_fields::{cut_at, is_same};

/// What stands before the name of a table.
const KEY: &[u8] = b"table ";

/// The name of a table, and the bytes behind the first line.
#[derive(Clone, Copy)]
pub struct FirstLine<'a> {
    pub name: &'a [u8],
    pub rest: &'a [u8],
}

/// What the next line is, and the bytes behind it.
#[derive(Drop)]
pub enum NextLine<'a> {
    Process {
        words: LineWords<'a>,
        rest: &'a [u8],
    },
    Last {
        rest: &'a [u8],
    },
}

/// The first line of some bytes; None where it has no form.
pub fn first_line(bytes: &[u8]) -> Option<FirstLine<'_>>
    ensures { IsFirst bytes.now result }
{
    let cut = cut_at(bytes, b'\n')?;
    let name = cut.before.strip_prefix(KEY)?;
    if !is_table_word(name) {
        return None;
    }
    Some(FirstLine {
        name,
        rest: cut.after,
    })
}

/// The words of a process line, which is given without its LF; None where it has no form.
fn process_line(alloc: Global, line: &[u8]) -> Result<Option<LineWords<'_>>, OutOfMemory>
    ensures { IfOk result (λ words. IsProcess line.now words) }
{
    match read_line(alloc, line)? {
        None => Ok(None),
        Some(words) => {
            if is_formed(alloc, &words)? {
                Ok(Some(words))
            } else {
                Ok(None)
            }
        }
    }
}

/// The next line of some bytes; None where it has no form.
pub fn next_line(alloc: Global, bytes: &[u8]) -> Result<Option<NextLine<'_>>, OutOfMemory>
    ensures { IfOk result (λ next. IsNext bytes.now next) }
{
    let Some(cut) = cut_at(bytes, b'\n') else {
        return Ok(None);
    };
    if is_same(cut.before, b"end") {
        return Ok(Some(NextLine::Last { rest: cut.after }));
    }
    match process_line(alloc, cut.before)? {
        None => Ok(None),
        Some(words) => Ok(Some(NextLine::Process {
            words,
            rest: cut.after,
        })),
    }
}
