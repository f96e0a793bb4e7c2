//! Rows of words: those that are a command, whose first file is missing, and those that are none.

use std::alloc::Global;
use std::test::Fail;
use tests_calls::{Expected, answers};

/// Words of each command; no file that they name is there.
const COMMANDS: &[&str] = &[
    "go p i s",
    "go p i s 0",
    "go p i s 1000",
    "check p",
    "check p 42",
    "check 7",
    "compile p i",
    "compile p i 9",
    "json p",
    "json p 999",
    "slack p",
    "slack p 7",
    "print p",
    "run i s",
    "migrate i j",
    "asm a i",
    "dis i a",
    "replay p s l",
    "edf p s",
    "watch i s 0",
    "watch i s 1000000000",
    "watch i s @0",
    "watch i s @65534",
    "why p",
    "why p 1000",
    "fit p",
    "fit p 0",
    "chart i s 0 1",
    "chart i s 999999999 1000000000",
    "table f p",
    "table p p",
];

/// Words that are in no row of the table: a file or a number too few or too many, a number that is
/// none, has a zero in front or is too great, an empty word, one that begins with `-`, and names
/// that are no command's.
const OTHERS: &[&str] = &[
    "",
    " ",
    "go p i",
    "go p i s 1001",
    "go p i s 007",
    "go p i s 00",
    "go p i s 7 7",
    "go  i s",
    "check",
    "check ",
    "check p ",
    "check p -1",
    "check p +1",
    "check p 4294967296",
    "check p 1x",
    "compile p",
    "slack p 07",
    "slack p 1001",
    "slack p i",
    "slack",
    "print p 1",
    "print -",
    "run i s 1",
    "run -i s",
    "migrate i",
    "asm a",
    "dis i a 1",
    "replay p s",
    "replay p s l 0",
    "edf p",
    "edf p s 0",
    "watch i s",
    "watch i s 1000000001",
    "watch i s 05",
    "watch i s @65535",
    "watch i s @01",
    "watch i s @",
    "watch i s @@1",
    "why",
    "why p 1001",
    "why p i",
    "fit p 0 0",
    "fit p 01",
    "chart i s 0",
    "chart i s 5 5",
    "chart i s 00 5",
    "chart i s 0 1000000001",
    "chart i s 1000000000 1000000000",
    "chart i s 0 1 2",
    "table f",
    "table f p 1",
    "table -f p",
    "Check p",
    "checks p",
    "-check p",
];

/// Each line has this answer, where no file is there.
fn have_answer(alloc: Global, rows: &[&str], want: Expected<'_>) -> Result<(), Fail> {
    for line in rows {
        answers(alloc, line, b"", None, want)?;
    }
    Ok(())
}

#[test]
fn words_of_commands_are_read(rt: HostRuntime) -> Result<(), Fail> {
    let unread = Expected {
        status: 6,
        put: "",
        puts: None,
    };
    have_answer(rt.alloc(), COMMANDS, unread)
}

#[test]
fn other_words_are_refused(rt: HostRuntime) -> Result<(), Fail> {
    let usage = Expected {
        status: 1,
        put: "usage\n",
        puts: None,
    };
    have_answer(rt.alloc(), OTHERS, usage)
}
