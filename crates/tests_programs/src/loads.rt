//! Loads that are made: their texts, the line that tells of their run, and each device call failing
//! in turn.

use std::alloc::Global;
use std::test::Fail;
use tests_calls::{
    CallResult, Expected, Failures, Left, NO_FAILURES, answers, call, call_with, put_of,
};

/// The words, and how the line begins that is put.
const LOADS: &[(&str, &str)] = &[
    ("make 7 40 P S", "made 40 code 991 lines "),
    ("make 0 64 P S", "made 64 code 1579 lines "),
    ("make 18446744073709551615 1 P S", "made 1 code 35 lines "),
];

/// The bytes of a file, of which there is one.
fn text_of(file: &Option<Vec<u8>>) -> &[u8] {
    match file {
        Some(bytes) => bytes.as_slice(),
        None => b"",
    }
}

/// The line of a load, by what `go` puts of its texts: how many lines its log has, how many bytes,
/// and their mark. The log stands behind the report, which has so many bytes.
fn log_line(alloc: Global, front: &str, went: &[u8], report: usize) -> Result<String, Fail> {
    let Some(log) = went.get(report..) else {
        return Err(Fail::new("no log behind the report"));
    };
    let mut lines: u64 = 0;
    let mut mark: u32 = 0;
    for byte in log {
        if *byte == b'\n' {
            lines = lines.saturating_add(1);
        }
        mark = mark.wrapping_mul(31).wrapping_add(u32::from(*byte));
    }
    let bytes = log.len();
    Ok(format!(in alloc; "{front}{lines} bytes {bytes} mark {mark}\n")?)
}

/// The line of a load, by its texts.
fn load_line(alloc: Global, front: &str, program: &[u8], script: &str) -> Result<String, Fail> {
    let report = put_of(alloc, "check P", program, None)?.len();
    let went = put_of(alloc, "go P I S", program, Some(script))?;
    log_line(alloc, front, went.as_slice(), report)
}

/// The call put this; so does another of the same words, and the program is printed as it is.
fn is_made(alloc: Global, line: &str, made: &CallResult, put: &str) -> Result<(), Fail> {
    let program = text_of(&made.program);
    let want = Expected {
        status: 0,
        put,
        puts: Some(1),
    };
    made.answered(alloc, line, want)?;
    answers(alloc, line, b"", None, want)?;
    let printed = Expected {
        put: str::from_utf8(program)?,
        ..want
    };
    answers(alloc, "print P", program, None, printed)
}

/// The texts of a load are those of a timely program and of a script for it, and its line tells of
/// the log that `go` puts behind the report; the same words make the same load.
fn is_load(alloc: Global, line: &str, front: &str, made: &CallResult) -> Result<(), Fail> {
    let script = str::from_utf8(text_of(&made.script))?;
    let put = load_line(alloc, front, text_of(&made.program), script)?;
    is_made(alloc, line, made, put.as_str())
}

fn makes_load(alloc: Global, line: &str, front: &str) -> Result<(), Fail> {
    let made = call(alloc, line, b"", None)?;
    is_load(alloc, line, front, &made)
}

fn make_loads(alloc: Global, rows: &[(&str, &str)]) -> Result<(), Fail> {
    for &(line, front) in rows {
        makes_load(alloc, line, front)?;
    }
    Ok(())
}

#[test]
fn loads_are_made(rt: HostRuntime) -> Result<(), Fail> {
    make_loads(rt.alloc(), LOADS)
}

const NO_WRITE: Failures = Failures {
    write: 1,
    ..NO_FAILURES
};

const ONE_WRITE: Failures = Failures {
    write: 2,
    ..NO_FAILURES
};

const NO_PUT: Failures = Failures {
    put: 1,
    ..NO_FAILURES
};

/// What fails in a call of `make 7 2 P S`, its status, and whether P and S hold its texts then.
const FAILING: &[(Failures, u8, bool, bool)] = &[
    (NO_FAILURES, 0, true, true),
    (NO_WRITE, 7, false, false),
    (ONE_WRITE, 7, true, false),
    (NO_PUT, 7, true, true),
];

/// What P and S hold before a call.
const BEFORE: &str = "as it was";

/// What a file holds: the text if it is stored, and else what it held.
fn kept(text: &[u8], stored: bool) -> Option<&[u8]> {
    Some(if stored { text } else { BEFORE.as_bytes() })
}

/// The call leaves what is wanted, where P holds the program, and S the text from before if it is
/// there.
fn leaves(
    alloc: Global,
    line: &str,
    program: &str,
    script: Option<&str>,
    failures: Failures,
    want: &Left<'_>,
) -> Result<(), Fail> {
    call_with(alloc, line, program.as_bytes(), script, failures)?.left(line, want)
}

/// One row, where `whole` is the call in which nothing fails, and `put` what it puts.
fn make_fails<'x>(
    alloc: Global,
    whole: &'x CallResult,
    put: &'x str,
    row: &(Failures, u8, bool, bool),
) -> Result<(), Fail> {
    let (failures, status, program, script) = *row;
    let want = Left {
        status,
        put: if status == 0 { put } else { "" },
        program: kept(text_of(&whole.program), program),
        script: kept(text_of(&whole.script), script),
        image: None,
        migrated: None,
    };
    leaves(alloc, "make 7 2 P S", BEFORE, Some(BEFORE), failures, &want)
}

fn make_fails_in_turn(alloc: Global, whole: &CallResult) -> Result<(), Fail> {
    let put = str::from_utf8(whole.put.as_slice())?;
    for row in FAILING {
        make_fails(alloc, whole, put, row)?;
    }
    Ok(())
}

#[test]
fn each_device_call_of_make_fails_in_turn(rt: HostRuntime) -> Result<(), Fail> {
    let alloc = rt.alloc();
    let whole = call(alloc, "make 7 2 P S", BEFORE.as_bytes(), Some(BEFORE))?;
    make_fails_in_turn(alloc, &whole)
}

/// The program is stored first: where both words are one, the script stands there.
fn holds_the_script(alloc: Global, apart: &CallResult) -> Result<(), Fail> {
    let want = Left {
        status: 0,
        put: str::from_utf8(apart.put.as_slice())?,
        program: Some(text_of(&apart.script)),
        script: Some(BEFORE.as_bytes()),
        image: None,
        migrated: None,
    };
    leaves(alloc, "make 7 2 P P", "", Some(BEFORE), NO_FAILURES, &want)
}

#[test]
fn one_file_holds_the_script(rt: HostRuntime) -> Result<(), Fail> {
    let alloc = rt.alloc();
    let apart = call(alloc, "make 7 2 P S", b"", None)?;
    holds_the_script(alloc, &apart)
}

/// Words that are no load: a number of processes outside 1 to 64, a key of more than 64 bits, a zero
/// in front, a word too few or too many.
const NO_LOADS: &[&str] = &[
    "make 7 0 P S",
    "make 7 65 P S",
    "make 18446744073709551616 2 P S",
    "make 07 2 P S",
    "make 7 02 P S",
    "make 7 2 P",
    "make 7 2 P S T",
    "make 7 2 P -S",
];

fn make_nothing(alloc: Global, words: &[&str]) -> Result<(), Fail> {
    let want = Left {
        status: 1,
        put: "usage\n",
        program: Some(BEFORE.as_bytes()),
        script: None,
        image: None,
        migrated: None,
    };
    for line in words {
        leaves(alloc, line, BEFORE, None, NO_FAILURES, &want)?;
    }
    Ok(())
}

#[test]
fn other_words_make_nothing(rt: HostRuntime) -> Result<(), Fail> {
    make_nothing(rt.alloc(), NO_LOADS)
}
