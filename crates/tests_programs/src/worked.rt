//! Worked programs through the whole command: reports, logs and bounds that were found by hand.

use std::alloc::Global;
use std::test::Fail;
use tests_calls::{
    CallResult, Expected, GoCase, MINE, MINE_LOG, MINE_REPORT, Put, answers, call, lines,
    mine_cases, put_of, several_cases, single_cases, slack_cases,
};

/// What is put behind the report of a timely program.
fn behind_report(put: &str) -> &str {
    match put.split_once("\ntimely\n") {
        Some((_, log)) => log,
        None => put,
    }
}

/// The text is these lines, parted by bars.
fn is_lines(alloc: Global, row: &GoCase, text: &str, bars: &str) -> Result<(), Fail> {
    let want = lines(alloc, bars)?;
    if text == want.as_str() {
        return Ok(());
    }
    Err(Fail::new(format_args!("{}: {text}", row.program)))
}

/// The call came to what the row says.
fn came_to(alloc: Global, row: &GoCase, made: &CallResult) -> Result<(), Fail> {
    if made.status != row.status {
        return Err(Fail::new(format_args!("{}: status {}", row.program, made.status)));
    }
    let text = str::from_utf8(made.put.as_slice())?;
    match row.put {
        Put::All(bars) | Put::Report(bars) => is_lines(alloc, row, text, bars),
        Put::Log(bars) => is_lines(alloc, row, behind_report(text), bars),
    }
}

fn comes_to(alloc: Global, row: &GoCase) -> Result<(), Fail> {
    let script = lines(alloc, row.script)?;
    let made = call(
        alloc,
        row.line,
        row.program.as_bytes(),
        Some(script.as_str()),
    )?;
    came_to(alloc, row, &made)
}

fn come_to(alloc: Global, rows: &[GoCase]) -> Result<(), Fail> {
    for row in rows {
        comes_to(alloc, row)?;
    }
    Ok(())
}

#[test]
fn worked_programs(rt: HostRuntime) -> Result<(), Fail> {
    let alloc = rt.alloc();
    come_to(alloc, several_cases())?;
    come_to(alloc, single_cases())?;
    come_to(alloc, slack_cases())?;
    come_to(alloc, mine_cases())
}

/// What stands behind these lines, parted by bars, with which the bytes begin.
fn behind_lines<'a>(alloc: Global, put: &'a [u8], bars: &str) -> Result<&'a [u8], Fail> {
    let first = lines(alloc, bars)?;
    Ok(put.strip_prefix(first.as_bytes()).ok_or("other lines")?)
}

/// The bytes begin with the report of the mine and its log.
fn is_mine(alloc: Global, put: &[u8]) -> Result<(), Fail> {
    let log = behind_lines(alloc, put, MINE_REPORT)?;
    behind_lines(alloc, log, MINE_LOG)?;
    Ok(())
}

#[test]
fn the_mine_goes_on(rt: HostRuntime) -> Result<(), Fail> {
    let alloc = rt.alloc();
    let script = "0 set methane 40\n0 set air 50\nend 1000000\n";
    let put = put_of(alloc, "go P I S", MINE.as_bytes(), Some(script))?;
    is_mine(alloc, put.as_slice())
}

/// So many puts, in a program whose frame is long.
fn many_puts(alloc: Global, puts: u64) -> Result<String, Fail> {
    let mut body = String::new(alloc);
    for _ in 0..puts {
        body.push_str(" put valve 1")?;
    }
    Ok(format!(in alloc;
        "program a device valve : out process p : periodic frame 1000000 begin{body} end p end a"
    )?)
}

/// How many puts a program has, the status of `check`, and what is put.
const LONG: &[(u64, u8, &str)] = &[
    (
        32_767,
        0,
        "program a\nprocess p frame 1000000 rank 1 cost 360441 suspend 0 waits 0 block 0 bound 360441 data 0 stack 1\ncode 65535\ntimely\n",
    ),
    (32_768, 2, "E46 1:9\n"),
];

fn puts_answer(alloc: Global, puts: u64, status: u8, put: &str) -> Result<(), Fail> {
    let program = many_puts(alloc, puts)?;
    let want = Expected {
        status,
        put,
        puts: None,
    };
    answers(alloc, "check P", program.as_bytes(), None, want)
}

#[test]
fn as_long_as_may_be(rt: HostRuntime) -> Result<(), Fail> {
    let alloc = rt.alloc();
    for &(puts, status, put) in LONG {
        puts_answer(alloc, puts, status, put)?;
    }
    Ok(())
}
