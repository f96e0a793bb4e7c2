//! Logs, replayed.

use std::alloc::Global;
use std::test::Fail;
use tests_calls::{
    Expected, GoCase, NO_FAILURES, VALVE, call_beside, call_on_image, image_of, lines, mine_cases,
    several_cases, single_cases,
};

/// A script and a log of the program that opens a valve, and what is answered and put.
struct Recorded {
    script: &'static str,
    log: &'static str,
    status: u8,
    put: &'static str,
}

const RECORDED: &[Recorded] = &[
    Recorded {
        script: "end 15\n",
        log: "0 p release\n10 p put valve 7\n14 p end\n",
        status: 0,
        put: "run 3\n",
    },
    Recorded {
        script: "end 15\n",
        log: "0 p release\n5 p put valve 7\n14 p end\n",
        status: 0,
        put: "run 3\n",
    },
    Recorded {
        script: "end 15\n",
        log: "0 p release\n10 p put valve 8\n14 p end\n",
        status: 9,
        put: "L3 2\n",
    },
    Recorded {
        script: "end 15\n",
        log: "0 p release\n5 p end\n",
        status: 9,
        put: "L3 2\n",
    },
    Recorded {
        script: "end 15\n",
        log: "0 p release\n0 p release\n",
        status: 9,
        put: "L3 2\n",
    },
    Recorded {
        script: "end 15\n",
        log: "",
        status: 9,
        put: "L3 1\n",
    },
    Recorded {
        script: "end 0\n",
        log: "",
        status: 0,
        put: "run 0\n",
    },
    Recorded {
        script: "end 15\n",
        log: "0 p release\n10 p put valve 8\n14 p ends\n",
        status: 9,
        put: "L1 3\n",
    },
    Recorded {
        script: "end 15\n",
        log: "0 p release\n10 p put vent 7\n",
        status: 9,
        put: "L1 2\n",
    },
    Recorded {
        script: "end 15\n",
        log: "0 p release\n10 p put valve 7\n14 p end",
        status: 9,
        put: "L1 3\n",
    },
    Recorded {
        script: "end 015\n",
        log: "",
        status: 5,
        put: "S1 1\n",
    },
];

/// `replay P S L` has this answer, where L holds the log.
fn is_judged(
    alloc: Global,
    program: &str,
    script: &str,
    log: &[u8],
    want: Expected<'_>,
) -> Result<(), Fail> {
    let line = "replay P S L";
    call_beside(alloc, line, program, script, "L", log, NO_FAILURES)?.answered(alloc, line, want)
}

fn are_judged(alloc: Global, rows: &[Recorded]) -> Result<(), Fail> {
    for row in rows {
        let want = Expected {
            status: row.status,
            put: row.put,
            puts: Some(1),
        };
        is_judged(alloc, VALVE, row.script, row.log.as_bytes(), want)?;
    }
    Ok(())
}

#[test]
fn logs_are_judged(rt: HostRuntime) -> Result<(), Fail> {
    are_judged(rt.alloc(), RECORDED)
}

/// The number of lines of a text.
fn count(text: &[u8]) -> u64 {
    let mut lines: u64 = 0;
    for byte in text {
        if *byte == b'\n' {
            lines = lines.wrapping_add(1);
        }
    }
    lines
}

/// The log is that of a run, with as many events as it has lines.
fn is_run(alloc: Global, program: &str, script: &str, log: &[u8]) -> Result<(), Fail> {
    let put = format!(in alloc; "run {}\n", count(log))?;
    let want = Expected {
        status: 0,
        put: put.as_str(),
        puts: None,
    };
    is_judged(alloc, program, script, log, want)
}

/// The log of the program's image is that of a run.
fn image_has_run(alloc: Global, program: &str, script: &str, image: &[u8]) -> Result<(), Fail> {
    let run = call_on_image(alloc, "run I S", image, script)?;
    is_run(alloc, program, script, run.put.as_slice())
}

/// The log of a worked program over its script is that of a run.
fn has_run(alloc: Global, row: &GoCase) -> Result<(), Fail> {
    let script = lines(alloc, row.script)?;
    let script = script.as_str();
    let image = image_of(alloc, row.line, row.program.as_bytes(), Some(script))?;
    image_has_run(alloc, row.program, script, image.as_slice())
}

/// The log of each worked program that is timely is that of a run.
fn have_runs(alloc: Global, rows: &[GoCase]) -> Result<(), Fail> {
    for row in rows {
        if row.status == 0 && row.line.starts_with("go") {
            has_run(alloc, row)?;
        }
    }
    Ok(())
}

#[test]
fn logs_of_runs_are_runs(rt: HostRuntime) -> Result<(), Fail> {
    let alloc = rt.alloc();
    have_runs(alloc, several_cases())?;
    have_runs(alloc, single_cases())?;
    have_runs(alloc, mine_cases())
}
