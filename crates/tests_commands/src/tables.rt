//! Task tables.

use std::alloc::Global;
use std::test::Fail;
use tests_calls::{CallResult, Expected, Left, answers, call};

/// Three tasks, one of which an event releases.
const SET: &str =
    "table set\nprocess t1 frame 1000 deadline 900 cost 400 stay m 100\nprocess t2 event alarm frame 2000 cost 7\nprocess t3 frame 5000 deadline 4000 first 3 cost 1153 stay m 12 stay k 3\nend\n";

const SET_PROGRAM: &str =
    "program set\nevent alarm\nmonitor m\nentry procedure stay100 ( )\nvar x : int\nbegin\nfor i : 1 .. 8 do\nend for\nx := 0\nx := 0\nx := 0\nx := 0\nend stay100\nentry procedure stay12 ( )\nvar x : int\nbegin\nx := 0\nx := 0\nx := 0\nend stay12\nend m\nmonitor k\nentry procedure stay3 ( )\nvar x : int\nbegin\nend stay3\nend k\nprocess t1 : periodic frame 1000 deadline 900\nvar x : int\nbegin\nm . stay100 ( )\nfor i : 1 .. 27 do\nend for\nx := 0\nx := 0\nend t1\nprocess t2 : atEvent alarm frame 2000\nvar x : int\nbegin\nx := 0\nend t2\nprocess t3 : periodic frame 5000 deadline 4000 first activation atTime 3\nvar x : int\nbegin\nm . stay12 ( )\nk . stay3 ( )\nfor i : 1 .. 109 do\nend for\nx := 0\nx := 0\nx := 0\nend t3\nend set\n";

const SET_REPORT: &str =
    "program set\nprocess t1 frame 1000 deadline 900 rank 1 cost 400 suspend 0 waits 0 block 12 bound 412 data 1 stack 8\nprocess t2 frame 2000 rank 2 cost 7 suspend 0 waits 0 block 12 bound 419 data 1 stack 1\nprocess t3 frame 5000 deadline 4000 rank 3 cost 1153 suspend 0 waits 0 block 0 bound 1960 data 1 stack 5\nmonitor m ceiling 1 words 0\nmonitor k ceiling 3 words 0\ncode 65\ntimely\n";

/// The greatest cost; names of the table stand in the way of two tails.
const GREATEST: &str =
    "table x\nprocess i frame 1000000000 cost 1000000000\nprocess x_1 frame 10 deadline 10 cost 4\nend\n";

const GREATEST_PROGRAM: &str =
    "program x\nprocess i : periodic frame 1000000000\nvar x_2 : int\nbegin\nfor i_2 : 1 .. 99850 do\nfor j_2 : 1 .. 1000 do\nend for\nend for\nfor i_2 : 1 .. 223 do\nend for\nx_2 := 0\nx_2 := 0\nend i\nprocess x_1 : periodic frame 10 deadline 10\nvar x_2 : int\nbegin\nend x_1\nend x\n";

/// A cost that is just what the stay takes.
const STAY: &str = "table a\nprocess p frame 100 cost 50 stay m 31\nend\n";

const STAY_PROGRAM: &str =
    "program a\nmonitor m\nentry procedure stay31 ( )\nvar x : int\nbegin\nfor i : 1 .. 2 do\nend for\nx := 0\nend stay31\nend m\nprocess p : periodic frame 100\nvar x : int\nbegin\nm . stay31 ( )\nend p\nend a\n";

/// A text, the status of `table`, what it puts, and what P then holds.
type Row = (&'static str, u8, &'static str, &'static str);

/// Texts that become programs, and texts that have faults.
const ROWS: &[Row] = &[
    (SET, 0, "", SET_PROGRAM),
    (GREATEST, 0, "", GREATEST_PROGRAM),
    (STAY, 0, "", STAY_PROGRAM),
    ("", 2, "T1 1\n", ""),
    ("table a\nend\n", 2, "T6 2\n", ""),
    (
        "table a\nprocess p frame 2.5 cost 1\nend\n",
        2,
        "T1 2\n",
        "",
    ),
    (
        "table a\nprocess p event e frame 20 first 5 cost 4\nend\n",
        2,
        "T1 2\n",
        "",
    ),
    (
        "table a\nprocess m frame 50 cost 4\nprocess p frame 100 cost 50 stay m 20\nend\n",
        2,
        "T3 3\n",
        "",
    ),
    ("table a\nprocess p frame 9 cost 5\nend\n", 2, "T4 2\n", ""),
    ("table a\nprocess p frame 20 cost 6\nend\n", 2, "T5 2\n", ""),
    (
        "table a\nprocess p frame 100 cost 50 stay m 32\nend\n",
        2,
        "T5 2\n",
        "",
    ),
    (
        "table a\nprocess p frame 10 cost 4\nend\nend\n",
        2,
        "T1 4\n",
        "",
    ),
    (
        "table end\nprocess p frame 10 cost 4\nend\n",
        2,
        "T2 1\n",
        "",
    ),
    ("table a\nprocess p frame 10 cost 4\n", 2, "T1 3\n", ""),
    (
        "table a\nprocess p frame 010 cost 4\nend\n",
        2,
        "T1 2\n",
        "",
    ),
    (
        "table a\nprocess p  frame 10 cost 4\nend\n",
        2,
        "T1 2\n",
        "",
    ),
];

/// `table` of the text in S comes to what the row says, where P is empty.
fn becomes(alloc: Global, row: &Row) -> Result<(), Fail> {
    let (text, status, put, program) = *row;
    let want = Left {
        status,
        put,
        program: Some(program.as_bytes()),
        script: Some(text.as_bytes()),
        image: None,
        migrated: None,
    };
    call(alloc, "table S P", b"", Some(text))?.left(text, &want)
}

fn rows_become(alloc: Global, rows: &[Row]) -> Result<(), Fail> {
    for row in rows {
        becomes(alloc, row)?;
    }
    Ok(())
}

#[test]
fn tables_become_programs_or_have_faults(rt: HostRuntime) -> Result<(), Fail> {
    rows_become(rt.alloc(), ROWS)
}

#[test]
fn the_program_has_the_numbers_of_the_table(rt: HostRuntime) -> Result<(), Fail> {
    let want = Expected {
        status: 0,
        put: SET_REPORT,
        puts: Some(1),
    };
    answers(rt.alloc(), "check P", SET_PROGRAM.as_bytes(), None, want)
}

/// What a report says of the greatest cost and of the process that ranks above it.
const GREATEST_SAYS: &[&str] = &[
    "process i frame 1000000000 rank 2 cost 1000000000 suspend 0 waits 0 block 0 bound none data 1",
    "process x_1 frame 10 rank 1 cost 4 suspend 0 waits 0 block 0 bound 4 data 1",
    "untimely i",
];

/// The call has the status of programs that are late, and its report says these words.
fn reports(found: &CallResult, says: &[&str]) -> Result<(), Fail> {
    let put = str::from_utf8(found.put.as_slice())?;
    for words in says {
        if found.status != 3 || !put.contains(words) {
            return Err(Fail::new(format_args!("no `{words}`: {put}")));
        }
    }
    Ok(())
}

#[test]
fn the_greatest_cost_is_told(rt: HostRuntime) -> Result<(), Fail> {
    let found = call(rt.alloc(), "check P", GREATEST_PROGRAM.as_bytes(), None)?;
    reports(&found, GREATEST_SAYS)
}
