//! Programs under earliest deadline first: reports and logs that were found by hand.

use std::alloc::Global;
use std::test::Fail;
use tests_calls::{Expected, Failures, NO_FAILURES, answers, answers_with};

/// Two processes that meet their deadlines by this dispatch, and not by ranks.
const TWO: &str =
    "program e device a : out process p : periodic frame 30 begin put a 1 end p process q : periodic frame 52 begin put a 2 put a 3 end q end e";

const TWO_REPORT: &str =
    "program e\nprocess p frame 30 deadline 30 cost 15 data 0 stack 1\nprocess q frame 52 deadline 52 cost 26 data 0 stack 1\ncode 8\npoints 41\nfeasible\n";

/// A call of P and S, with its program, its script, its status, and its lines.
struct Row {
    line: &'static str,
    program: &'static str,
    script: &'static str,
    status: u8,
    put: &'static str,
}

const ROWS: &[Row] = &[
    Row {
        line: "edf P S",
        program: TWO,
        script: "end 60\n",
        status: 0,
        put: "program e\nprocess p frame 30 deadline 30 cost 15 data 0 stack 1\nprocess q frame 52 deadline 52 cost 26 data 0 stack 1\ncode 8\npoints 41\nfeasible\n0 p release\n0 q release\n10 p put a 1\n14 p end\n25 q put a 2\n30 p release\n36 q put a 3\n40 q end\n51 p put a 1\n52 q release\n55 p end\n",
    },
    Row {
        line: "go P I S",
        program: TWO,
        script: "end 60\n",
        status: 3,
        put: "program e\nprocess p frame 30 rank 1 cost 15 suspend 0 waits 0 block 0 bound 15 data 0 stack 1\nprocess q frame 52 rank 2 cost 26 suspend 0 waits 0 block 0 bound none data 0 stack 1\ncode 8\nuntimely q\n",
    },
    Row {
        line: "edf P S",
        program: "program e device a : out process p : periodic frame 30 begin put a 1 end p process q : periodic frame 52 deadline 40 begin put a 2 put a 3 end q end e",
        script: "end 60\n",
        status: 3,
        put: "program e\nprocess p frame 30 deadline 30 cost 15 data 0 stack 1\nprocess q frame 52 deadline 40 cost 26 data 0 stack 1\ncode 8\npoints 41\nlate 40 demand 41\n",
    },
    Row {
        line: "edf P S",
        program: "program e device a : out process p : periodic frame 30 begin put a 1 end p process q : periodic frame 51 begin put a 2 put a 3 end q end e",
        script: "end 60\n",
        status: 3,
        put: "program e\nprocess p frame 30 deadline 30 cost 15 data 0 stack 1\nprocess q frame 51 deadline 51 cost 26 data 0 stack 1\ncode 8\npoints over\ntoo many\n",
    },
    Row {
        line: "edf P S",
        program: "program d device a : out monitor m condition c entry procedure w() begin wait c noLongerThan 30 : 10 end w entry procedure s() begin signal c end s end m process p : periodic frame 200 begin m.w() handler (10) put a 1 end p process q : periodic frame 300 first activation atTime 31 begin m.s() end q end d",
        script: "end 100\n",
        status: 2,
        put: "E48 1:74\n",
    },
    Row {
        line: "edf P S",
        program: "program c device a : out monitor m var n : int entry procedure e() begin n := n + 1 end e end m process l : periodic frame 200 begin m.e() end l process u : periodic frame 100 first activation atTime 12 begin m.e() end u process h : periodic frame 90 first activation atTime 14 begin put a 1 end h end c",
        script: "end 90\n",
        status: 0,
        put: "program c\nprocess l frame 200 deadline 200 cost 31 data 0 stack 4\nprocess u frame 100 deadline 100 cost 31 data 0 stack 4\nprocess h frame 90 deadline 90 cost 15 data 0 stack 1\ncode 14\npoints 0\nfeasible\n0 l release\n10 l enter m\n12 u release\n14 h release\n24 h put a 1\n28 h end\n37 l leave m\n48 u enter m\n60 u leave m\n68 u end\n76 l end\n",
    },
    Row {
        line: "edf P S",
        program: TWO,
        script: "end 060\n",
        status: 5,
        put: "S1 1\n",
    },
    Row {
        line: "edf P S",
        program: "program",
        script: "end 60\n",
        status: 2,
        put: "E10 1:8\n",
    },
];

fn answer_so(alloc: Global, rows: &[Row]) -> Result<(), Fail> {
    for row in rows {
        let want = Expected {
            status: row.status,
            put: row.put,
            puts: None,
        };
        answers(
            alloc,
            row.line,
            row.program.as_bytes(),
            Some(row.script),
            want,
        )?;
    }
    Ok(())
}

#[test]
fn earliest_deadlines(rt: HostRuntime) -> Result<(), Fail> {
    answer_so(rt.alloc(), ROWS)
}

const FIRST_READ: Failures = Failures {
    read: 1,
    ..NO_FAILURES
};

const SECOND_READ: Failures = Failures {
    read: 2,
    ..NO_FAILURES
};

const FIRST_PUT: Failures = Failures {
    put: 1,
    ..NO_FAILURES
};

const SECOND_PUT: Failures = Failures {
    put: 2,
    ..NO_FAILURES
};

/// Device calls that fail, the status, and what is put.
const FAILED: &[(Failures, u8, &str)] = &[
    (FIRST_READ, 6, ""),
    (SECOND_READ, 6, ""),
    (FIRST_PUT, 7, ""),
    (SECOND_PUT, 7, TWO_REPORT),
];

#[test]
fn devices_fail_by_deadlines(rt: HostRuntime) -> Result<(), Fail> {
    let alloc = rt.alloc();
    let program = TWO.as_bytes();
    for &(failures, status, put) in FAILED {
        let want = Expected {
            status,
            put,
            puts: None,
        };
        answers_with(alloc, "edf P S", program, Some("end 60\n"), failures, want)?;
    }
    Ok(())
}
