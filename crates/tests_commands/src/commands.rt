//! Worked calls of each command, and a call with each read, write and put failing in turn.

use crate::valve::{JSON, LATE, LATE_REPORT, PRINTED, REPORT, UP_TO_ONE, WHOLE};
use std::alloc::Global;
use std::test::Fail;
use tests_calls::{CallResult, Expected, Failures, NO_FAILURES, VALVE, answers, call_with};

/// The valve with a comment and other blanks, and numbers with leading zeros.
const COMMENTED: &str =
    "program a %x\n device valve:out\tprocess p : periodic\r\nframe 0000000000000015 begin put valve 007 end p end a%y";

/// One process with a deadline: the frame, one within it that is kept, and one that is not.
const TIGHT: &str = "program a process p : periodic frame 10 deadline 10 begin end p end a";

const TIGHT_PRINTED: &str =
    "program a\nprocess p : periodic frame 10 deadline 10\nbegin\nend p\nend a\n";

const TIGHT_REPORT: &str =
    "program a\nprocess p frame 10 rank 1 cost 4 suspend 0 waits 0 block 0 bound 4 data 0 stack 0\ncode 1\ntimely\n";

const SOONER: &str =
    "program a device valve : out process p : periodic frame 20 deadline 15 begin put valve 7 end p end a";

const SOONER_REPORT: &str =
    "program a\nprocess p frame 20 deadline 15 rank 1 cost 15 suspend 0 waits 0 block 0 bound 15 data 0 stack 1\ncode 3\ntimely\n";

/// The report, and the log.
const SOONER_WHOLE: &str =
    "program a\nprocess p frame 20 deadline 15 rank 1 cost 15 suspend 0 waits 0 block 0 bound 15 data 0 stack 1\ncode 3\ntimely\n0 p release\n10 p put valve 7\n14 p end\n";

const TOO_SOON: &str =
    "program a device valve : out process p : periodic frame 20 deadline 14 begin put valve 7 end p end a";

const TOO_SOON_REPORT: &str =
    "program a\nprocess p frame 20 deadline 14 rank 1 cost 15 suspend 0 waits 0 block 0 bound none data 0 stack 1\ncode 3\nuntimely p\n";

const TWO: &str =
    "program b process p : periodic frame 10 begin end p process q : periodic frame 20 begin if true then else end if end q end b";

const LATE_JSON: &str =
    "{\"code\":3,\"monitors\":[],\"processes\":[{\"block\":0,\"bound\":\"none\",\"cost\":17,\"data\":0,\"frame\":15,\"name\":\"p\",\"rank\":1,\"stack\":1,\"suspend\":0,\"waits\":0}],\"program\":\"a\",\"timely\":false}\n";

const TWO_PRINTED: &str =
    "program b\nprocess p : periodic frame 10\nbegin\nend p\nprocess q : periodic frame 20\nbegin\nif true then\nelse\nend if\nend q\nend b\n";

/// The texts in P and S, the status of `go P I S`, what is put, and in how many pieces.
type Go = (&'static str, &'static str, u8, &'static str, u64);

const GOES: &[Go] = &[
    (VALVE, "end 15\n", 0, WHOLE, 4),
    (VALVE, "end 0\n", 0, REPORT, 1),
    (COMMENTED, "end 15\n", 0, WHOLE, 4),
    (SOONER, "end 15\n", 0, SOONER_WHOLE, 4),
    (LATE, "end 15\n", 3, LATE_REPORT, 1),
    (TOO_SOON, "end 15\n", 3, TOO_SOON_REPORT, 1),
    (VALVE, "end 15", 5, "S1 1\n", 1),
];

fn go_so(alloc: Global, rows: &[Go]) -> Result<(), Fail> {
    for &(program, script, status, put, pieces) in rows {
        let want = Expected {
            status,
            put,
            puts: Some(pieces),
        };
        answers(alloc, "go P I S", program.as_bytes(), Some(script), want)?;
    }
    Ok(())
}

#[test]
fn goes_whole(rt: HostRuntime) -> Result<(), Fail> {
    go_so(rt.alloc(), GOES)
}

/// A call, the text in P, the status, and what is put as one piece.
type Call = (&'static str, &'static str, u8, &'static str);

const CALLS: &[Call] = &[
    ("check P", VALVE, 0, REPORT),
    ("check P", LATE, 3, LATE_REPORT),
    ("check P", TIGHT, 0, TIGHT_REPORT),
    ("check P", SOONER, 0, SOONER_REPORT),
    ("check P", TOO_SOON, 3, TOO_SOON_REPORT),
    ("json P", VALVE, 0, JSON),
    ("json P 1", VALVE, 3, LATE_JSON),
    ("check P", "program a ;", 2, "E1 1:11\n"),
    ("print P", VALVE, 0, PRINTED),
    ("print P", PRINTED, 0, PRINTED),
    ("print P", COMMENTED, 0, PRINTED),
    ("print P", TIGHT, 0, TIGHT_PRINTED),
    ("print P", TIGHT_PRINTED, 0, TIGHT_PRINTED),
    ("print P", TWO, 0, TWO_PRINTED),
    ("print P", "", 2, "E10 1:1\n"),
    ("", VALVE, 1, "usage\n"),
    ("go P I", VALVE, 1, "usage\n"),
    ("go -x I S", VALVE, 1, "usage\n"),
    ("go P I S T", VALVE, 1, "usage\n"),
    ("Go P I S", VALVE, 1, "usage\n"),
    ("print", VALVE, 1, "usage\n"),
    ("check -P", VALVE, 1, "usage\n"),
    ("check P 1001", VALVE, 1, "usage\n"),
    ("go P I S 01", VALVE, 1, "usage\n"),
];

fn answer_so(alloc: Global, rows: &[Call]) -> Result<(), Fail> {
    for &(line, program, status, put) in rows {
        let want = Expected {
            status,
            put,
            puts: Some(1),
        };
        answers(alloc, line, program.as_bytes(), Some("end 15\n"), want)?;
    }
    Ok(())
}

#[test]
fn checks_and_prints(rt: HostRuntime) -> Result<(), Fail> {
    answer_so(rt.alloc(), CALLS)
}

/// What fails, the status, what is put, and whether the image is stored.
type Step = (Failures, u8, &'static str, bool);

const FIRST_READ: Failures = Failures {
    read: 1,
    ..NO_FAILURES
};

const SECOND_READ: Failures = Failures {
    read: 2,
    ..NO_FAILURES
};

const FIRST_WRITE: Failures = Failures {
    write: 1,
    ..NO_FAILURES
};

const FIRST_PUT: Failures = Failures {
    put: 1,
    ..NO_FAILURES
};

const SECOND_PUT: Failures = Failures {
    put: 2,
    ..NO_FAILURES
};

const THIRD_PUT: Failures = Failures {
    put: 3,
    ..NO_FAILURES
};

/// What `go` does no more.
const LATER: Failures = Failures {
    read: 3,
    write: 2,
    put: 5,
};

const STEPS: &[Step] = &[
    (FIRST_READ, 6, "", false),
    (SECOND_READ, 6, "", false),
    (FIRST_WRITE, 7, "", false),
    (FIRST_PUT, 7, "", true),
    (SECOND_PUT, 7, REPORT, true),
    (THIRD_PUT, 7, UP_TO_ONE, true),
    (LATER, 0, WHOLE, true),
];

/// The call came to what the step says.
fn came_to(alloc: Global, made: &CallResult, step: &Step) -> Result<(), Fail> {
    let &(_, status, put, stores) = step;
    if made.image.is_some() != stores {
        return Err(Fail::new(format_args!(
            "status {}, wanted {status}: the image is otherwise",
            made.status
        )));
    }
    let want = Expected {
        status,
        put,
        puts: None,
    };
    made.answered(alloc, "go P I S", want)
}

/// `go` of the valve comes to what the step says.
fn stops_at(alloc: Global, step: &Step) -> Result<(), Fail> {
    let made = call_with(
        alloc,
        "go P I S",
        VALVE.as_bytes(),
        Some("end 15\n"),
        step.0,
    )?;
    came_to(alloc, &made, step)
}

fn stop_at(alloc: Global, steps: &[Step]) -> Result<(), Fail> {
    for step in steps {
        stops_at(alloc, step)?;
    }
    Ok(())
}

#[test]
fn fails_at_each_step(rt: HostRuntime) -> Result<(), Fail> {
    stop_at(rt.alloc(), STEPS)
}

#[test]
fn fails_where_no_script_is(rt: HostRuntime) -> Result<(), Fail> {
    let missing = Expected {
        status: 6,
        put: "",
        puts: Some(0),
    };
    answers(rt.alloc(), "go P I S", VALVE.as_bytes(), None, missing)
}

/// A byte, how many of it are a text, and what `print` answers to that: a text has at most
/// 1,048,576 bytes.
const FILLED: &[(u8, usize, &str)] = &[
    (b'(', 1_048_576, "E10 1:1\n"),
    (b' ', 1_048_576, "E10 1:1048577\n"),
    (b' ', 1_048_577, "E4 1:1\n"),
];

/// What `print` answers to a text that is so many times this byte, put as one piece.
fn is_refused(alloc: Global, byte: u8, times: usize, put: &str) -> Result<(), Fail> {
    let text = vec![in alloc; byte; times]?;
    let want = Expected {
        status: 2,
        put,
        puts: Some(1),
    };
    answers(alloc, "print P", text.as_slice(), None, want)
}

#[test]
fn refuses_a_byte_too_many(rt: HostRuntime) -> Result<(), Fail> {
    for &(byte, times, put) in FILLED {
        is_refused(rt.alloc(), byte, times, put)?;
    }
    Ok(())
}
