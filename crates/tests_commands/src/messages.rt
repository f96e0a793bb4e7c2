//! Messages for a person.

use std::alloc::Global;
use std::test::Fail;
use tests_calls::{Failures, NO_FAILURES, VALVE, status_untold, told};

/// The failure of the first write.
const WRITE: Failures = Failures {
    read: 0,
    write: 1,
    put: 0,
};

/// The failure of the first put.
const PUT: Failures = Failures {
    read: 0,
    write: 0,
    put: 1,
};

/// The words of a call, the files that are given, what fails, and what is told.
struct Row {
    line: &'static str,
    given: &'static [(&'static str, &'static str)],
    failures: Failures,
    told: &'static str,
}

const MESSAGES: &[Row] = &[
    Row {
        line: "check P",
        given: &[("P", VALVE)],
        failures: NO_FAILURES,
        told: "",
    },
    Row {
        line: "check P 2000",
        given: &[("P", VALVE)],
        failures: NO_FAILURES,
        told: "rte: wrong words for `check`
  rte check P [K]     check P and put its report
K: overhead in ticks, 0 to 1000; 0 where it is not given
",
    },
    Row {
        line: "run I -S",
        given: &[],
        failures: NO_FAILURES,
        told: "rte: no word is empty or begins with `-`: `-S`
  rte run I S         put the log of image I over script S
",
    },
    Row {
        line: "check nofile",
        given: &[("P", VALVE)],
        failures: NO_FAILURES,
        told: "rte: cannot read nofile\n",
    },
    Row {
        line: "compile P I",
        given: &[("P", VALVE)],
        failures: WRITE,
        told: "rte: cannot write I\n",
    },
    Row {
        line: "check P",
        given: &[("P", VALVE)],
        failures: PUT,
        told: "rte: cannot put to standard output\n",
    },
    Row {
        line: "check P",
        given: &[(
            "P",
            "program a\ndevice d : out\nprocess p : periodic frame 100\nvar x : int\nbegin\nx = 1\nend p\nend a\n",
        )],
        failures: NO_FAILURES,
        told: "P:6:3: E10: unexpected `=`
      6 | x = 1
        |   ^
        = after `x` expected `:=`, `.`, `(` or `[`
        = `:=` assigns, `=` compares
",
    },
    Row {
        line: "check P",
        given: &[(
            "P",
            "program a\ndevice d : out\nprocess p : periodic frame 100\nvar x : int\nbegin\nx := (7 % 3)\nend p\nend a\n",
        )],
        failures: NO_FAILURES,
        told: "P:7:1: E10: unexpected `end`
      7 | end p
        | ^^^
        = after `7` expected an operator, a comparison or `)`
      6 | x := (7 % 3)
        |       ^
        = still open, up to `)`:
      6 | x := (7 % 3)
        |      ^
        = `%` made the rest of line 6 a comment; the remainder is `mod`
",
    },
    Row {
        line: "json P 1",
        given: &[("P", VALVE)],
        failures: NO_FAILURES,
        told: "P: untimely: the process `p` has no bound within its deadline of 15 ticks
rte: `rte why P 1` takes the bounds apart; `rte fit P 1` tells what would fit
",
    },
    Row {
        line: "edf P S",
        given: &[
            (
                "P",
                "program e device a : out process p : periodic frame 30 begin put a 1 end p process q : periodic frame 52 deadline 40 begin put a 2 put a 3 end q end e",
            ),
            ("S", "end 60\n"),
        ],
        failures: NO_FAILURES,
        told: "P: late: within 40 ticks the processes may need 41 ticks\n",
    },
    Row {
        line: "go P I S",
        given: &[
            (
                "P",
                "program a device s : in event e process p : atEvent e frame 15 begin end p end a",
            ),
            ("S", "0 event e\n1 set s 2\n14 event e\nend 30\n"),
        ],
        failures: NO_FAILURES,
        told: "S:3:1: S4: `e` comes 14 ticks after line 1; its frame is 15 ticks
      3 | 14 event e
        | ^^
      1 | 0 event e
        = an event keeps the frame of its process
",
    },
    Row {
        line: "dis I A",
        given: &[("I", "RTEU\u{0}\u{2}")],
        failures: NO_FAILURES,
        told: "I: I2: at byte 6: the bytes end inside a field\n",
    },
    Row {
        line: "replay P S L",
        given: &[
            ("P", VALVE),
            ("S", "end 15\n"),
            ("L", "0 p release\n10 p put vent 7\n"),
        ],
        failures: NO_FAILURES,
        told: "L:2:1: L1: this line is the text of no event of the program
      2 | 10 p put vent 7
        = the form is `T P put D V`, with names of the program
",
    },
    Row {
        line: "table F P",
        given: &[("F", "table a\nprocess p frame 2.5 cost 1\nend\n")],
        failures: NO_FAILURES,
        told: "F:2:17: T1: `2.5` is no whole number
      2 | process p frame 2.5 cost 1
        |                 ^^^
        = numbers are whole ticks; multiply all numbers of the table by the same number
",
    },
];

/// Texts of images with a wrong operand: in a routine, and below 0 in a process.
const OPERANDS: &[Row] = &[
    Row {
        line: "asm A I",
        given: &[(
            "A",
            "image a overhead 0
routine program params 0 locals 0 result 0 start 0 run 4 suspend 0 waits 0
tree
process p periodic frame 10 deadline 10 first 0 rank 1 run 4 suspend 0 waits 0 block 0 bound 4 data 0 stack 0 locals 0 start 2
tree
LDL 3
RET
END
end
",
        )],
        failures: NO_FAILURES,
        told: "A: V6: routine 0 of the program: the instruction at address 0: the operand 3 is not allowed\n",
    },
    Row {
        line: "asm A I",
        given: &[(
            "A",
            "image a overhead 0
process p periodic frame 10 deadline 10 first 0 rank 1 run 4 suspend 0 waits 0 block 0 bound 4 data 0 stack 0 locals 0 start 0
tree
LDG -1
END
end
",
        )],
        failures: NO_FAILURES,
        told: "A: V6: process `p`: the instruction at address 0: the operand -1 is not allowed\n",
    },
];

/// Just this is told.
pub(crate) fn is_told(line: &str, message: &str, want: &str) -> Result<(), Fail> {
    if message == want {
        return Ok(());
    }
    Err(Fail::new(format_args!("{line}: {message}")))
}

fn tells(alloc: Global, row: &Row) -> Result<(), Fail> {
    let message = told(alloc, row.line, row.given, row.failures)?;
    is_told(row.line, message.as_str(), row.told)
}

fn tell(alloc: Global, rows: &[Row]) -> Result<(), Fail> {
    for row in rows {
        tells(alloc, row)?;
    }
    Ok(())
}

#[test]
fn calls_tell_why_they_end(rt: HostRuntime) -> Result<(), Fail> {
    tell(rt.alloc(), MESSAGES)
}

#[test]
fn wrong_operands_have_their_part(rt: HostRuntime) -> Result<(), Fail> {
    tell(rt.alloc(), OPERANDS)
}

#[test]
fn unknown_commands_have_a_nearest(rt: HostRuntime) -> Result<(), Fail> {
    let message = told(rt.alloc(), "chek P", &[("P", VALVE)], NO_FAILURES)?;
    let first = message.as_str().lines().next().unwrap_or("");
    is_told(
        "chek P",
        first,
        "rte: `chek` is no command; the nearest is `check`",
    )
}

/// Calls where P holds no program, and their status.
const UNTOLD: &[(&str, u8)] = &[("check P", 2), ("check nofile", 6)];

#[test]
fn a_message_that_fails_changes_nothing(rt: HostRuntime) -> Result<(), Fail> {
    let alloc = rt.alloc();
    for &(line, want) in UNTOLD {
        let status = status_untold(alloc, line, &[("P", "x")])?;
        if status != want {
            return Err(Fail::new(format_args!("{line}: status {status}")));
        }
    }
    Ok(())
}
