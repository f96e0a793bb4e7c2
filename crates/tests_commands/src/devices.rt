//! Reads, writes and puts that fail, each in turn, and words that name one file.

use crate::valve::{
    JSON, LATE, LATE_REPORT, LOG, ONE_LINE, PRINTED, REPORT, TWO_LINES, UP_TO_ONE, UP_TO_TWO, WHOLE,
};
use std::alloc::Global;
use std::test::Fail;
use tests_calls::{
    Failures, Left, NO_FAILURES, VALVE, VALVE_FIRST, VALVE_SECOND, call_beside, call_on_image,
};

const SCRIPT: &str = "end 15\n";

/// The call of a device that fails, by its number from 1.
#[derive(Clone, Copy)]
enum Device {
    Never,
    Read(u64),
    Write(u64),
    Put(u64),
}

fn failures_of(device: Device) -> Failures {
    match device {
        Device::Never => NO_FAILURES,
        Device::Read(read) => Failures {
            read,
            ..NO_FAILURES
        },
        Device::Write(write) => Failures {
            write,
            ..NO_FAILURES
        },
        Device::Put(put) => Failures { put, ..NO_FAILURES },
    }
}

/// The file in which the image of the second version is stored.
#[derive(Clone, Copy)]
enum Stored {
    Nowhere,
    P,
    S,
    I,
    J,
}

/// What is left where nothing else is stored than this image.
fn left_behind<'x>(before: Left<'x>, place: Stored, image: &'x [u8]) -> Left<'x> {
    let image = Some(image);
    match place {
        Stored::Nowhere => before,
        Stored::P => Left {
            program: image,
            ..before
        },
        Stored::S => Left {
            script: image,
            ..before
        },
        Stored::I => Left { image, ..before },
        Stored::J => Left {
            migrated: image,
            ..before
        },
    }
}

/// The words of a call, the texts in P and S, and what fails.
#[derive(Clone, Copy)]
struct Given<'x> {
    line: &'x str,
    program: &'x str,
    script: &'x str,
    device: Device,
}

/// The call comes to what is wanted, where the file of this name holds the bytes.
fn leaves(
    alloc: Global,
    given: &Given<'_>,
    name: &str,
    bytes: &[u8],
    want: &Left<'_>,
) -> Result<(), Fail> {
    let Given {
        line,
        program,
        script,
        device,
    } = *given;
    let failures = failures_of(device);
    call_beside(alloc, line, program, script, name, bytes, failures)?.left(line, want)
}

/// A call, what fails, the status, what is put, and where the image of the second version is
/// stored.
type Row = (&'static str, Device, u8, &'static str, Stored);

/// P holds the program, S the script and K the image of the first version; I and J are missing.
const CALLS: &[Row] = &[
    ("go P I S", Device::Never, 0, WHOLE, Stored::I),
    ("go P I S", Device::Read(1), 6, "", Stored::Nowhere),
    ("go P I S", Device::Read(2), 6, "", Stored::Nowhere),
    ("go P I S", Device::Read(3), 0, WHOLE, Stored::I),
    ("go P I S", Device::Write(1), 7, "", Stored::Nowhere),
    ("go P I S", Device::Write(2), 0, WHOLE, Stored::I),
    ("go P I S", Device::Put(1), 7, "", Stored::I),
    ("go P I S", Device::Put(2), 7, REPORT, Stored::I),
    ("go P I S", Device::Put(3), 7, UP_TO_ONE, Stored::I),
    ("go P I S", Device::Put(4), 7, UP_TO_TWO, Stored::I),
    ("go P I S", Device::Put(5), 0, WHOLE, Stored::I),
    ("compile P I", Device::Read(1), 6, "", Stored::Nowhere),
    ("compile P I", Device::Read(2), 0, REPORT, Stored::I),
    ("compile P I", Device::Write(1), 7, "", Stored::Nowhere),
    ("compile P I", Device::Write(2), 0, REPORT, Stored::I),
    ("compile P I", Device::Put(1), 7, "", Stored::I),
    ("compile P I", Device::Put(2), 0, REPORT, Stored::I),
    ("check P", Device::Read(1), 6, "", Stored::Nowhere),
    ("check P", Device::Read(2), 0, REPORT, Stored::Nowhere),
    ("check P", Device::Write(1), 0, REPORT, Stored::Nowhere),
    ("check P", Device::Put(1), 7, "", Stored::Nowhere),
    ("check P", Device::Put(2), 0, REPORT, Stored::Nowhere),
    ("json P", Device::Read(1), 6, "", Stored::Nowhere),
    ("json P", Device::Read(2), 0, JSON, Stored::Nowhere),
    ("json P", Device::Write(1), 0, JSON, Stored::Nowhere),
    ("json P", Device::Put(1), 7, "", Stored::Nowhere),
    ("json P", Device::Put(2), 0, JSON, Stored::Nowhere),
    ("print P", Device::Read(1), 6, "", Stored::Nowhere),
    ("print P", Device::Read(2), 0, PRINTED, Stored::Nowhere),
    ("print P", Device::Write(1), 0, PRINTED, Stored::Nowhere),
    ("print P", Device::Put(1), 7, "", Stored::Nowhere),
    ("print P", Device::Put(2), 0, PRINTED, Stored::Nowhere),
    ("run K S", Device::Never, 0, LOG, Stored::Nowhere),
    ("run K S", Device::Read(1), 6, "", Stored::Nowhere),
    ("run K S", Device::Read(2), 6, "", Stored::Nowhere),
    ("run K S", Device::Read(3), 0, LOG, Stored::Nowhere),
    ("run K S", Device::Write(1), 0, LOG, Stored::Nowhere),
    ("run K S", Device::Put(1), 7, "", Stored::Nowhere),
    ("run K S", Device::Put(2), 7, ONE_LINE, Stored::Nowhere),
    ("run K S", Device::Put(3), 7, TWO_LINES, Stored::Nowhere),
    ("run K S", Device::Put(4), 0, LOG, Stored::Nowhere),
    ("migrate K J", Device::Read(1), 6, "", Stored::Nowhere),
    ("migrate K J", Device::Read(2), 0, "", Stored::J),
    ("migrate K J", Device::Write(1), 7, "", Stored::Nowhere),
    ("migrate K J", Device::Write(2), 0, "", Stored::J),
    ("migrate K J", Device::Put(1), 0, "", Stored::J),
];

/// Two words of each call name one file. All is read before anything is written, and what is read
/// is what the files held before: P the program, S the script and I the image of the first version.
const ONE_FILE: &[Row] = &[
    ("go P P S", Device::Never, 0, WHOLE, Stored::P),
    ("go P S S", Device::Never, 0, WHOLE, Stored::S),
    ("go P I P", Device::Never, 5, "S1 1\n", Stored::Nowhere),
    ("go P P P", Device::Never, 5, "S1 1\n", Stored::Nowhere),
    ("go I I S", Device::Never, 2, "E1 1:5\n", Stored::Nowhere),
    ("go S S S", Device::Never, 2, "E10 1:1\n", Stored::Nowhere),
    ("go P P S", Device::Read(2), 6, "", Stored::Nowhere),
    ("go P P S", Device::Write(1), 7, "", Stored::Nowhere),
    ("go P P S", Device::Put(1), 7, "", Stored::P),
    ("go P P S", Device::Put(2), 7, REPORT, Stored::P),
    ("go P S S", Device::Read(2), 6, "", Stored::Nowhere),
    ("go P S S", Device::Write(1), 7, "", Stored::Nowhere),
    ("go P S S", Device::Put(2), 7, REPORT, Stored::S),
    ("compile P P", Device::Never, 0, REPORT, Stored::P),
    ("compile I I", Device::Never, 2, "E1 1:5\n", Stored::Nowhere),
    (
        "compile S S",
        Device::Never,
        2,
        "E10 1:1\n",
        Stored::Nowhere,
    ),
    ("compile P P", Device::Write(1), 7, "", Stored::Nowhere),
    ("compile P P", Device::Put(1), 7, "", Stored::P),
    ("run I I", Device::Never, 5, "S1 1\n", Stored::Nowhere),
    ("run P P", Device::Never, 4, "I1 0\n", Stored::Nowhere),
    ("run S S", Device::Never, 4, "I1 0\n", Stored::Nowhere),
    ("run I I", Device::Read(2), 6, "", Stored::Nowhere),
    ("run I I", Device::Put(1), 7, "", Stored::Nowhere),
    ("migrate I I", Device::Never, 0, "", Stored::I),
    ("migrate P P", Device::Never, 4, "I1 0\n", Stored::Nowhere),
    ("migrate I I", Device::Read(1), 6, "", Stored::Nowhere),
    ("migrate I I", Device::Write(1), 7, "", Stored::Nowhere),
    ("migrate I I", Device::Put(1), 0, "", Stored::I),
];

/// One row, where the file of this name holds the image `first`, and `second` is the one that is
/// due. `held` is that file, if it is one of P, S, I and J.
fn row_leaves<'x>(
    alloc: Global,
    row: &Row,
    name: &str,
    held: Stored,
    first: &'x [u8],
    second: &'x [u8],
) -> Result<(), Fail> {
    let (line, device, status, put, place) = *row;
    let given = Given {
        line,
        program: VALVE,
        script: SCRIPT,
        device,
    };
    let texts = Left {
        status,
        put,
        program: Some(VALVE.as_bytes()),
        script: Some(SCRIPT.as_bytes()),
        image: None,
        migrated: None,
    };
    let want = left_behind(left_behind(texts, held, first), place, second);
    leaves(alloc, &given, name, first, &want)
}

fn rows_leave(
    alloc: Global,
    rows: &[Row],
    name: &str,
    held: Stored,
    first: &[u8],
    second: &[u8],
) -> Result<(), Fail> {
    for row in rows {
        row_leaves(alloc, row, name, held, first, second)?;
    }
    Ok(())
}

/// Each row comes to what it says, where the file of this name holds the image of the first
/// version.
fn come_to_their_ends(alloc: Global, rows: &[Row], name: &str, held: Stored) -> Result<(), Fail> {
    let first = hex::decode(alloc, VALVE_FIRST)?;
    let second = hex::decode(alloc, VALVE_SECOND)?;
    rows_leave(alloc, rows, name, held, first.as_slice(), second.as_slice())
}

#[test]
fn each_device_call_fails_in_turn(rt: HostRuntime) -> Result<(), Fail> {
    come_to_their_ends(rt.alloc(), CALLS, "K", Stored::Nowhere)
}

#[test]
fn two_words_name_one_file(rt: HostRuntime) -> Result<(), Fail> {
    come_to_their_ends(rt.alloc(), ONE_FILE, "I", Stored::I)
}

const FAULTY: &str = "program a ;";

/// A call that is refused, the text in P, that in S, what fails, the status, and what is put.
type Refused = (
    &'static str,
    &'static str,
    &'static str,
    Device,
    u8,
    &'static str,
);

/// What is due is told before a device that would fail later, and a put that fails tells nothing.
const REFUSALS: &[Refused] = &[
    ("go P I S", LATE, SCRIPT, Device::Read(2), 3, LATE_REPORT),
    ("go P I S", LATE, SCRIPT, Device::Write(1), 3, LATE_REPORT),
    ("go P I S", LATE, SCRIPT, Device::Put(1), 7, ""),
    ("go P I S", LATE, SCRIPT, Device::Put(2), 3, LATE_REPORT),
    (
        "compile P I",
        LATE,
        SCRIPT,
        Device::Write(1),
        3,
        LATE_REPORT,
    ),
    ("compile P I", LATE, SCRIPT, Device::Put(1), 7, ""),
    ("check P", LATE, SCRIPT, Device::Put(1), 7, ""),
    ("json P", LATE, SCRIPT, Device::Put(1), 7, ""),
    ("go P I S", FAULTY, SCRIPT, Device::Read(1), 6, ""),
    ("go P I S", FAULTY, SCRIPT, Device::Read(2), 2, "E1 1:11\n"),
    ("go P I S", FAULTY, SCRIPT, Device::Write(1), 2, "E1 1:11\n"),
    ("go P I S", FAULTY, SCRIPT, Device::Put(1), 7, ""),
    ("print P", FAULTY, SCRIPT, Device::Put(1), 7, ""),
    ("go P I S", VALVE, "end 15", Device::Read(2), 6, ""),
    ("go P I S", VALVE, "end 15", Device::Write(1), 5, "S1 1\n"),
    ("go P I S", VALVE, "end 15", Device::Put(1), 7, ""),
    ("run I S", VALVE, "end 15", Device::Read(1), 6, ""),
    ("run I S", VALVE, "end 15", Device::Read(2), 4, "I2 4\n"),
    ("run I S", VALVE, "end 15", Device::Put(1), 7, ""),
    ("migrate I J", VALVE, SCRIPT, Device::Read(1), 6, ""),
    ("migrate I J", VALVE, SCRIPT, Device::Write(1), 4, "I2 4\n"),
    ("migrate I J", VALVE, SCRIPT, Device::Put(1), 7, ""),
    ("go P I", VALVE, SCRIPT, Device::Read(1), 1, "usage\n"),
    ("go P I", VALVE, SCRIPT, Device::Write(1), 1, "usage\n"),
    ("go P I", VALVE, SCRIPT, Device::Put(1), 7, ""),
];

/// I holds the first four bytes of an image, and keeps them.
fn is_refused(alloc: Global, row: &Refused) -> Result<(), Fail> {
    let (line, program, script, device, status, put) = *row;
    let image = b"RTEU".as_slice();
    let want = Left {
        status,
        put,
        program: Some(program.as_bytes()),
        script: Some(script.as_bytes()),
        image: Some(image),
        migrated: None,
    };
    let given = Given {
        line,
        program,
        script,
        device,
    };
    leaves(alloc, &given, "I", image, &want)
}

fn are_refused(alloc: Global, rows: &[Refused]) -> Result<(), Fail> {
    for row in rows {
        is_refused(alloc, row)?;
    }
    Ok(())
}

#[test]
fn refusals_come_before_later_failures(rt: HostRuntime) -> Result<(), Fail> {
    are_refused(rt.alloc(), REFUSALS)
}

/// `migrate` of an image of the second version stores the same image.
fn migrates_to(alloc: Global, line: &str, second: &[u8], place: Stored) -> Result<(), Fail> {
    let before = Left {
        status: 0,
        put: "",
        program: None,
        script: Some(b""),
        image: Some(second),
        migrated: None,
    };
    let want = left_behind(before, place, second);
    call_on_image(alloc, line, second, "")?.left(line, &want)
}

fn migrates_anywhere(alloc: Global, second: &[u8]) -> Result<(), Fail> {
    if second.len() != 142 {
        return Err(Fail::new(format_args!("an image of {} bytes", second.len())));
    }
    migrates_to(alloc, "migrate I I", second, Stored::I)?;
    migrates_to(alloc, "migrate I J", second, Stored::J)
}

#[test]
fn migrates_the_second_version(rt: HostRuntime) -> Result<(), Fail> {
    let alloc = rt.alloc();
    let second = hex::decode(alloc, VALVE_SECOND)?;
    migrates_anywhere(alloc, second.as_slice())
}
