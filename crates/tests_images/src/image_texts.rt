//! Images as text.

use std::alloc::Global;
use std::test::Fail;
use tests_calls::{
    CallResult, Failures, GoCase, IDLE_SECOND, Left, VALVE_SECOND, call, call_beside,
    call_on_image, image_of, lines, mine_cases, several_cases, single_cases, with_byte,
};

const SCRIPT: &str = "end 15\n";

/// The text of the smallest image.
const IDLE_TEXT: &str =
    "image a overhead 0\nprocess p periodic frame 10 deadline 10 first 0 rank 1 run 4 suspend 0 waits 0 block 0 bound 4 data 0 stack 0 locals 0 start 0\ntree\nEND\nend\n";

/// The text of the image that opens a valve.
const VALVE_TEXT: &str =
    "image a overhead 0\ndevice valve out\nprocess p periodic frame 15 deadline 15 first 0 rank 1 run 15 suspend 0 waits 0 block 0 bound 15 data 0 stack 1 locals 0 start 0\ntree line 2\nPUSH 7\nOUT 0\nEND\nend\n";

/// `asm P I` stores the image of the text.
fn is_assembled<'x>(alloc: Global, text: &'x [u8], image: &'x [u8]) -> Result<(), Fail> {
    let want = Left {
        status: 0,
        put: "",
        program: Some(text),
        script: None,
        image: Some(image),
        migrated: None,
    };
    call(alloc, "asm P I", text, None)?.left("asm P I", &want)
}

/// The text that a call of `dis` stored.
fn stored_text(made: &CallResult) -> Result<&[u8], Fail> {
    match &made.migrated {
        Some(text) if made.status == 0 && made.puts == 0 => Ok(text.as_slice()),
        _ => Err(Fail::new("the image is not told")),
    }
}

fn has_stored(made: &CallResult, text: &[u8]) -> Result<(), Fail> {
    if stored_text(made)? == text {
        return Ok(());
    }
    Err(Fail::new("the image has another text"))
}

/// `dis` stores this text of the image.
fn is_told(alloc: Global, image: &[u8], text: &[u8]) -> Result<(), Fail> {
    let made = call_on_image(alloc, "dis I J", image, SCRIPT)?;
    has_stored(&made, text)
}

/// Of the text that `dis` stores `asm` makes the image again.
fn comes_again(alloc: Global, image: &[u8]) -> Result<(), Fail> {
    let made = call_on_image(alloc, "dis I J", image, SCRIPT)?;
    is_assembled(alloc, stored_text(&made)?, image)
}

/// The image has this length, and is that of the text.
fn is_image(alloc: Global, text: &[u8], image: &[u8], length: usize) -> Result<(), Fail> {
    if image.len() != length {
        return Err(Fail::new(format_args!("an image of {} bytes", image.len())));
    }
    is_assembled(alloc, text, image)?;
    is_told(alloc, image, text)
}

#[test]
fn the_smallest_text_is_assembled(rt: HostRuntime) -> Result<(), Fail> {
    let alloc = rt.alloc();
    let image = hex::decode(alloc, IDLE_SECOND)?;
    is_image(alloc, IDLE_TEXT.as_bytes(), image.as_slice(), 104)
}

#[test]
fn the_text_of_the_valve_is_assembled(rt: HostRuntime) -> Result<(), Fail> {
    let alloc = rt.alloc();
    let image = hex::decode(alloc, VALVE_SECOND)?;
    is_image(alloc, VALVE_TEXT.as_bytes(), image.as_slice(), 142)
}

/// The text of the smallest image, where it declares a cost that is too low.
const CHEAPER_TEXT: &str =
    "image a overhead 0\nprocess p periodic frame 10 deadline 10 first 0 rank 1 run 3 suspend 0 waits 0 block 0 bound 4 data 0 stack 0 locals 0 start 0\ntree\nEND\nend\n";

fn is_told_cheaper(alloc: Global, image: &[u8]) -> Result<(), Fail> {
    let cheaper = with_byte(alloc, image, 48, 3)?;
    is_told(alloc, cheaper.as_slice(), CHEAPER_TEXT.as_bytes())
}

/// An image that declares a cost that is too low is told, though it is not valid.
#[test]
fn images_are_told_unverified(rt: HostRuntime) -> Result<(), Fail> {
    let alloc = rt.alloc();
    let image = hex::decode(alloc, IDLE_SECOND)?;
    is_told_cheaper(alloc, image.as_slice())
}

/// Words of the smallest text, others in their place, and what is put of that.
const FAULTY: &[(&str, &str, &str)] = &[
    ("run 4", "run 3", "V2 3 4\n"),
    ("deadline 10", "deadline 9", "A2 2\n"),
    ("END\nend\n", "END\n", "A1 5\n"),
    ("END\nend\n", "END\nend\nend\n", "A1 6\n"),
    ("overhead 0", "overhead 00", "A1 1\n"),
    ("overhead 0", "overhead 1001", "A2 1\n"),
    ("frame 10", "frame 010", "A1 2\n"),
    ("frame 10", "frame  10", "A1 2\n"),
    ("tree\n", "tree fork ( ) (\n", "A1 3\n"),
    ("tree\n", "tree\r\n", "A1 3\n"),
    ("END\nend", "END 1\nend", "A1 4\n"),
    ("END\nend", "PUSH\nend", "A1 4\n"),
    ("END\nend", "PUSH 4294967296\nend", "A2 4\n"),
    ("process p", "event e\nprocess p", "A2 5\n"),
];

/// The text is refused with this line, and no image is stored.
fn is_refused_with<'x>(alloc: Global, text: &'x str, put: &'x str) -> Result<(), Fail> {
    let want = Left {
        status: 4,
        put,
        program: Some(text.as_bytes()),
        script: None,
        image: None,
        migrated: None,
    };
    call(alloc, "asm P I", text.as_bytes(), None)?.left(put, &want)
}

/// So is the smallest text with other words in the place of some.
fn is_refused(alloc: Global, right: &str, wrong: &str, put: &str) -> Result<(), Fail> {
    let text = IDLE_TEXT.replace(alloc, right, wrong)?;
    is_refused_with(alloc, text.as_str(), put)
}

fn are_refused(alloc: Global, rows: &[(&str, &str, &str)]) -> Result<(), Fail> {
    for &(right, wrong, put) in rows {
        is_refused(alloc, right, wrong, put)?;
    }
    Ok(())
}

#[test]
fn faulty_texts_are_refused(rt: HostRuntime) -> Result<(), Fail> {
    are_refused(rt.alloc(), FAULTY)
}

/// Puts the line of so many loops in one another.
fn put_loops(line: &mut String, count: usize) -> Result<(), Fail> {
    line.push_str("tree")?;
    for _ in 0..count {
        line.push_str(" rep 1 (")?;
    }
    for _ in 0..count {
        line.push_str(" )")?;
    }
    Ok(line.push_str("\n")?)
}

/// So many loops in one another are refused with this line.
fn loops_are_refused(alloc: Global, count: usize, put: &str) -> Result<(), Fail> {
    let mut line = String::new(alloc);
    put_loops(&mut line, count)?;
    is_refused(alloc, "tree\n", line.as_str(), put)
}

/// 129 loops are 130 trees in one another, which may be, but the code is not that of the loops.
#[test]
fn trees_that_are_too_deep_are_refused(rt: HostRuntime) -> Result<(), Fail> {
    let alloc = rt.alloc();
    loops_are_refused(alloc, 129, "V1 0 0\n")?;
    loops_are_refused(alloc, 130, "A2 3\n")?;
    loops_are_refused(alloc, 131, "A2 3\n")
}

/// The image of a worked program is there again after it was told.
fn worked_comes_again(alloc: Global, row: &GoCase) -> Result<(), Fail> {
    let script = lines(alloc, row.script)?;
    let program = row.program.as_bytes();
    let image = image_of(alloc, row.line, program, Some(script.as_str()))?;
    comes_again(alloc, image.as_slice())
}

fn come_again(alloc: Global, rows: &[GoCase]) -> Result<(), Fail> {
    for row in rows {
        if row.status == 0 && row.line.starts_with("go") {
            worked_comes_again(alloc, row)?;
        }
    }
    Ok(())
}

#[test]
fn worked_images_are_told_and_assembled(rt: HostRuntime) -> Result<(), Fail> {
    let alloc = rt.alloc();
    come_again(alloc, several_cases())?;
    come_again(alloc, single_cases())?;
    come_again(alloc, mine_cases())
}

/// A call, which read, write or put fails, the status, and whether a file is written. P holds a
/// text, S a script and K an image; nothing is put.
type FailingCall = (&'static str, u64, u64, u64, u8, bool);

const FAILING: &[FailingCall] = &[
    ("asm P I", 1, 0, 0, 6, false),
    ("asm P I", 0, 1, 0, 7, false),
    ("asm P I", 2, 2, 1, 0, true),
    ("dis K J", 1, 0, 0, 6, false),
    ("dis K J", 0, 1, 0, 7, false),
    ("dis K J", 2, 2, 1, 0, true),
    ("watch K S 5", 1, 0, 0, 6, false),
    ("watch K S 5", 2, 0, 0, 6, false),
    ("watch K S 5", 0, 0, 1, 7, false),
];

/// The call came to what the row says.
fn failed_so(made: &CallResult, row: &FailingCall) -> Result<(), Fail> {
    let (line, .., status, stores) = *row;
    let stored = made.image.is_some() || made.migrated.is_some();
    if stored != stores || !made.put.is_empty() {
        return Err(Fail::new(format_args!("{line}: files are otherwise, or something is put")));
    }
    if made.status == status {
        return Ok(());
    }
    Err(Fail::new(format_args!("{line}: status {}, wanted {status}", made.status)))
}

fn fails_so(alloc: Global, row: &FailingCall, image: &[u8]) -> Result<(), Fail> {
    let (line, read, write, put, ..) = *row;
    let failures = Failures { read, write, put };
    let made = call_beside(alloc, line, IDLE_TEXT, SCRIPT, "K", image, failures)?;
    failed_so(&made, row)
}

fn fail_so(alloc: Global, rows: &[FailingCall], image: &[u8]) -> Result<(), Fail> {
    for row in rows {
        fails_so(alloc, row, image)?;
    }
    Ok(())
}

#[test]
fn devices_fail_in_turn(rt: HostRuntime) -> Result<(), Fail> {
    let alloc = rt.alloc();
    let image = hex::decode(alloc, VALVE_SECOND)?;
    fail_so(alloc, FAILING, image.as_slice())
}
