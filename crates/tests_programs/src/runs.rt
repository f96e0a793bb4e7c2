//! Images that are stored, and a long run.

use std::alloc::Global;
use std::fmt::Write;
use std::test::Fail;
use tests_calls::{Expected, answers, image_of};

const IDLE: &str = "program a process p : periodic frame 10 begin end p end a";

/// The image of the idle program, in hexadecimal.
const IDLE_IMAGE: &str =
    "52544555 0002 0000 0001 0000 0000 0000 0000 0000 00000001 0161 0170 00 0000000a 0000000a 00000000 0000 0001 00000004 00000000 00000000 00000000 00000004 00000000 00000000 00000000 00000000 00000000 0000 00000000 30 00000000 00000000 00000000";

/// Puts the digits of bytes, two for each.
fn put_digits(digits: &mut String, bytes: &[u8]) -> Result<(), Fail> {
    for byte in bytes {
        write!(digits, "{byte:02x}")?;
    }
    Ok(())
}

/// The digits are those of the image.
fn are_digits(alloc: Global, digits: &str) -> Result<(), Fail> {
    let want = IDLE_IMAGE.replace(alloc, " ", "")?;
    if digits == want.as_str() {
        return Ok(());
    }
    Err(Fail::new(format_args!("another image: {digits}")))
}

fn is_image(alloc: Global, bytes: &[u8]) -> Result<(), Fail> {
    if bytes.len() != 104 {
        return Err(Fail::new(format_args!("an image of {} bytes", bytes.len())));
    }
    let mut digits = String::new(alloc);
    put_digits(&mut digits, bytes)?;
    are_digits(alloc, digits.as_str())
}

#[test]
fn stores_the_image(rt: HostRuntime) -> Result<(), Fail> {
    let alloc = rt.alloc();
    let image = image_of(alloc, "go P I S", IDLE.as_bytes(), Some("end 10\n"))?;
    is_image(alloc, image.as_slice())
}

/// The puts of an activation of the long run, its frame, and its activations.
const PUTS: u64 = 300;

const FRAME: u64 = 3_500;

const ACTIVATIONS: u64 = 40;

const LONG_REPORT: &str =
    "program a\nprocess p frame 3500 rank 1 cost 3304 suspend 0 waits 0 block 0 bound 3304 data 0 stack 1\ncode 601\ntimely\n";

/// Puts the program of the long run.
fn put_program(text: &mut String) -> Result<(), Fail> {
    write!(
        text,
        "program a device d : out process p : periodic frame {FRAME} begin"
    )?;
    for value in 0..PUTS {
        write!(text, " put d {value}")?;
    }
    Ok(text.push_str(" end p end a")?)
}

/// Puts the log of the activation that is released at this tick.
fn put_activation(log: &mut String, start: u64) -> Result<(), Fail> {
    write!(log, "{start} p release\n")?;
    for value in 0..PUTS {
        write!(
            log,
            "{} p put d {value}\n",
            start.saturating_add(11 * value + 10)
        )?;
    }
    Ok(write!(log, "{} p end\n", start.saturating_add(11 * PUTS + 3))?)
}

/// Puts the report and the log of the long run.
fn put_run(put: &mut String) -> Result<(), Fail> {
    put.push_str(LONG_REPORT)?;
    for number in 0..ACTIVATIONS {
        put_activation(put, number * FRAME)?;
    }
    Ok(())
}

/// The program of the long run puts this.
fn goes_on(alloc: Global, put: &str) -> Result<(), Fail> {
    let mut program = String::new(alloc);
    put_program(&mut program)?;
    let script = format!(in alloc; "end {}\n", ACTIVATIONS * FRAME)?;
    let want = Expected {
        status: 0,
        put,
        puts: Some(1 + ACTIVATIONS * (PUTS + 2)),
    };
    answers(
        alloc,
        "go P I S",
        program.as_bytes(),
        Some(script.as_str()),
        want,
    )
}

#[test]
fn logs_each_event_of_a_long_run(rt: HostRuntime) -> Result<(), Fail> {
    let alloc = rt.alloc();
    let mut put = String::new(alloc);
    put_run(&mut put)?;
    goes_on(alloc, put.as_str())
}
