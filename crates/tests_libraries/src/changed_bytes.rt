//! What the loader tells of changed bytes.

use crate::images::load;
use image_loaded::{FileFault, Image};
use message_log::test_number;
use out_of_memory::OutOfMemory;
use std::alloc::Global;
use std::test::Fail;

/// A program whose one process does nothing, as an image of version 1.
const IDLE: &str =
    "5254455500010001000000000000000000000000000101610170000000000a00000000000000010000000400000000000000000000000000000004000000000000000000000000000000000000000000000000000030000000000000000000000000";

/// The same in version 2.
const IDLE_AGAIN: &str =
    "52544555000200000001000000000000000000000000000101610170000000000a0000000a00000000000000010000000400000000000000000000000000000004000000000000000000000000000000000000000000000000000030000000000000000000000000";

/// A program whose one process puts 7 to a device, as an image of version 1.
const VALVE: &str =
    "5254455500010001000000000001000000000000000301610576616c7665010170000000000f00000000000000010000000f0000000000000000000000000000000f00000000000000010000000000000000000000000000000000010100000002010000000700000000000000002e00000000000000000000000030000000000000000000000000";

/// A byte that is changed, to what, and the answer.
type Changed = (usize, u8, &'static str);

/// Those of the first image.
const CHANGED: &[Changed] = &[
    (0, 0x52, "ok"),
    (0, 0x58, "I1 0"),
    (5, 3, "I1 4"),
    (7, 0, "I4 6"),
    (7, 2, "I2 98"),
    (25, 0x61, "I5 24"),
    (26, 1, "I4 35"),
    (26, 2, "I6 26"),
    (30, 9, "I4 27"),
    (38, 2, "V4 2 1"),
    (42, 3, "V2 3 4"),
    (58, 3, "V5 3 4"),
    (58, 11, "V5 11 10"),
    (80, 1, "I8 81"),
    (84, 1, "I6 85"),
    (85, 1, "V1 0 0"),
    (85, 2, "V6 0 0"),
    (85, 0x31, "I6 85"),
    (97, 1, "I7 94"),
];

/// The answer to bytes: ok, or the fault.
fn told(alloc: Global, bytes: Vec<u8>) -> Result<String, Fail> {
    match Image::load(alloc, bytes) {
        Ok(_) => Ok(String::from_str(alloc, "ok")?),
        Err(fault) => told_fault(alloc, &fault),
    }
}

fn told_fault(alloc: Global, fault: &FileFault) -> Result<String, Fail> {
    match fault {
        FileFault::Image { number, offset } => Ok(format!(in alloc; "I{number} {offset}")?),
        FileFault::Invalid { fault, .. } => {
            let number = test_number(fault.subject);
            Ok(format!(in alloc; "V{number} {} {}", fault.a, fault.b)?)
        }
        FileFault::Memory(error) => Err(Fail::from(error)),
    }
}

fn is(said: &str, change: &Changed) -> Result<(), Fail> {
    let (at, value, answer) = *change;
    if said == answer {
        return Ok(());
    }
    Err(Fail::new(format_args!("{value} at {at}: {said}")))
}

fn set(bytes: &mut [u8], change: &Changed) {
    if change.0 < bytes.len() {
        bytes[change.0] = change.1;
    }
}

fn with_change(alloc: Global, bytes: &[u8], change: &Changed) -> Result<Vec<u8>, OutOfMemory> {
    let mut changed = Vec::from_slice(alloc, bytes)?;
    set(changed.as_mut_slice(), change);
    Ok(changed)
}

fn answers(alloc: Global, bytes: &[u8], change: &Changed) -> Result<(), Fail> {
    let said = told(alloc, with_change(alloc, bytes, change)?)?;
    is(said.as_str(), change)
}

fn answer(alloc: Global, bytes: &[u8], changes: &[Changed]) -> Result<(), Fail> {
    for change in changes {
        answers(alloc, bytes, change)?;
    }
    Ok(())
}

#[test]
fn tells_each_changed_byte(rt: HostRuntime) -> Result<(), Fail> {
    let idle = hex::decode(rt.alloc(), IDLE)?;
    answer(rt.alloc(), idle.as_slice(), CHANGED)
}

/// The bytes that an image keeps of these.
fn kept(alloc: Global, bytes: Vec<u8>) -> Result<Vec<u8>, Fail> {
    let image = load(alloc, bytes)?;
    Ok(Vec::from_slice(alloc, image.bytes())?)
}

fn are(bytes: &[u8], want: &[u8]) -> Result<(), Fail> {
    if bytes == want {
        return Ok(());
    }
    Err(Fail::new("the bytes are others"))
}

#[test]
fn keeps_the_bytes_of_version_two(rt: HostRuntime) -> Result<(), Fail> {
    let again = hex::decode(rt.alloc(), IDLE_AGAIN)?;
    let idle = kept(rt.alloc(), hex::decode(rt.alloc(), IDLE)?)?;
    are(idle.as_slice(), again.as_slice())
}

/// A declared run that is one too low, and a bound.
const TOO_LOW: &[Changed] = &[(49, 14, "V2 14 15"), (65, 14, "V5 14 15")];

/// The same in version 2.
const TOO_LOW_AGAIN: &[Changed] = &[(55, 14, "V2 14 15"), (71, 14, "V5 14 15")];

#[test]
fn tells_costs_and_bounds(rt: HostRuntime) -> Result<(), Fail> {
    let valve = hex::decode(rt.alloc(), VALVE)?;
    answer(rt.alloc(), valve.as_slice(), TOO_LOW)
}

fn answer_again(alloc: Global, bytes: &[u8]) -> Result<(), Fail> {
    if bytes.len() != 142 {
        return Err(Fail::new(format_args!("{} bytes", bytes.len())));
    }
    answer(alloc, bytes, TOO_LOW_AGAIN)
}

#[test]
fn tells_costs_and_bounds_in_version_two(rt: HostRuntime) -> Result<(), Fail> {
    let valve = kept(rt.alloc(), hex::decode(rt.alloc(), VALVE)?)?;
    answer_again(rt.alloc(), valve.as_slice())
}
