//! Images from any hand under earliest deadline first.

use edf_admission::{EdfFault, EdfImage};
use image_loaded::{FileFault, Shape};
use out_of_memory::OutOfMemory;
use sched_demand::Judgement;
use std::alloc::Global;
use std::test::Fail;

/// The shape that the bytes are.
fn load(alloc: Global, bytes: &[u8]) -> Result<Shape, Fail> {
    match Shape::load(alloc, Vec::from_slice(alloc, bytes)?) {
        Ok(shape) => Ok(shape),
        Err(FileFault::Memory(error)) => Err(Fail::from(error)),
        Err(_) => Err(Fail::new("no shape")),
    }
}

/// The image of a program whose one process does nothing: it takes 4 ticks of a frame of 10.
const IDLE: &str =
    "52544555000200000001000000000000000000000000000101610170000000000a0000000a00000000000000010000000400000000000000000000000000000004000000000000000000000000000000000000000000000000000030000000000000000000000000";

/// Bytes of it that are changed, to what, and why it is refused then, if it is.
type Row = (&'static [(usize, u8)], Option<EdfFault>);

const LATE: Judgement = Judgement::Late {
    points: 1,
    at: 10,
    demand: 15,
};

const ROWS: &[Row] = &[
    (&[], None),
    (&[(7, 1), (48, 6)], Some(EdfFault::Overhead { over: 1 })),
    (&[(48, 11)], Some(EdfFault::Unfit(Judgement::Many))),
    (&[(60, 11)], Some(EdfFault::Unfit(LATE))),
];

fn set(bytes: &mut [u8], changes: &[(usize, u8)]) {
    for &(at, value) in changes {
        if at < bytes.len() {
            bytes[at] = value;
        }
    }
}

fn with_changes(
    alloc: Global,
    bytes: &[u8],
    changes: &[(usize, u8)],
) -> Result<Vec<u8>, OutOfMemory> {
    let mut changed = Vec::from_slice(alloc, bytes)?;
    set(changed.as_mut_slice(), changes);
    Ok(changed)
}

fn is(found: Option<EdfFault>, want: Option<EdfFault>) -> Result<(), Fail> {
    if found == want {
        return Ok(());
    }
    Err(Fail::new(format_args!("{found:?}, not {want:?}")))
}

fn answers(alloc: Global, shape: Shape, want: Option<EdfFault>) -> Result<(), Fail> {
    is(EdfImage::admit(alloc, shape).err(), want)
}

fn answer(alloc: Global, bytes: &[u8], rows: &[Row]) -> Result<(), Fail> {
    for &(changes, want) in rows {
        let changed = with_changes(alloc, bytes, changes)?;
        answers(alloc, load(alloc, changed.as_slice())?, want)?;
    }
    Ok(())
}

#[test]
fn answers_four_images(rt: HostRuntime) -> Result<(), Fail> {
    let idle = hex::decode(rt.alloc(), IDLE)?;
    answer(rt.alloc(), idle.as_slice(), ROWS)
}
