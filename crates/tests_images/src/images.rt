//! Stored images, run and migrated.

use std::alloc::Global;
use std::test::Fail;
use tests_calls::{
    Expected, IDLE_FIRST, IDLE_SECOND, Left, VALVE, answers_on_image, call_on_image, image_of,
    with_byte,
};

/// The call on the image and the script has this answer.
fn has_answer(
    alloc: Global,
    line: &str,
    image: &[u8],
    script: &str,
    status: u8,
    put: &str,
) -> Result<(), Fail> {
    let want = Expected {
        status,
        put,
        puts: None,
    };
    answers_on_image(alloc, line, image, script, want)
}

/// A byte of an image that is changed, to what, the script, the status of `run`, and what is put.
struct Changed {
    at: usize,
    byte: u8,
    script: &'static str,
    status: u8,
    put: &'static str,
}

fn runs_changed(alloc: Global, image: &[u8], changed: &Changed) -> Result<(), Fail> {
    let bytes = with_byte(alloc, image, changed.at, changed.byte)?;
    let want = Expected {
        status: changed.status,
        put: changed.put,
        puts: None,
    };
    answers_on_image(alloc, "run I S", bytes.as_slice(), changed.script, want)
}

fn run_changed(alloc: Global, image: &[u8], rows: &[Changed]) -> Result<(), Fail> {
    for changed in rows {
        runs_changed(alloc, image, changed)?;
    }
    Ok(())
}

/// The stored image of the valve.
fn stored_image(alloc: Global) -> Result<Vec<u8>, Fail> {
    image_of(alloc, "go P I S", VALVE.as_bytes(), Some("end 0\n"))
}

/// Changes of the stored image of the valve.
const STORED: &[Changed] = &[
    Changed {
        at: 55,
        byte: 15,
        script: "end 15\n",
        status: 0,
        put: "0 p release\n10 p put valve 7\n14 p end\n",
    },
    Changed {
        at: 55,
        byte: 14,
        script: "end 15\n",
        status: 4,
        put: "V2 14 15\n",
    },
    Changed {
        at: 71,
        byte: 14,
        script: "end 15\n",
        status: 4,
        put: "V5 14 15\n",
    },
];

#[test]
fn runs_stored_images(rt: HostRuntime) -> Result<(), Fail> {
    let image = stored_image(rt.alloc())?;
    run_changed(rt.alloc(), image.as_slice(), STORED)
}

#[test]
fn refuses_a_byte_behind_an_image(rt: HostRuntime) -> Result<(), Fail> {
    let alloc = rt.alloc();
    let mut image = stored_image(alloc)?;
    image.push(0)?;
    has_answer(alloc, "migrate I J", image.as_slice(), "", 4, "I3 142\n")
}

#[test]
fn refuses_an_image_that_is_cut(rt: HostRuntime) -> Result<(), Fail> {
    let alloc = rt.alloc();
    let mut image = stored_image(alloc)?;
    image.truncate(141);
    has_answer(
        alloc,
        "run I S",
        image.as_slice(),
        "end 15\n",
        4,
        "I2 141\n",
    )
}

/// A program of which an overhead of one tick leaves nothing over.
const FULL: &str =
    "program a device valve : out process p : periodic frame 17 begin put valve 7 end p end a";

/// Its image, where the overhead is one tick more.
const SLOWER: Changed = Changed {
    at: 7,
    byte: 2,
    script: "end 17\n",
    status: 4,
    put: "V2 17 19\n",
};

#[test]
fn an_overhead_is_part_of_the_image(rt: HostRuntime) -> Result<(), Fail> {
    let alloc = rt.alloc();
    let image = image_of(alloc, "compile P I 1", FULL.as_bytes(), None)?;
    runs_changed(alloc, image.as_slice(), &SLOWER)
}

/// `migrate` of the first image, which has 98 bytes, stores the second.
fn migrates<'x>(alloc: Global, first: &'x [u8], second: &'x [u8]) -> Result<(), Fail> {
    if first.len() != 98 {
        return Err(Fail::new(format_args!("an image of {} bytes", first.len())));
    }
    let want = Left {
        status: 0,
        put: "",
        program: None,
        script: Some(b""),
        image: Some(first),
        migrated: Some(second),
    };
    call_on_image(alloc, "migrate I J", first, "")?.left("migrate I J", &want)
}

#[test]
fn migrates_the_first_version(rt: HostRuntime) -> Result<(), Fail> {
    let alloc = rt.alloc();
    let first = hex::decode(alloc, IDLE_FIRST)?;
    let second = hex::decode(alloc, IDLE_SECOND)?;
    migrates(alloc, first.as_slice(), second.as_slice())
}

#[test]
fn runs_the_first_version(rt: HostRuntime) -> Result<(), Fail> {
    let alloc = rt.alloc();
    let first = hex::decode(alloc, IDLE_FIRST)?;
    let log = "0 p release\n3 p end\n";
    has_answer(alloc, "run I S", first.as_slice(), "end 10\n", 0, log)
}

/// A deadline that is a tick behind the frame.
const TOO_LATE: Changed = Changed {
    at: 36,
    byte: 11,
    script: "end 10\n",
    status: 4,
    put: "I4 33\n",
};

#[test]
fn refuses_a_deadline_behind_the_frame(rt: HostRuntime) -> Result<(), Fail> {
    let alloc = rt.alloc();
    let second = hex::decode(alloc, IDLE_SECOND)?;
    runs_changed(alloc, second.as_slice(), &TOO_LATE)
}
