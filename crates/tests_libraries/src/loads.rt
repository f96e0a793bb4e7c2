//! Generated loads, as they are known from outside.

use load::{make_program, make_script, mark_after, summary_line};
use std::test::Fail;

/// The program of key 7 with two processes.
const PROGRAM: &str = "program load\n\
    device src : in\n\
    device dst : out\n\
    monitor m\n\
    var n : int\n\
    condition c\n\
    entry procedure add ( v : int )\n\
    begin\n\
    n := v\n\
    signal c\n\
    end add\n\
    entry procedure pause ( )\n\
    begin\n\
    wait c noLongerThan 50 : 10\n\
    end pause\n\
    end m\n\
    process p1 : periodic frame 14000\n\
    var x : int\n\
    begin\n\
    get src x\n\
    for i : 1 .. 2 do\n\
    x := x mod 97 + 3\n\
    end for\n\
    m . add ( x )\n\
    put dst x\n\
    handler ( 10 )\n\
    put dst 0\n\
    end p1\n\
    process p2 : periodic frame 4000\n\
    var x : int\n\
    begin\n\
    get src x\n\
    for i : 1 .. 6 do\n\
    x := x mod 97 + 19\n\
    end for\n\
    m . add ( x )\n\
    m . pause ( )\n\
    put dst x\n\
    handler ( 10 )\n\
    put dst 0\n\
    end p2\n\
    end load\n";

/// The script of key 7 for two processes.
const SCRIPT: &str = "0 set src 278\n\
    2000 set src 231\n\
    4000 set src -247\n\
    6000 set src -327\n\
    8000 set src 545\n\
    10000 set src 219\n\
    12000 set src 864\n\
    14000 set src 764\n\
    16000 set src 739\n\
    18000 set src 686\n\
    20000 set src -805\n\
    22000 set src 75\n\
    24000 set src 632\n\
    26000 set src 280\n\
    28000 set src 949\n\
    30000 set src -38\n\
    32000 set src 405\n\
    34000 set src -101\n\
    36000 set src -204\n\
    38000 set src 951\n\
    end 40000\n";

fn is(text: &[u8], want: &str) -> Result<(), Fail> {
    if text == want.as_bytes() {
        return Ok(());
    }
    Err(Fail::new("the text is another"))
}

#[test]
fn a_program_of_two_processes(rt: HostRuntime) -> Result<(), Fail> {
    let text = make_program(rt.alloc(), 7, 2)?;
    is(text.as_bytes(), PROGRAM)
}

#[test]
fn a_script_for_two_processes(rt: HostRuntime) -> Result<(), Fail> {
    let text = make_script(rt.alloc(), 7, 2)?;
    is(text.as_bytes(), SCRIPT)
}

fn has_mark(text: &[u8], length: usize, mark: u32) -> Result<(), Fail> {
    let found = mark_after(0, text);
    if text.len() == length && found == mark {
        return Ok(());
    }
    Err(Fail::new(format_args!("{} bytes, mark {found}", text.len())))
}

#[test]
fn a_program_of_forty_processes(rt: HostRuntime) -> Result<(), Fail> {
    let text = make_program(rt.alloc(), 7, 40)?;
    has_mark(text.as_bytes(), 7107, 4_102_245_903)
}

#[test]
fn a_program_of_many_processes(rt: HostRuntime) -> Result<(), Fail> {
    let text = make_program(rt.alloc(), 0, 64)?;
    has_mark(text.as_bytes(), 11_263, 1_028_630_584)
}

/// Bytes are marked in one go as they are in two.
#[test]
fn a_mark_goes_on() -> Result<(), Fail> {
    has_mark(b"0 p end", 7, mark_after(mark_after(0, b"0 p"), b" end"))
}

#[test]
fn a_summary(rt: HostRuntime) -> Result<(), Fail> {
    let text = summary_line(rt.alloc(), 1, 2, 1, 7, mark_after(0, b"0 p end"))?;
    is(
        text.as_bytes(),
        "made 1 code 2 lines 1 bytes 7 mark 671124795\n",
    )
}
