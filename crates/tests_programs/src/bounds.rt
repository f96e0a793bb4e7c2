//! Bounds taken apart, and what fits.

use std::alloc::Global;
use std::test::Fail;
use tests_calls::{Expected, MINE, VALVE, answers, put_of};

/// Three processes, of which the lowest is in a monitor that the next one enters.
const BLOCK: &str =
    "program c device a : out monitor m var n : int entry procedure e() begin n := n + 1 end e end m process l : periodic frame 200 begin m.e() end l process u : periodic frame 100 first activation atTime 12 begin m.e() end u process h : periodic frame 90 first activation atTime 14 begin put a 1 end h end c";

/// A process that waits in a monitor, and one that signals there.
const WAIT: &str =
    "program d device a : out monitor m condition c entry procedure w() begin wait c noLongerThan 30 : 10 end w entry procedure s() begin signal c end s end m process p : periodic frame 200 begin m.w() handler (10) put a 1 end p process q : periodic frame 300 first activation atTime 31 begin m.s() end q end d";

/// Two processes that ask 60 ticks of 59.
const LATE: &str =
    "program b device a : out process p1 : periodic frame 20 begin put a 1 end p1 process p2 : periodic frame 59 begin put a 2 end p2 end b";

/// Two processes, of which the first one alone is late.
const LOADED: &str =
    "program b device a : out process p1 : periodic frame 14 begin put a 1 end p1 process p2 : periodic frame 60 begin put a 2 end p2 end b";

/// A process that runs for more ticks than are counted.
const ENDLESS: &str =
    "program a process p : periodic frame 1000000000 begin for i : 1 .. 1000000 do for j : 1 .. 1000000 do end for end for end p end a";

/// Entries whose stays are as long, and processes as near.
const TIES: &str =
    "program t device a : out monitor n entry procedure small() begin end small end n monitor m entry procedure e() begin put a 1 end e entry procedure f() begin put a 2 end f end m process y : periodic frame 4000 begin m.e() end y process x : periodic frame 3000 begin m.e() m.f() end x process w : periodic frame 2000 begin m.f() n.small() end w process h : periodic frame 1000 begin m.e() end h process g : periodic frame 900 begin n.small() end g end t";

/// A program, a call on it, its status, and the lines that are put.
struct Row {
    program: &'static str,
    line: &'static str,
    status: u8,
    put: &'static str,
}

const ROWS: &[Row] = &[
    Row {
        program: BLOCK,
        line: "why P",
        status: 0,
        put: "process l frame 200 deadline 200 rank 3 bound 77 at 77\nblock 0\ncost 31\nrank 1 h frame 90 releases 1 each 15 total 15\nrank 2 u frame 100 releases 1 each 31 total 31\nsum 77\nprocess u frame 100 deadline 100 rank 2 bound 58 at 58\nblock 12 m.e l\ncost 31\nrank 1 h frame 90 releases 1 each 15 total 15\nsum 58\nprocess h frame 90 deadline 90 rank 1 bound 15 at 15\nblock 0\ncost 15\nsum 15\nload 631667 of 1000000\ntimely\n",
    },
    Row {
        program: WAIT,
        line: "why P",
        status: 0,
        put: "process p frame 200 deadline 200 rank 1 bound 89 at 89\nblock 8 m.s q\ncost 43\nsuspend 30\nwaits 1 each 8 total 8\nsum 89\nprocess q frame 300 deadline 300 rank 2 bound 100 at 100\nblock 0\ncost 27\nrank 1 p frame 200 releases 1 each 73 total 73\nsum 100\nload 305000 of 1000000\ntimely\n",
    },
    Row {
        program: LATE,
        line: "why P",
        status: 3,
        put: "process p1 frame 20 deadline 20 rank 1 bound 15 at 15\nblock 0\ncost 15\nsum 15\nprocess p2 frame 59 deadline 59 rank 2 bound none at 59\nblock 0\ncost 15\nrank 1 p1 frame 20 releases 3 each 15 total 45\nsum 60\nload 1004238 of 1000000\nuntimely p2\n",
    },
    Row {
        program: VALVE,
        line: "why P",
        status: 0,
        put: "process p frame 15 deadline 15 rank 1 bound 15 at 15\nblock 0\ncost 15\nsum 15\nload 1000000 of 1000000\ntimely\n",
    },
    Row {
        program: VALVE,
        line: "why P 1",
        status: 3,
        put: "process p frame 15 deadline 15 rank 1 bound none at 15\nblock 0\ncost 17\nsum 17\nload 1133334 of 1000000\nuntimely p\n",
    },
    Row {
        program: ENDLESS,
        line: "why P",
        status: 3,
        put: "process p frame 1000000000 deadline 1000000000 rank 1 bound none at 1000000000\nblock 0\ncost over\nsum over\nload over of 1000000\nuntimely p\n",
    },
    Row {
        program: VALVE,
        line: "fit P",
        status: 0,
        put: "overhead 0\nprocess p cost 15 fits 15\n",
    },
    Row {
        program: BLOCK,
        line: "fit P",
        status: 0,
        put: "overhead 5\nprocess l cost 31 fits 93\nprocess u cost 31 fits 62\nprocess h cost 15 fits 43\n",
    },
    Row {
        program: WAIT,
        line: "fit P",
        status: 0,
        put: "overhead 16\nprocess p cost 43 fits 143 suspend 30 fits 130\nprocess q cost 27 fits 154\n",
    },
    Row {
        program: WAIT,
        line: "fit P 2",
        status: 0,
        put: "overhead 16\nprocess p cost 51 fits 139 suspend 30 fits 118\nprocess q cost 31 fits 138\n",
    },
    Row {
        program: LATE,
        line: "fit P",
        status: 0,
        put: "overhead none\nprocess p1 cost 15 fits 14\nprocess p2 cost 15 fits 14\n",
    },
    Row {
        program: LOADED,
        line: "fit P",
        status: 0,
        put: "overhead none\nprocess p1 cost 15 fits 10\nprocess p2 cost 15 fits none\n",
    },
    Row {
        program: ENDLESS,
        line: "fit P",
        status: 0,
        put: "overhead none\nprocess p cost over fits 1000000000\n",
    },
    Row {
        program: "program",
        line: "why P",
        status: 2,
        put: "E10 1:8\n",
    },
    Row {
        program: "program",
        line: "fit P",
        status: 2,
        put: "E10 1:8\n",
    },
];

/// The section of the shower, of the mine pump.
const SHOWER: &str =
    "process shower frame 3000 deadline 3000 rank 4 bound 1447 at 1447\nblock 16 box.store selfTest\ncost 60\nsuspend 900\nwaits 1 each 16 total 16\nrank 1 gasWatch frame 800 releases 2 each 160 total 320\nrank 2 airWatch frame 1000 releases 2 each 35 total 70\nrank 3 flow frame 2000 releases 1 each 65 total 65\nsum 1447\n";

/// The lines of the blocks of the processes of `TIES`.
const BLOCKS: &[&str] = &[
    "block 0",
    "block 14 m.e y",
    "block 14 m.e x",
    "block 14 m.e x",
    "block 3 n.small w",
];

fn answer_so(alloc: Global, rows: &[Row]) -> Result<(), Fail> {
    for row in rows {
        let want = Expected {
            status: row.status,
            put: row.put,
            puts: Some(1),
        };
        answers(alloc, row.line, row.program.as_bytes(), None, want)?;
    }
    Ok(())
}

#[test]
fn bounds_are_taken_apart(rt: HostRuntime) -> Result<(), Fail> {
    answer_so(rt.alloc(), ROWS)
}

fn has_section(put: &[u8], section: &str) -> Result<(), Fail> {
    let text = str::from_utf8(put)?;
    if text.contains(section) {
        return Ok(());
    }
    Err(Fail::new(format_args!("another section: {text}")))
}

#[test]
fn a_section_of_the_pump(rt: HostRuntime) -> Result<(), Fail> {
    let put = put_of(rt.alloc(), "why P", MINE.as_bytes(), None)?;
    has_section(put.as_slice(), SHOWER)
}

/// The lines of a text that tell of a block are these.
fn has_blocks(text: &str, want: &[&str]) -> Result<(), Fail> {
    let mut left = want;
    for line in text.split('\n') {
        if line.starts_with("block") {
            match left {
                [first, rest @ ..] if *first == line => left = rest,
                _ => return Err(Fail::new(format_args!("unwanted: {line}"))),
            }
        }
    }
    if left.is_empty() {
        return Ok(());
    }
    Err(Fail::new("a block is missing"))
}

#[test]
fn the_first_entry_and_the_nearest_process_block(rt: HostRuntime) -> Result<(), Fail> {
    let put = put_of(rt.alloc(), "why P", TIES.as_bytes(), None)?;
    has_blocks(str::from_utf8(put.as_slice())?, BLOCKS)
}
