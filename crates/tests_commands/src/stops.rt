//! The machine at a stop.

use std::alloc::Global;
use std::test::Fail;
use tests_calls::{Expected, VALVE, answers_on_image, image_of};

/// A counter in a monitor, and a process that holds two others up. Its code begins with ENTER, LDM,
/// PUSH, ADD, STM, LEAVE and RET of the entry; CALL and END of l are at 7, those of u at 9.
const COUNTER: &str =
    "program c device a : out monitor m var n : int entry procedure e() begin n := n + 1 end e end m process l : periodic frame 200 begin m.e() end l process u : periodic frame 100 first activation atTime 12 begin m.e() end u process h : periodic frame 90 first activation atTime 14 begin put a 1 end h end c";

/// A process that waits, and one that wakes it. The code of p, CALL and END, begins at 9; what it
/// calls begins with ENTER and WAIT at 0.
const MEETING: &str =
    "program d device a : out monitor m condition c entry procedure w() begin wait c noLongerThan 30 : 10 end w entry procedure s() begin signal c end s end m process p : periodic frame 200 begin m.w() handler (10) put a 1 end p process q : periodic frame 300 first activation atTime 31 begin m.s() end q end d";

/// A process that keeps a word: PUSH takes one tick, STG two.
const KEEPER: &str =
    "program a process p : periodic frame 100 var x : int begin x := 5 end p end a";

/// A stop in the run of a program that is compiled with an overhead, and the lines that are put.
struct Stop {
    program: &'static str,
    compile: &'static str,
    script: &'static str,
    watch: &'static str,
    put: &'static str,
}

/// The run that opens a valve.
const OPENED: Stop = Stop {
    program: VALVE,
    compile: "compile P I",
    script: "end 15\n",
    watch: "",
    put: "",
};

/// The run of the counter, before the second of its processes enters.
const COUNTED: Stop = Stop {
    program: COUNTER,
    script: "end 90\n",
    ..OPENED
};

/// The run of the meeting, where each dispatch takes three ticks.
const MET: Stop = Stop {
    program: MEETING,
    compile: "compile P I 3",
    script: "end 100\n",
    ..OPENED
};

const KEPT: Stop = Stop {
    program: KEEPER,
    script: "end 100\n",
    ..OPENED
};

const STOPS: &[Stop] = &[
    Stop {
        watch: "watch I S 0",
        put: "tick 0\nprocess p idle data\nlast 0\n",
        ..OPENED
    },
    Stop {
        watch: "watch I S 5",
        put: "tick 5\nprocess p ready 1 6 - data\nlast 1\n0 p release\n",
        ..OPENED
    },
    Stop {
        watch: "watch I S @1",
        put: "tick 11\nprocess p ready 2 4 - data\nlast 2\n0 p release\n10 p put valve 7\n",
        ..OPENED
    },
    Stop {
        watch: "watch I S 99",
        put: "tick 15\nprocess p idle data\nlast 3\n0 p release\n10 p put valve 7\n14 p end\n",
        ..OPENED
    },
    Stop {
        watch: "watch I S @9",
        put: "tick 15\nprocess p idle data\nlast 3\n0 p release\n10 p put valve 7\n14 p end\n",
        ..OPENED
    },
    Stop {
        watch: "watch I S 20",
        put: "tick 20\nprocess l ready 2 1 m data\nprocess u ready 9 6 - data\nprocess h ready 12 5 - data\nmonitor m l data 0\nlast 4\n0 l release\n10 l enter m\n12 u release\n14 h release\n",
        ..COUNTED
    },
    Stop {
        watch: "watch I S @5",
        put: "tick 38\nprocess l ready 6 4 - data\nprocess u ready 9 6 - data\nprocess h idle data\nmonitor m free data 1\nlast 7\n0 l release\n10 l enter m\n12 u release\n14 h release\n24 h put a 1\n28 h end\n37 l leave m\n",
        ..COUNTED
    },
    Stop {
        compile: "compile P I",
        watch: "watch I S @1",
        put: "tick 17\nprocess p waiting m c 47 data\nprocess q idle data\nmonitor m free data\nlast 3\n0 p release\n10 p enter m\n16 p wait m c\n",
        ..MET
    },
    Stop {
        watch: "watch I S 2",
        put: "tick 2\nprocess p ready 9 4 - data\nprocess q idle data\nmonitor m free data\nlast 1\n0 p release\n",
        ..MET
    },
    Stop {
        watch: "watch I S 6",
        put: "tick 6\nprocess p ready 9 6 - data\nprocess q idle data\nmonitor m free data\nlast 1\n0 p release\n",
        ..MET
    },
    Stop {
        watch: "watch I S @9",
        put: "tick 12\nprocess p ready 0 5 - data\nprocess q idle data\nmonitor m free data\nlast 1\n0 p release\n",
        ..MET
    },
    Stop {
        watch: "watch I S 2",
        put: "tick 2\nprocess p ready 1 1 - data 0\nlast 1\n0 p release\n",
        ..KEPT
    },
    Stop {
        watch: "watch I S 3",
        put: "tick 3\nprocess p ready 2 4 - data 5\nlast 1\n0 p release\n",
        ..KEPT
    },
];

/// The image of the program is told so at the stop.
fn is_told(alloc: Global, stop: &Stop) -> Result<(), Fail> {
    let image = image_of(alloc, stop.compile, stop.program.as_bytes(), None)?;
    let want = Expected {
        status: 0,
        put: stop.put,
        puts: Some(1),
    };
    answers_on_image(alloc, stop.watch, image.as_slice(), stop.script, want)
}

fn are_told(alloc: Global, stops: &[Stop]) -> Result<(), Fail> {
    for stop in stops {
        is_told(alloc, stop)?;
    }
    Ok(())
}

#[test]
fn stops_are_told(rt: HostRuntime) -> Result<(), Fail> {
    are_told(rt.alloc(), STOPS)
}
