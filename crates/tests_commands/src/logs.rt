//! Messages for logs that are those of no run.

use crate::messages::is_told;
use std::alloc::Global;
use std::test::Fail;
use tests_calls::{NO_FAILURES, VALVE, told};

/// The program that opens a valve, with a longer frame.
const SLOW: &str =
    "program a device valve : out process p : periodic frame 100 begin put valve 7 end p end a";

/// A program, a script and a log, and what `replay` tells of them.
struct Row {
    program: &'static str,
    script: &'static str,
    log: &'static str,
    told: &'static str,
}

/// Of acts.
const ACTS: &[Row] = &[
    Row {
        program: VALVE,
        script: "end 15\n",
        log: "0 p release\n10 p put valve 8\n",
        told: "L:2:1: L3: this event is not what the program does next
      2 | 10 p put valve 8
        = allowed in this tick is `10 p put valve 7`
",
    },
    Row {
        program: VALVE,
        script: "end 15\n",
        log: "0 p release\n5 p put valve 7\n5 p end\n",
        told: "L:3:1: L3: somebody has acted in tick 5 already
      3 | 5 p end
",
    },
    Row {
        program: VALVE,
        script: "end 15\n",
        log: "0 p release\n5 p put valve 7\n3 p end\n",
        told: "L:3:1: L3: tick 3 is below tick 5, which the log has reached
      3 | 3 p end
",
    },
    Row {
        program: VALVE,
        script: "end 15\n",
        log: "0 p release\n15 p put valve 7\n",
        told: "L:2:1: L3: tick 15 is not below the script's end, 15
      2 | 15 p put valve 7
",
    },
];

/// Of start events.
const STARTS: &[Row] = &[
    Row {
        program: SLOW,
        script: "end 150\n",
        log: "",
        told: "L:1:1: L3: the log ends, and start events below the end of the script are missing
      1 | 
        = due, and not come:
          0 p release
          100 p release
",
    },
    Row {
        program: VALVE,
        script: "end 40\n",
        log: "0 p release\n5 p put valve 7\n9 p end\n20 p put valve 7\n",
        told: "L:4:1: L3: start events that are due before this one are missing
      4 | 20 p put valve 7
        = due, and not come:
          15 p release
",
    },
    Row {
        program: VALVE,
        script: "end 40\n",
        log: "0 p release\n15 p release\n",
        told: "L:2:1: L3: this release finds the process `p` unfinished
      2 | 15 p release
",
    },
    Row {
        program: VALVE,
        script: "end 15\n",
        log: "0 p release\n0 p release\n",
        told: "L:2:1: L3: no start event is due up to tick 0
      2 | 0 p release
        = none is due below the script's end
",
    },
];

fn tells(alloc: Global, row: &Row) -> Result<(), Fail> {
    let given = [("P", row.program), ("S", row.script), ("L", row.log)];
    let message = told(alloc, "replay P S L", &given, NO_FAILURES)?;
    is_told(row.log, message.as_str(), row.told)
}

fn tell(alloc: Global, rows: &[Row]) -> Result<(), Fail> {
    for row in rows {
        tells(alloc, row)?;
    }
    Ok(())
}

#[test]
fn acts_that_are_refused_are_told_of(rt: HostRuntime) -> Result<(), Fail> {
    tell(rt.alloc(), ACTS)
}

#[test]
fn start_events_that_are_missing_are_told_of(rt: HostRuntime) -> Result<(), Fail> {
    tell(rt.alloc(), STARTS)
}
