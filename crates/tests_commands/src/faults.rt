//! Messages for texts that fail a rule for names, or another static rule.

use crate::messages::is_told;
use std::alloc::Global;
use std::test::Fail;
use tests_calls::{NO_FAILURES, told};

/// A text, and what `check` tells of it.
struct Row {
    text: &'static str,
    told: &'static str,
}

/// Of names and types.
const NAMES: &[Row] = &[
    Row {
        text: "program a\ndevice d : out\nprocess p : periodic frame 100\nvar x : int\nbegin\nput D 1\nend p\nend a\n",
        told: "P:6:5: E20: `D` is declared nowhere in reach
      6 | put D 1
        |     ^
        = the nearest name in reach is `d`:
      2 | device d : out
        |        ^
",
    },
    Row {
        text: "program a\ndevice d : out\nprocess p : periodic frame 100\nvar x : int\nbegin\nput d true\nend p\nend a\n",
        told: "P:6:1: E30: `put` to `d`: wanted a number, found a boolean
      6 | put d true
        | ^^^
",
    },
];

/// Of calls, and of what stands where it may not.
const CALLS: &[Row] = &[
    Row {
        text: "program a\ndevice d : out\nprocedure q() begin put d 1 end q\nprocedure f() begin q() f() end f\nprocess p : periodic frame 100 begin f() end p\nend a\n",
        told: "P:4:11: E31: `f` reaches itself through its call of `f`
      4 | procedure f() begin q() f() end f
        |           ^
        = no routine calls itself, nor through others; write a loop
",
    },
    Row {
        text: "program a\ndevice d : out\nprocess p : periodic frame 100\nvar b : boolean\nbegin\nexit when b\nend p\nend a\n",
        told: "P:6:1: E34: `exit` stands outside a loop
      6 | exit when b
        | ^^^^
",
    },
    Row {
        text: "program a\nmonitor m\ncondition c\nentry procedure w() begin wait c noLongerThan 5 : 10 end w\nend m\nprocess p : periodic frame 100 begin handler (1) m.w() end p\nend a\n",
        told: "P:6:9: E35: the handler of `p` reaches a `wait`
      6 | process p : periodic frame 100 begin handler (1) m.w() end p
        |         ^
        = no handler waits, and each lists a number once
",
    },
    Row {
        text: "program a\ndevice d : in\nprocess p : periodic frame 100\nvar x : int\nbegin\nput d 1\nend p\nend a\n",
        told: "P:6:1: E38: `put` gives to an `out` device; `d` is an `in` device
      6 | put d 1
        | ^^^
",
    },
];

fn tells(alloc: Global, row: &Row) -> Result<(), Fail> {
    let message = told(alloc, "check P", &[("P", row.text)], NO_FAILURES)?;
    is_told(row.text, message.as_str(), row.told)
}

fn tell(alloc: Global, rows: &[Row]) -> Result<(), Fail> {
    for row in rows {
        tells(alloc, row)?;
    }
    Ok(())
}

#[test]
fn names_and_types_are_told_of(rt: HostRuntime) -> Result<(), Fail> {
    tell(rt.alloc(), NAMES)
}

#[test]
fn calls_and_statements_are_told_of(rt: HostRuntime) -> Result<(), Fail> {
    tell(rt.alloc(), CALLS)
}
