//! Programs at the limits: most processes, most routines, longest loops, through the top call.

use std::alloc::Global;
use std::fmt::Write;
use std::test::Fail;
use tests_calls::{Expected, answers};

/// Puts so many processes that do nothing, all released at tick 0.
fn put_idle_processes(text: &mut String, count: u64, frame: u64) -> Result<(), Fail> {
    text.push_str("program a")?;
    for k in 0..count {
        write!(
            text,
            " process p{k} : periodic frame {frame} begin end p{k}"
        )?;
    }
    Ok(text.push_str(" end a")?)
}

/// Processes that all have the same frame, cost and stack, and how many of them have a bound.
#[derive(Clone, Copy)]
struct Equals {
    frame: u64,
    cost: u64,
    stack: u64,
    timely: u64,
}

/// Puts the line of one of them: each takes its turn behind those before it.
fn put_row(report: &mut String, equals: Equals, k: u64) -> Result<(), Fail> {
    let Equals {
        frame,
        cost,
        stack,
        timely,
    } = equals;
    let rank = k.saturating_add(1);
    write!(
        report,
        "process p{k} frame {frame} rank {rank} cost {cost} suspend 0 waits 0 block 0 bound "
    )?;
    if k < timely {
        write!(report, "{}", rank.saturating_mul(cost))?;
    } else {
        report.push_str("none")?;
    }
    Ok(write!(report, " data 0 stack {stack}\n")?)
}

/// Puts the report of 64 of them, which ends so.
fn put_report(report: &mut String, equals: Equals, last: &str) -> Result<(), Fail> {
    report.push_str("program a\n")?;
    for k in 0..64 {
        put_row(report, equals, k)?;
    }
    Ok(report.push_str(last)?)
}

/// Idle processes that are timely, just so.
const IDLE: Equals = Equals {
    frame: 256,
    cost: 4,
    stack: 0,
    timely: 64,
};

/// Puts the report and the log of 64 idle processes that are timely.
fn put_idle_run(put: &mut String) -> Result<(), Fail> {
    put_report(put, IDLE, "code 64\ntimely\n")?;
    for k in 0..64 {
        write!(put, "0 p{k} release\n")?;
    }
    for k in 0_u64..64 {
        write!(put, "{} p{k} end\n", 4 * k + 3)?;
    }
    Ok(())
}

/// So many idle processes of a frame have this answer.
fn idle_answers(
    alloc: Global,
    count: u64,
    frame: u64,
    script: &str,
    want: Expected<'_>,
) -> Result<(), Fail> {
    let mut program = String::new(alloc);
    put_idle_processes(&mut program, count, frame)?;
    answers(alloc, "go P I S", program.as_bytes(), Some(script), want)
}

#[test]
fn all_released_at_one_tick(rt: HostRuntime) -> Result<(), Fail> {
    let alloc = rt.alloc();
    let mut put = String::new(alloc);
    put_idle_run(&mut put)?;
    let want = Expected {
        status: 0,
        put: put.as_str(),
        puts: Some(129),
    };
    idle_answers(alloc, 64, 256, "end 256\n", want)
}

/// A tick less, and the last one is late.
#[test]
fn one_tick_less(rt: HostRuntime) -> Result<(), Fail> {
    let alloc = rt.alloc();
    let late = Equals {
        frame: 255,
        timely: 63,
        ..IDLE
    };
    let mut put = String::new(alloc);
    put_report(&mut put, late, "code 64\nuntimely p63\n")?;
    let want = Expected {
        status: 3,
        put: put.as_str(),
        puts: None,
    };
    idle_answers(alloc, 64, 255, "end 9\n", want)
}

/// A process more, and there are too many.
#[test]
fn one_process_more(rt: HostRuntime) -> Result<(), Fail> {
    let want = Expected {
        status: 2,
        put: "E40 1:3007\n",
        puts: None,
    };
    idle_answers(rt.alloc(), 65, 256, "end 9\n", want)
}

/// Puts 64 events, each with a device to which its process puts a number.
fn put_events(text: &mut String) -> Result<(), Fail> {
    text.push_str("program a")?;
    for k in 0..64 {
        write!(text, " event e{k} device d{k} : out")?;
        write!(
            text,
            " process p{k} : atEvent e{k} frame 960 begin put d{k} {k} end p{k}"
        )?;
    }
    Ok(text.push_str(" end a")?)
}

/// Puts the script: all events occur at tick 5, the last one first.
fn put_script(script: &mut String) -> Result<(), Fail> {
    for k in 0_u64..64 {
        write!(script, "5 event e{}\n", 63 - k)?;
    }
    Ok(script.push_str("end 965\n")?)
}

const PUTTING: Equals = Equals {
    frame: 960,
    cost: 15,
    stack: 1,
    timely: 64,
};

/// Puts the report and the log: the processes run by their ranks.
fn put_run(put: &mut String) -> Result<(), Fail> {
    put_report(put, PUTTING, "code 192\ntimely\n")?;
    for k in 0_u64..64 {
        write!(put, "5 p{} release\n", 63 - k)?;
    }
    for k in 0_u64..64 {
        write!(
            put,
            "{} p{k} put d{k} {k}\n{} p{k} end\n",
            15 * k + 15,
            15 * k + 19
        )?;
    }
    Ok(())
}

/// The program over the script has this answer.
fn events_answer(alloc: Global, program: &str, script: &str) -> Result<(), Fail> {
    let mut put = String::new(alloc);
    put_run(&mut put)?;
    let want = Expected {
        status: 0,
        put: put.as_str(),
        puts: Some(193),
    };
    answers(alloc, "go P I S", program.as_bytes(), Some(script), want)
}

#[test]
fn all_events_at_one_tick(rt: HostRuntime) -> Result<(), Fail> {
    let alloc = rt.alloc();
    let mut program = String::new(alloc);
    put_events(&mut program)?;
    let mut script = String::new(alloc);
    put_script(&mut script)?;
    events_answer(alloc, program.as_str(), script.as_str())
}

/// In which order the routines of a chain stand in the text.
#[derive(Clone, Copy)]
enum Order {
    CalledFirst,
    CallerFirst,
}

/// A chain of routines, each of which calls the next one so many times; a call on its program,
/// which has a process of this frame, a script, the status and what is put.
#[derive(Clone, Copy)]
struct Chain {
    routines: u64,
    calls: u64,
    frame: u64,
    line: &'static str,
    script: Option<&'static str>,
    status: u8,
    put: &'static str,
}

const ONCE: Chain = Chain {
    routines: 512,
    calls: 1,
    frame: 5124,
    line: "go P I S",
    script: Some("end 5124\n"),
    status: 0,
    put: "",
};

const OFTEN: Chain = Chain {
    calls: 2,
    frame: 1_000_000_000,
    script: Some("end 1\n"),
    status: 3,
    ..ONCE
};

const REFUSED: Chain = Chain {
    line: "check P",
    script: None,
    status: 2,
    ..OFTEN
};

/// A routine that does nothing costs the 4 ticks of its RET; one that calls it costs 10 more for a
/// call, and takes two words more of the stack.
const CHAINS: &[Chain] = &[
    Chain {
        put: "program a\nprocess p frame 5124 rank 1 cost 5124 suspend 0 waits 0 block 0 bound 5124 data 0 stack 1024\ncode 1025\ntimely\n0 p release\n5123 p end\n",
        ..ONCE
    },
    Chain {
        frame: 5123,
        status: 3,
        put: "program a\nprocess p frame 5123 rank 1 cost 5124 suspend 0 waits 0 block 0 bound none data 0 stack 1024\ncode 1025\nuntimely p\n",
        ..ONCE
    },
    Chain {
        routines: 26,
        status: 0,
        put: "program a\nprocess p frame 1000000000 rank 1 cost 671088634 suspend 0 waits 0 block 0 bound 671088634 data 0 stack 52\ncode 78\ntimely\n0 p release\n",
        ..OFTEN
    },
    Chain {
        routines: 27,
        put: "program a\nprocess p frame 1000000000 rank 1 cost over suspend 0 waits 0 block 0 bound none data 0 stack 54\ncode 81\nuntimely p\n",
        ..OFTEN
    },
    Chain {
        routines: 512,
        put: "program a\nprocess p frame 1000000000 rank 1 cost over suspend 0 waits 0 block 0 bound none data 0 stack 1024\ncode 1536\nuntimely p\n",
        ..OFTEN
    },
    Chain {
        routines: 512,
        calls: 8,
        put: "program a\nprocess p frame 1000000000 rank 1 cost over suspend 0 waits 0 block 0 bound none data 0 stack 1024\ncode 4602\nuntimely p\n",
        ..OFTEN
    },
];

/// Puts the routine that calls the one before it so many times, if there is one.
fn put_link(text: &mut String, number: u64, calls: u64) -> Result<(), Fail> {
    write!(text, " procedure f{number}() begin ")?;
    if let Some(before) = number.checked_sub(1) {
        for _ in 0..calls {
            write!(text, "f{before}() ")?;
        }
    }
    Ok(write!(text, "end f{number}")?)
}

/// Puts the program of a chain.
fn put_chain(text: &mut String, chain: &Chain, order: Order) -> Result<(), Fail> {
    let last = chain.routines.saturating_sub(1);
    text.push_str("program a")?;
    for k in 0..chain.routines {
        let number = match order {
            Order::CalledFirst => k,
            Order::CallerFirst => last.saturating_sub(k),
        };
        put_link(text, number, chain.calls)?;
    }
    let frame = chain.frame;
    Ok(write!(
        text,
        " process p : periodic frame {frame} begin f{last}() end p end a"
    )?)
}

/// The program of the chain has the answer of the row.
fn program_answers(alloc: Global, chain: &Chain, program: &str) -> Result<(), Fail> {
    let want = Expected {
        status: chain.status,
        put: chain.put,
        puts: None,
    };
    answers(alloc, chain.line, program.as_bytes(), chain.script, want)
}

fn chain_answers(alloc: Global, chain: &Chain, order: Order) -> Result<(), Fail> {
    let mut program = String::new(alloc);
    put_chain(&mut program, chain, order)?;
    program_answers(alloc, chain, program.as_str())
}

/// Each chain has its answer in this order.
fn chains_answer(alloc: Global, chains: &[Chain], order: Order) -> Result<(), Fail> {
    for chain in chains {
        chain_answers(alloc, chain, order)?;
    }
    Ok(())
}

#[test]
fn chains_of_routines(rt: HostRuntime) -> Result<(), Fail> {
    chains_answer(rt.alloc(), CHAINS, Order::CalledFirst)
}

#[test]
fn chains_of_routines_that_come_later(rt: HostRuntime) -> Result<(), Fail> {
    chains_answer(rt.alloc(), CHAINS, Order::CallerFirst)
}

/// A routine too many, told at its name, and instructions too many, told at that of the program.
const TOO_LONG: &[Chain] = &[
    Chain {
        routines: 513,
        calls: 1,
        put: "E42 1:19652\n",
        ..REFUSED
    },
    Chain {
        routines: 512,
        calls: 128,
        put: "E46 1:9\n",
        ..REFUSED
    },
];

#[test]
fn chains_that_are_too_long(rt: HostRuntime) -> Result<(), Fail> {
    chains_answer(rt.alloc(), TOO_LONG, Order::CalledFirst)
}

/// Loops of 1,000,000 turns inside one another, so many; the status, and what is put of them.
type Nested = (u64, u8, &'static str);

const LOOPS: &[Nested] = &[
    (
        1,
        0,
        "program a\nprocess p frame 1000000000 rank 1 cost 10000009 suspend 0 waits 0 block 0 bound 10000009 data 0 stack 4\ncode 9\ntimely\n0 p release\n",
    ),
    (
        3,
        3,
        "program a\nprocess p frame 1000000000 rank 1 cost over suspend 0 waits 0 block 0 bound none data 0 stack 8\ncode 25\nuntimely p\n",
    ),
    (
        64,
        3,
        "program a\nprocess p frame 1000000000 rank 1 cost over suspend 0 waits 0 block 0 bound none data 0 stack 130\ncode 513\nuntimely p\n",
    ),
    (65, 2, "E11 1:1709\n"),
];

/// Puts a program of so many loops inside one another.
fn put_loops(text: &mut String, depth: u64) -> Result<(), Fail> {
    text.push_str("program a process p : periodic frame 1000000000 begin")?;
    for k in 0..depth {
        write!(text, " for i{k} : 1 .. 1000000 do")?;
    }
    for _ in 0..depth {
        text.push_str(" end for")?;
    }
    Ok(text.push_str(" end p end a")?)
}

fn loops_answer(alloc: Global, depth: u64, status: u8, put: &str) -> Result<(), Fail> {
    let mut program = String::new(alloc);
    put_loops(&mut program, depth)?;
    let want = Expected {
        status,
        put,
        puts: None,
    };
    answers(alloc, "go P I S", program.as_bytes(), Some("end 1\n"), want)
}

fn all_loops_answer(alloc: Global, rows: &[Nested]) -> Result<(), Fail> {
    for &(depth, status, put) in rows {
        loops_answer(alloc, depth, status, put)?;
    }
    Ok(())
}

#[test]
fn loops_of_a_million_turns(rt: HostRuntime) -> Result<(), Fail> {
    all_loops_answer(rt.alloc(), LOOPS)
}
