//! Runs in letters.

use std::alloc::Global;
use std::test::Fail;
use tests_calls::{Expected, MINE, VALVE, answers_on_image, image_of};

/// Three processes, of which the lowest is in a monitor that the next one enters.
const BLOCK: &str =
    "program c device a : out monitor m var n : int entry procedure e() begin n := n + 1 end e end m process l : periodic frame 200 begin m.e() end l process u : periodic frame 100 first activation atTime 12 begin m.e() end u process h : periodic frame 90 first activation atTime 14 begin put a 1 end h end c";

/// A process that waits in a monitor, and one that signals there.
const WAIT: &str =
    "program d device a : out monitor m condition c entry procedure w() begin wait c noLongerThan 30 : 10 end w entry procedure s() begin signal c end s end m process p : periodic frame 200 begin m.w() handler (10) put a 1 end p process q : periodic frame 300 first activation atTime 31 begin m.s() end q end d";

/// A chart of the run of a program that is compiled with an overhead, and its lines.
struct Chart {
    program: &'static str,
    compile: &'static str,
    script: &'static str,
    chart: &'static str,
    status: u8,
    put: &'static str,
}

const CHARTS: &[Chart] = &[
    Chart {
        program: BLOCK,
        compile: "compile P I",
        script: "end 90\n",
        chart: "chart I S 0 90",
        status: 0,
        put: "tick  0         10        20        30        40        50        60        70        80          column 1\nh                   ###############                                                               ended 1 longest 15 bound 15\nu                 ..........................###########mmmmmmmmmmmm########                       ended 1 longest 57 bound 58\nl     ###########mmm...............mmmmmmmmm...............................########               ended 1 longest 77 bound 77\n",
    },
    Chart {
        program: BLOCK,
        compile: "compile P I",
        script: "end 90\n",
        chart: "chart I S 0 1000000000",
        status: 0,
        put: "tick  0         10        20        30        40        50        60        70        80          column 1\nh                   ###############                                                               ended 1 longest 15 bound 15\nu                 ..........................###########mmmmmmmmmmmm########                       ended 1 longest 57 bound 58\nl     ###########mmm...............mmmmmmmmm...............................########               ended 1 longest 77 bound 77\n",
    },
    Chart {
        program: BLOCK,
        compile: "compile P I",
        script: "end 90\n",
        chart: "chart I S 25 35",
        status: 0,
        put: "tick  25          column 1\nh     ####        ended 1 longest 15 bound 15\nu     ..........  ended 0 longest none bound 58\nl     ....mmmmmm  ended 0 longest none bound 77\n",
    },
    Chart {
        program: BLOCK,
        compile: "compile P I",
        script: "end 90\n",
        chart: "chart I S 90 91",
        status: 0,
        put: "tick    column 1\nh       ended 0 longest none bound 15\nu       ended 0 longest none bound 58\nl       ended 0 longest none bound 77\n",
    },
    Chart {
        program: BLOCK,
        compile: "compile P I",
        script: "end 101\n",
        chart: "chart I S 0 1000",
        status: 0,
        put: "tick  0         20        40        60        80        100  column 2\nh            ########                                        ended 1 longest 15 bound 15\nu           .............#####mmmmmmm####                    ended 1 longest 57 bound 58\nl     #####mm.......mmmmm...............#####                ended 1 longest 77 bound 77\n",
    },
    Chart {
        program: WAIT,
        compile: "compile P I 2",
        script: "end 100\n",
        chart: "chart I S 0 100",
        status: 0,
        put: "tick  0         10        20        30        40        50        60        70        80        90          column 1\np     oooo###########mmmmmmwwwwwwwwwwwwwwwwwwwwwwwwwwwwww...oooo####mmm########                             ended 1 longest 73 bound 97\nq                                    oooo###########mmmmmmmm...................########                     ended 1 longest 50 bound 112\n",
    },
    Chart {
        program: MINE,
        compile: "compile P I",
        script: "0 set methane 40\n0 set air 50\n0 set level 3\nend 5600\n",
        chart: "chart I S 0 1000",
        status: 0,
        put: "tick      0         100       200       300       400       500       600       700       800       900         column 10\ngasWatch  ###mm#mm#                                                                       ###mm#mm#             ended 2 longest 88 bound 187\nairWatch  ........####                                                                                          ended 1 longest 111 bound 222\nflow                                                                                                            ended 0 longest none bound 276\nshower    ...........#mwwwwwwwwwwwwwwwwwwwwwwwwwwwwww.m###                                                      ended 1 longest 472 bound 1447\ntally     ............#############################                                                             ended 1 longest 409 bound 1888\nselfTest  ........................................##mm...###                                                    ended 1 longest 491 bound 1906\n",
    },
    Chart {
        program: VALVE,
        compile: "compile P I",
        script: "end 5",
        chart: "chart I S 0 9",
        status: 5,
        put: "S1 1\n",
    },
];

/// The image of the program has this chart.
fn is_drawn(alloc: Global, row: &Chart) -> Result<(), Fail> {
    let image = image_of(alloc, row.compile, row.program.as_bytes(), None)?;
    let want = Expected {
        status: row.status,
        put: row.put,
        puts: Some(1),
    };
    answers_on_image(alloc, row.chart, image.as_slice(), row.script, want)
}

fn are_drawn(alloc: Global, rows: &[Chart]) -> Result<(), Fail> {
    for row in rows {
        is_drawn(alloc, row)?;
    }
    Ok(())
}

#[test]
fn runs_are_drawn(rt: HostRuntime) -> Result<(), Fail> {
    are_drawn(rt.alloc(), CHARTS)
}

#[test]
fn no_image_is_not_drawn(rt: HostRuntime) -> Result<(), Fail> {
    let want = Expected {
        status: 4,
        put: "I2 0\n",
        puts: Some(1),
    };
    answers_on_image(rt.alloc(), "chart I S 0 9", b"", "end 5\n", want)
}
