//! Worked programs: reports, logs and bounds that were found by hand.

/// A program with a script, and what `go` puts: all of it, or the log behind the report.
pub struct GoCase {
    pub line: &'static str,
    pub program: &'static str,
    pub script: &'static str,
    pub status: u8,
    pub put: Put,
}

/// Lines, parted by bars.
pub enum Put {
    All(&'static str),
    Log(&'static str),
    Report(&'static str),
}

/// Runs of several processes.
const SEVERAL: &[GoCase] = &[
    GoCase {
        line: "go P I S",
        program: "program b device a : out process p1 : periodic frame 20 begin put a 1 end p1 process p2 : periodic frame 60 begin put a 2 end p2 end b",
        script: "end 60",
        status: 0,
        put: Put::All(
            "program b|process p1 frame 20 rank 1 cost 15 suspend 0 waits 0 block 0 bound 15 data 0 stack 1|process p2 frame 60 rank 2 cost 15 suspend 0 waits 0 block 0 bound 60 data 0 stack 1|code 6|timely|0 p1 release|0 p2 release|10 p1 put a 1|14 p1 end|20 p1 release|30 p1 put a 1|34 p1 end|40 p1 release|50 p1 put a 1|54 p1 end|55 p2 put a 2|59 p2 end",
        ),
    },
    GoCase {
        line: "go P I S",
        program: "program b device a : out process p1 : periodic frame 20 begin put a 1 end p1 process p2 : periodic frame 59 begin put a 2 end p2 end b",
        script: "end 60",
        status: 3,
        put: Put::All(
            "program b|process p1 frame 20 rank 1 cost 15 suspend 0 waits 0 block 0 bound 15 data 0 stack 1|process p2 frame 59 rank 2 cost 15 suspend 0 waits 0 block 0 bound none data 0 stack 1|code 6|untimely p2",
        ),
    },
    GoCase {
        line: "go P I S",
        program: "program b device a : out process p : periodic frame 30 begin put a 1 end p process q : periodic frame 30 begin put a 2 end q end b",
        script: "end 30",
        status: 0,
        put: Put::All(
            "program b|process p frame 30 rank 1 cost 15 suspend 0 waits 0 block 0 bound 15 data 0 stack 1|process q frame 30 rank 2 cost 15 suspend 0 waits 0 block 0 bound 30 data 0 stack 1|code 6|timely|0 p release|0 q release|10 p put a 1|14 p end|25 q put a 2|29 q end",
        ),
    },
    GoCase {
        line: "go P I S",
        program: "program c device a : out monitor m var n : int entry procedure e() begin n := n + 1 end e end m process l : periodic frame 200 begin m.e() end l process u : periodic frame 100 first activation atTime 12 begin m.e() end u process h : periodic frame 90 first activation atTime 14 begin put a 1 end h end c",
        script: "end 90",
        status: 0,
        put: Put::Log(
            "0 l release|10 l enter m|12 u release|14 h release|24 h put a 1|28 h end|37 l leave m|48 u enter m|60 u leave m|68 u end|76 l end",
        ),
    },
    GoCase {
        line: "go P I S",
        program: "program d device a : out monitor m condition c entry procedure w() begin wait c noLongerThan 30 : 10 end w entry procedure s() begin signal c end s end m process p : periodic frame 200 begin m.w() handler (10) put a 1 end p process q : periodic frame 300 first activation atTime 31 begin m.s() end q end d",
        script: "end 100",
        status: 0,
        put: Put::Log(
            "0 p release|10 p enter m|16 p wait m c|31 q release|41 q enter m|46 q signal m c p|49 q leave m|53 p enter m|56 p leave m|64 p end|72 q end",
        ),
    },
    GoCase {
        line: "go P I S",
        program: "program d device a : out monitor m condition c entry procedure w() begin wait c noLongerThan 30 : 10 end w entry procedure s() begin signal c end s end m process p : periodic frame 200 begin m.w() handler (10) put a 1 end p process q : periodic frame 300 first activation atTime 32 begin m.s() end q end d",
        script: "end 100",
        status: 0,
        put: Put::Log(
            "0 p release|10 p enter m|16 p wait m c|32 q release|42 q enter m|47 p timeout m c 10|47 q signal m c -|50 q leave m|61 p put a 1|65 p end|73 q end",
        ),
    },
    GoCase {
        line: "go P I S 3",
        program: "program d device a : out monitor m condition c entry procedure w() begin wait c noLongerThan 30 : 10 end w entry procedure s() begin signal c end s end m process p : periodic frame 200 begin m.w() handler (10) put a 1 end p process q : periodic frame 300 first activation atTime 31 begin m.s() end q end d",
        script: "end 100",
        status: 0,
        put: Put::Log(
            "0 p release|16 p enter m|22 p wait m c|31 q release|47 q enter m|52 q signal m c p|55 q leave m|65 p enter m|68 p leave m|76 p end|84 q end",
        ),
    },
    GoCase {
        line: "go P I S",
        program: "program g monitor m var n : int entry procedure e() begin n := n + 1 end e end m monitor k condition c entry procedure w() begin wait c noLongerThan 150 : 10 end w end k process a : periodic frame 60 begin m.e() end a process b : periodic frame 800 begin k.w() end b process l : periodic frame 900 begin for i : 1 .. 5 do m.e() end for end l end g",
        script: "end 278",
        status: 0,
        put: Put::Log(
            "0 a release|0 b release|0 l release|10 a enter m|22 a leave m|30 a end|41 b enter k|47 b wait k c|60 a release|70 a enter m|82 a leave m|90 a end|94 l enter m|106 l leave m|120 a release|130 a enter m|142 a leave m|150 a end|162 l enter m|174 l leave m|180 a release|190 a enter m|198 b timeout k c 10|202 a leave m|210 a end|214 b end|234 l enter m|240 a release|246 l leave m|257 a enter m|269 a leave m|277 a end",
        ),
    },
];

/// Runs, refusals and bounds, most of them of one process.
const SINGLE: &[GoCase] = &[
    GoCase {
        line: "go P I S",
        program: "program a process p : periodic frame 10 var x : int begin x := 2147483647 + 1 end p end a",
        script: "end 10",
        status: 0,
        put: Put::Log("0 p release|3 p raise 1|7 p end"),
    },
    GoCase {
        line: "go P I S",
        program: "program a process p : periodic frame 30 var x : int begin x := (-2147483647 - 1) div (-1) end p end a",
        script: "end 30",
        status: 0,
        put: Put::Log("0 p release|20 p raise 1|24 p end"),
    },
    GoCase {
        line: "go P I S",
        program: "program a process p : periodic frame 10 var x : int begin x := 2147483648 end p end a",
        script: "end 10",
        status: 2,
        put: Put::All("E2 1:64"),
    },
    GoCase {
        line: "go P I S",
        program: "program a monitor m entry procedure r() begin except 12 end r entry procedure e() begin end e end m process p : periodic frame 100 begin m.r() end p process q : periodic frame 200 begin m.e() end q end a",
        script: "end 50",
        status: 0,
        put: Put::Log(
            "0 p release|0 q release|10 p enter m|14 p raise 12|18 p end|29 q enter m|32 q leave m|40 q end",
        ),
    },
    GoCase {
        line: "check P",
        program: "program a process p : periodic frame 1000000000 begin for i : 1 .. 1000000 do for j : 1 .. 1000000 do end for end for end p end a",
        script: "end 1",
        status: 3,
        put: Put::All(
            "program a|process p frame 1000000000 rank 1 cost over suspend 0 waits 0 block 0 bound none data 0 stack 6|code 17|untimely p",
        ),
    },
    GoCase {
        line: "go P I S",
        program: "program a device valve : out event e process p : atEvent e frame 15 begin put valve 7 end p end a",
        script: "0 event e|15 event e|end 30",
        status: 0,
        put: Put::Log(
            "0 p release|10 p put valve 7|14 p end|15 p release|25 p put valve 7|29 p end",
        ),
    },
    GoCase {
        line: "go P I S",
        program: "program a device valve : out event e process p : atEvent e frame 15 begin put valve 7 end p end a",
        script: "0 event e|14 event e|end 30",
        status: 5,
        put: Put::All("S4 2 0 14"),
    },
    GoCase {
        line: "go P I S",
        program: "program a device valve : out event e process p : atEvent e frame 15 begin put valve 7 end p end a",
        script: "30 event e|end 30",
        status: 5,
        put: Put::All("S3 2"),
    },
    GoCase {
        line: "go P I S",
        program: "program b device a : out process p : periodic frame 30 var x : 0 .. 9 begin x := 10 handler (3) put a 1 end p end b",
        script: "end 30",
        status: 0,
        put: Put::Log("0 p release|3 p raise 3|14 p put a 1|18 p end"),
    },
    GoCase {
        line: "go P I S 1",
        program: "program a device valve : out process p : periodic frame 17 begin put valve 7 end p end a",
        script: "end 17",
        status: 0,
        put: Put::All(
            "program a|process p frame 17 rank 1 cost 17 suspend 0 waits 0 block 0 bound 17 data 0 stack 1|code 3|timely|0 p release|12 p put valve 7|16 p end",
        ),
    },
    GoCase {
        line: "check P",
        program: "program a procedure f() var t : array 1 .. 4097 of int begin end f process p : periodic frame 30 begin f() end p end a",
        script: "end 1",
        status: 2,
        put: Put::All("E47 1:21"),
    },
    GoCase {
        line: "go P I S",
        program: "program b device a : out process p : periodic frame 100 begin put a 1 end p process q : periodic frame 200 deadline 20 begin put a 2 end q end b",
        script: "end 60",
        status: 0,
        put: Put::All(
            "program b|process p frame 100 rank 2 cost 15 suspend 0 waits 0 block 0 bound 30 data 0 stack 1|process q frame 200 deadline 20 rank 1 cost 15 suspend 0 waits 0 block 0 bound 15 data 0 stack 1|code 6|timely|0 p release|0 q release|10 q put a 2|14 q end|25 p put a 1|29 p end",
        ),
    },
    GoCase {
        line: "check P",
        program: "program b device a : out process p : periodic frame 100 begin put a 1 end p process q : periodic frame 200 deadline 14 begin put a 2 end q end b",
        script: "end 60",
        status: 3,
        put: Put::All(
            "program b|process p frame 100 rank 2 cost 15 suspend 0 waits 0 block 0 bound 30 data 0 stack 1|process q frame 200 deadline 14 rank 1 cost 15 suspend 0 waits 0 block 0 bound none data 0 stack 1|code 6|untimely q",
        ),
    },
];

/// What the slack of programs is.
const SLACKS: &[GoCase] = &[
    GoCase {
        line: "slack P",
        program: "program a device valve : out process p : periodic frame 20 begin put valve 7 end p end a",
        script: "end 1",
        status: 0,
        put: Put::All("slack p 5 bounds 20 fails p"),
    },
    GoCase {
        line: "slack P 1",
        program: "program a device valve : out process p : periodic frame 20 begin put valve 7 end p end a",
        script: "end 1",
        status: 0,
        put: Put::All("slack p 3 bounds 20 fails p"),
    },
    GoCase {
        line: "slack P",
        program: "program b device a : out process p1 : periodic frame 20 begin put a 1 end p1 process p2 : periodic frame 60 begin put a 2 end p2 end b",
        script: "end 1",
        status: 0,
        put: Put::All("slack p1 0 bounds 15 60 fails p2|slack p2 0 bounds 15 60 fails p2"),
    },
    GoCase {
        line: "slack P 0",
        program: "program b device a : out process p1 : periodic frame 20 begin put a 1 end p1 process p2 : periodic frame 100 begin put a 2 end p2 end b",
        script: "end 1",
        status: 0,
        put: Put::All("slack p1 2 bounds 17 100 fails p2|slack p2 10 bounds 15 100 fails p2"),
    },
    GoCase {
        line: "slack P",
        program: "program b device a : out process p : periodic frame 100 begin put a 1 end p process q : periodic frame 200 deadline 20 begin put a 2 end q end b",
        script: "end 1",
        status: 0,
        put: Put::All("slack p 70 bounds 100 15 fails p|slack q 5 bounds 35 20 fails q"),
    },
    GoCase {
        line: "slack P",
        program: "program b device a : out process p1 : periodic frame 20 begin put a 1 end p1 process p2 : periodic frame 59 begin put a 2 end p2 end b",
        script: "end 1",
        status: 3,
        put: Put::All(
            "program b|process p1 frame 20 rank 1 cost 15 suspend 0 waits 0 block 0 bound 15 data 0 stack 1|process p2 frame 59 rank 2 cost 15 suspend 0 waits 0 block 0 bound none data 0 stack 1|code 6|untimely p2",
        ),
    },
    GoCase {
        line: "slack P",
        program: "program a process p : periodic frame 10 var x : int begin x := 2147483648 end p end a",
        script: "end 1",
        status: 2,
        put: Put::All("E2 1:64"),
    },
];

/// The pump of the mine.
const MINES: &[GoCase] = &[
    GoCase {
        line: "check P",
        program: MINE,
        script: "end 1",
        status: 0,
        put: Put::Report(MINE_REPORT),
    },
    GoCase {
        line: "go P I S",
        program: MINE,
        script: "0 set methane 40|0 set air 50|end 88",
        status: 0,
        put: Put::Log(MINE_LOG),
    },
];

// Each table is named in a function of its own: a table is dear to name, by the square of its
// length.

pub fn several_cases() -> &'static [GoCase] {
    SEVERAL
}

pub fn single_cases() -> &'static [GoCase] {
    SINGLE
}

pub fn slack_cases() -> &'static [GoCase] {
    SLACKS
}

pub fn mine_cases() -> &'static [GoCase] {
    MINES
}

/// Control of a mine's pump.
pub const MINE: &str = "program mine
device level : in  device methane : in  device air : in
device pump : out  device alarm : out  device panel : out
event high
monitor motor var on : boolean var safe : boolean
entry procedure gas(ok : boolean) begin
  safe := ok  if not ok then on := false put pump 0 end if end gas
entry function start() returns boolean begin
  if safe then on := true put pump 1 end if return on end start
end motor
monitor box var last : 0 .. 1000 condition fresh
entry procedure store(v : 0 .. 1000) begin
  last := v broadcast fresh end store
entry function fetch() returns int begin
  wait fresh noLongerThan 900 : 20 return last end fetch
end box
process gasWatch : periodic frame 800 var m : 0 .. 1000 begin
  get methane m motor.gas(m < 100) box.store(m)
  handler (3) motor.gas(false) put alarm 1 end gasWatch
process airWatch : periodic frame 1000 var a : int begin
  get air a if a < 20 then put alarm 2 end if end airWatch
process flow : atEvent high frame 2000 var b : boolean begin
  b := motor.start() if not b then put alarm 3 end if end flow
process shower : periodic frame 3000 var n : int begin
  n := box.fetch() put panel n handler (20) put alarm 4 end shower
process tally : periodic frame 10000
  var t : array 0 .. 9 of int var s : int begin
  get level s for i : 0 .. 9 do t[i] := t[i] + s end for end tally
process selfTest : periodic frame 60000 begin
  box.store(0) put panel 0 end selfTest
end mine
";

pub const MINE_REPORT: &str =
    "program mine|process gasWatch frame 800 rank 1 cost 160 suspend 0 waits 0 block 27 bound 187 data 1 stack 4|process airWatch frame 1000 rank 2 cost 35 suspend 0 waits 0 block 27 bound 222 data 1 stack 2|process flow frame 2000 rank 3 cost 65 suspend 0 waits 0 block 16 bound 276 data 1 stack 3|process shower frame 3000 rank 4 cost 60 suspend 900 waits 1 block 16 bound 1447 data 1 stack 3|process tally frame 10000 rank 5 cost 281 suspend 0 waits 0 block 16 bound 1888 data 11 stack 5|process selfTest frame 60000 rank 6 cost 50 suspend 0 waits 0 block 0 bound 1906 data 0 stack 4|monitor motor ceiling 1 words 2|monitor box ceiling 1 words 1|code 103|timely";

pub const MINE_LOG: &str =
    "0 gasWatch release|0 airWatch release|0 shower release|0 tally release|0 selfTest release|9 gasWatch get methane 40|30 gasWatch enter motor|43 gasWatch leave motor|63 gasWatch enter box|76 gasWatch broadcast box fresh 0|79 gasWatch leave box|87 gasWatch end";
