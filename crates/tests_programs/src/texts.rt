//! Texts and the answers to them.
//!
//! The answer to a text is that of `print`: `ok`, or its fault.

use std::alloc::Global;
use std::test::Fail;
use tests_calls::{CallResult, Expected, answers, call};

/// What stands before and behind the text of a row.
pub(crate) struct Around {
    pub(crate) before: &'static str,
    pub(crate) after: &'static str,
}

/// A row is a whole text.
const NOTHING: Around = Around {
    before: "",
    after: "",
};

/// A row is what follows an assignment's sign, from column 64 on, up to the text's end.
const ASSIGNED: Around = Around {
    before: "program a process p : periodic frame 90 var x : int begin x := ",
    after: "",
};

/// Deadlines, and texts that are none of the grammar.
const TEXTS: &[(&str, &str)] = &[
    (
        "ok",
        "program a process p : periodic frame 20 deadline 15 begin end p end a",
    ),
    (
        "E36 1:50",
        "program a process p : periodic frame 20 deadline 21 begin end p end a",
    ),
    (
        "E36 1:50",
        "program a process p : periodic frame 20 deadline 9 begin end p end a",
    ),
    (
        "E36 1:50",
        "program a process p : periodic frame 20 deadline -10 begin end p end a",
    ),
    (
        "E36 1:38",
        "program a process p : periodic frame 9 deadline 9 begin end p end a",
    ),
    (
        "E36 1:51",
        "program a process p : periodic frame 100 deadline 9 first activation atTime -1 begin end p end a",
    ),
    (
        "E36 1:59",
        "program a event e process p : atEvent e frame 20 deadline 21 begin end p end a",
    ),
    (
        "E20 1:50",
        "program a process p : periodic frame 20 deadline d begin end p end a",
    ),
    (
        "E22 1:50",
        "program a process p : periodic frame 20 deadline a begin end p end a",
    ),
    (
        "E22 1:64",
        "program a const d := 15 process p : periodic frame 20 deadline d var d : int begin end p end a",
    ),
    (
        "ok",
        "program a const deadline := 15 process p : periodic frame deadline begin end p end a",
    ),
    (
        "ok",
        "program a const deadline := 15 process p : periodic frame deadline deadline deadline begin end p end a",
    ),
    (
        "ok",
        "program a process deadline : periodic frame 20 deadline 15 begin end deadline end a",
    ),
    (
        "ok",
        "program a process p : periodic frame 20 var deadline : int begin deadline := 1 end p end a",
    ),
    (
        "ok",
        "program a procedure deadline() begin end deadline process p : periodic frame 20 deadline 15 begin deadline() end p end a",
    ),
    (
        "E10 1:50",
        "program a process p : periodic frame 20 deadline begin end p end a",
    ),
    (
        "E10 1:53",
        "program a process p : periodic frame 20 deadline 15 deadline 15 begin end p end a",
    ),
    (
        "E10 1:67",
        "program a process p : periodic frame 20 first activation atTime 0 deadline 15 begin end p end a",
    ),
    ("E10 1:1", ""),
    ("E10 1:11", "program a begin end a"),
    ("E10 1:18", "program a process"),
    ("E10 1:9", "program end"),
    ("E1 1:9", "program ; begin"),
    ("E1 1:11", "program a ;"),
    (
        "E10 1:59",
        "program a process p : periodic frame 10 begin end p end a end",
    ),
    (
        "E10 1:9",
        "program out process p : periodic frame 10 begin end p end out",
    ),
];

/// Whole programs, one rule for each.
const WHOLE: &[(&str, &str)] = &[
    (
        "E20 1:95",
        "program a monitor m entry procedure e() begin end e end m process p : periodic frame 10 begin e() end p end a",
    ),
    (
        "E20 1:85",
        "program a procedure f() var x : int begin end f process p : periodic frame 10 begin x := 1 end p end a",
    ),
    (
        "E20 1:91",
        "program a procedure x() begin end x monitor m end m process p : periodic frame 10 begin m.x() end p end a",
    ),
    (
        "E20 1:38",
        "program a process p : periodic frame k begin end p end a",
    ),
    (
        "E21 1:65",
        "program a process p : periodic frame 10 var x : int procedure f(x : int) begin end f begin end p end a",
    ),
    (
        "E21 1:66",
        "program a const k := 1 process p : periodic frame 1000 begin for k : 1 .. 2 do end for end p end a",
    ),
    (
        "E21 1:59",
        "program a process p : periodic frame 10 procedure f() var p : int begin end f begin end p end a",
    ),
    (
        "E22 1:65",
        "program a process p : periodic frame 100 var y : int begin y := x end p const x := 1 device x : in end a",
    ),
    (
        "E21 1:35",
        "program a monitor m end m process m : periodic frame 10 begin end m end a",
    ),
    (
        "E22 1:65",
        "program a process p : periodic frame 10 begin for i : 1 .. 2 do i := 1 for i : 1 .. 2 do end for end for end p end a",
    ),
    (
        "E22 1:52",
        "program a const k := 50 process p : periodic frame k procedure k() begin end k begin end p end a",
    ),
    (
        "E22 1:60",
        "program a const k := 1 process p : periodic frame 10 begin k := 1 end p end a",
    ),
    (
        "E23 1:61",
        "program a process zz : periodic frame 1000 begin end zz end b",
    ),
    (
        "E23 1:65",
        "program a process p : periodic frame 10 procedure f() begin end p begin end p end a",
    ),
    (
        "E30 1:85",
        "program a process p : periodic frame 100 procedure f(v : boolean) begin end f begin f(1) end p end a",
    ),
    (
        "E31 1:21",
        "program a procedure f() begin g() end f procedure g() begin f() end g process p : periodic frame 10 begin end p end a",
    ),
    (
        "E35 1:60",
        "program a process p : periodic frame 10 begin handler (10, 010) end p end a",
    ),
    (
        "E35 1:62",
        "program a process p : periodic frame 10 begin handler (1, 2, 2, 1) end p end a",
    ),
    (
        "ok",
        "program a process p : periodic frame 1000000000 begin end p end a",
    ),
    (
        "E36 1:47",
        "program a event e process p : atEvent e frame 9 begin end p end a",
    ),
    (
        "ok",
        "program a process p : periodic frame 10 first activation atTime 0 begin end p end a",
    ),
    (
        "E36 1:38",
        "program a process p : periodic frame 9 first activation atTime -1 begin end p end a",
    ),
    (
        "ok",
        "program a event e process p : atEvent e frame 1000000000 begin end p end a",
    ),
    (
        "ok",
        "program a event e process p : atEvent e frame 10 begin end p end a",
    ),
    (
        "E36 1:39",
        "program a process p : atEvent e frame 9 begin end p process q : atEvent e frame 10 begin end q event e end a",
    ),
    (
        "E38 1:73",
        "program a device d : in process p : periodic frame 10 begin handler (1) put d 1 end p end a",
    ),
    (
        "E39 1:59",
        "program a process p : periodic frame 10 begin handler (4, 5) end p end a",
    ),
    (
        "E39 1:56",
        "program a process p : periodic frame 10 begin handler (-1) end p end a",
    ),
    ("E40 1:9", "program a end a"),
    (
        "E44 1:55",
        "program a process p : periodic frame 10 var t : array 1 .. 1048576 of int begin end p end a",
    ),
    (
        "E43 1:9",
        "program a process p : periodic frame 10 var t : array -2147483647 .. 2147483647 of int begin end p end a",
    ),
    (
        "E44 1:55",
        "program a process p : periodic frame 10 var t : array 0 .. 65536 of int begin end p end a",
    ),
    (
        "E10 1:66",
        "program a process p : periodic frame 10 begin x := 1 end p end a end",
    ),
    (
        "E36 1:38",
        "program a process p : periodic frame 9 var x : 5 .. 4 begin except 9 end p end a",
    ),
    (
        "E30 1:59",
        "program a process p : periodic frame 10 var x : int begin x := true except 9 end p end a",
    ),
];

/// Where the words stop beginning a program, and where one opens level 65.
const OPEN_TEXTS: &[(&str, &str)] = &[
    (
        "E11 1:128",
        "(((((((((((((((((((((((((((((((((((((((((((((((((((((((((((((((((",
    ),
    (
        "E10 1:128",
        "(((((((((((((((((((((((((((((((((((((((((((((((((((((((((((((((()",
    ),
    ("E10 1:70", "1 end end p end a"),
];

/// The text is one of the language, which is told as one piece.
fn is_accepted(text: &str, made: &CallResult) -> Result<(), Fail> {
    if made.status == 0 && made.puts == 1 {
        return Ok(());
    }
    Err(Fail::new(format_args!("status {}: {text}", made.status)))
}

/// The text has this fault, put as one piece.
fn has_fault(alloc: Global, text: &str, fault: &str) -> Result<(), Fail> {
    let line = format!(in alloc; "{fault}\n")?;
    let want = Expected {
        status: 2,
        put: line.as_str(),
        puts: Some(1),
    };
    answers(alloc, "print P", text.as_bytes(), None, want)
}

/// The text has its answer: its fault, or `ok`.
fn has_answer(alloc: Global, text: &str, answer: &str) -> Result<(), Fail> {
    if answer != "ok" {
        return has_fault(alloc, text, answer);
    }
    let made = call(alloc, "print P", text.as_bytes(), None)?;
    is_accepted(text, &made)
}

fn part_has_answer(alloc: Global, around: &Around, row: &(&str, &str)) -> Result<(), Fail> {
    let (answer, part) = *row;
    let text = format!(in alloc; "{}{part}{}", around.before, around.after)?;
    has_answer(alloc, text.as_str(), answer)
}

/// Each text of the table has its answer.
pub(crate) fn have_answers(
    alloc: Global,
    around: &Around,
    rows: &[(&str, &str)],
) -> Result<(), Fail> {
    for row in rows {
        part_has_answer(alloc, around, row)?;
    }
    Ok(())
}

#[test]
fn texts_have_answers(rt: HostRuntime) -> Result<(), Fail> {
    have_answers(rt.alloc(), &NOTHING, TEXTS)
}

#[test]
fn open_texts_have_answers(rt: HostRuntime) -> Result<(), Fail> {
    have_answers(rt.alloc(), &ASSIGNED, OPEN_TEXTS)
}

#[test]
fn whole_programs_have_answers(rt: HostRuntime) -> Result<(), Fail> {
    have_answers(rt.alloc(), &NOTHING, WHOLE)
}
