//! Declarations and statements, and the answers to the programs around them.

use crate::texts::{Around, have_answers};
use std::test::Fail;

/// A row is the declarations before an idle process.
const IDLE: Around = Around {
    before: "program a ",
    after: " process zz : periodic frame 1000 begin end zz end a",
};

/// A row is the statements of a process, from column 559 on, in reach of every kind of declaration.
const PROCESS: Around = Around {
    before: "program a device di : in device ou : out const k := 5 function fi(v : int) returns int begin return v end fi function fb() returns boolean begin return true end fb procedure pr(v : int, w : boolean) begin end pr monitor m var mv : int condition mc entry procedure ep(v : int) begin end ep entry function ef(v : int) returns int begin return v end ef entry function eb() returns boolean begin return true end eb end m process p : periodic frame 1000 var x : int var b : boolean var s : 0 .. 9 var t : array 1 .. 3 of int var u : array 1 .. 3 of boolean begin ",
    after: " end p end a",
};

/// A row is the statements of an entry, from column 436 on.
const ENTRY: Around = Around {
    before: "program a device di : in device ou : out const k := 5 function fi(v : int) returns int begin return v end fi procedure pr() begin end pr monitor o entry procedure oe() begin end oe entry function of_() returns int begin return 1 end of_ end o monitor m var x : int var b : boolean var t : array 1 .. 3 of int condition c entry function ef() returns int begin return 1 end ef entry procedure e2() begin end e2 entry procedure e() begin ",
    after: " end e end m process zz : periodic frame 1000 begin end zz end a",
};

/// Declarations.
const DECLARATIONS: &[(&str, &str)] = &[
    ("E20 1:22", "const b := c const c := 1"),
    ("E20 1:24", "const b := - c const c := 1"),
    (
        "E20 1:74",
        "monitor m var b : boolean entry procedure e() begin b := empty c end e end m",
    ),
    (
        "E20 1:75",
        "function f() returns int begin for i : 1 .. 2 do end for return i end f",
    ),
    ("E21 1:32", "device d : in device d : out"),
    (
        "E21 1:29",
        "procedure f() var d : int begin end f device d : in",
    ),
    ("E21 1:23", "procedure f(a : int) begin end f"),
    ("E21 1:36", "procedure f(v : int) var v : int begin end f"),
    (
        "E22 1:45",
        "const k := 5 procedure f(v : 0 .. k) var k : int begin end f",
    ),
    (
        "E22 1:61",
        "monitor m var e : int entry procedure f() begin m.e() end f entry procedure e() begin end e end m",
    ),
    (
        "E22 1:42",
        "function f() returns int begin f := 1 return 1 end f",
    ),
    ("E22 1:22", "const k := a"),
    ("E23 1:55", "function f() returns int begin return 1 end g"),
    (
        "E30 1:54",
        "function f() returns int var x : int begin x := true return 1 end f",
    ),
    (
        "E30 1:20",
        "function f() returns int var t : array 1 .. 2 of int begin return t end f",
    ),
    (
        "E31 1:20",
        "function f() returns int var t : array 1 .. 2 of int begin return t[f()] end f",
    ),
    (
        "E31 1:21",
        "procedure f() begin if true then else f() end if end f",
    ),
    (
        "E31 1:36",
        "device d : out procedure f() begin put d g() end f function g() returns int begin f() return 1 end g",
    ),
    (
        "E31 1:37",
        "monitor m entry procedure e() begin f() end e end m procedure f() begin m.e() end f",
    ),
    ("E32 1:36", "procedure f(v : int, w : 3 .. 2) begin end f"),
    ("E32 1:29", "monitor m var v : 1 .. -1 end m"),
    (
        "E38 1:58",
        "device d : out procedure f() var x : int begin get d x end f",
    ),
    (
        "E44 1:35",
        "monitor m var t : array 0 .. 65536 of 1 .. 0 end m",
    ),
    (
        "ok",
        "procedure f() var t : array 1 .. 4094 of int begin t[1] := 1 end f",
    ),
    (
        "ok",
        "procedure f() var x : int var t : array 1 .. 4091 of int begin x := 1 + (2 + (3 + 4)) end f",
    ),
    (
        "ok",
        "monitor m entry function e() returns 0 .. 9 var t : array 1 .. 4095 of int begin return 1 end e end m",
    ),
];

/// Statements of a process.
const STATEMENTS: &[(&str, &str)] = &[
    ("E22 1:566", "get di k"),
    ("E22 1:564", "x := s()"),
    ("E22 1:563", "put x 1"),
    ("E22 1:559", "x.ep(1)"),
    ("E22 1:559", "p()"),
    ("E22 1:559", "di.zz()"),
    ("E22 1:577", "for i : 1 .. 2 do i[1] := 1 end for"),
    (
        "ok",
        "x := 1 s := x x := s x := t[s] b := u[x] t[1] := s u[k] := b and not b b := x = s b := b = b b := b <> true b := x < s get di x get di s get di t[x] put ou s put ou t[x] if b then x := 1 else x := 2 end if for i : 1 .. 3 do exit when i = 2 x := i t[i] := i end for assert b pr(s, b) x := fi(s) b := fb() m.ep(x) s := m.ef(s) t[1] := m.ef(t[2]) u[1] := m.eb() x := - - 3 b := not not b x := (x + 1) * 2 div 3 mod 4 x := -k b := (1 < 2) = true b := (b) or u[1] and true",
    ),
    ("E30 1:559", "b := 1"),
    ("E30 1:559", "t[1] := true"),
    ("E30 1:559", "x := t"),
    ("E30 1:559", "x := k[1]"),
    ("E30 1:569", "if b then x := true end if"),
    ("E30 1:577", "for i : 1 .. 2 do exit when i end for"),
    ("E30 1:559", "b := b and 1"),
    ("E30 1:559", "pr(b, b)"),
    ("E30 1:559", "x := fi(true)"),
    ("E30 1:559", "x := m.ef(b)"),
    ("E30 1:559", "get di b"),
    ("E30 1:559", "b := b or b or 1"),
    ("E30 1:559", "b := not 1 = 2"),
    ("E30 1:559", "if u then end if"),
    ("E32 1:567", "for i : k .. 4 do end for"),
    ("ok", "for i : 2147483000 .. 2147483646 do end for"),
    ("E33 1:559", "for i : -2147483647 .. 2147483647 do end for"),
    (
        "E33 1:577",
        "for i : 1 .. 2 do for j : 1 .. 2000000 do end for end for",
    ),
    ("E34 1:559", "x := pr(1, true)"),
    ("E30 1:559", "fi(b)"),
    ("E34 1:574", "if b then else exit when b end if"),
    ("E34 1:559", "x := m.ep(1)"),
    ("E34 1:559", "x := fi(pr(1, b))"),
    ("E38 1:559", "put di 1"),
    ("ok", "except 10 except 999"),
    ("E39 1:566", "except 4"),
    ("E30 1:566", "x := 1 x := true b := 1"),
    (
        "E33 1:569",
        "if b then for i : 0 .. 1000000 do end for end if",
    ),
];

/// Statements of an entry.
const ENTRY_STATEMENTS: &[(&str, &str)] = &[
    ("E22 1:456", "wait c noLongerThan x : 10"),
    ("E22 1:443", "signal x"),
    ("E22 1:446", "broadcast e"),
    ("E34 1:436", "o.oe()"),
    ("E34 1:436", "pr()"),
    ("E34 1:436", "x := ef()"),
    ("E34 1:436", "put ou e2()"),
    (
        "ok",
        "wait c noLongerThan 5 : 10 wait c noLongerThan 5 : 999",
    ),
    (
        "ok",
        "wait c noLongerThan 1 : 10 wait c noLongerThan 1000000000 : 10",
    ),
    ("E45 1:456", "wait c noLongerThan 0 : 9"),
];

#[test]
fn declarations_have_answers(rt: HostRuntime) -> Result<(), Fail> {
    have_answers(rt.alloc(), &IDLE, DECLARATIONS)
}

#[test]
fn statements_have_answers(rt: HostRuntime) -> Result<(), Fail> {
    have_answers(rt.alloc(), &PROCESS, STATEMENTS)
}

#[test]
fn statements_of_entries_have_answers(rt: HostRuntime) -> Result<(), Fail> {
    have_answers(rt.alloc(), &ENTRY, ENTRY_STATEMENTS)
}
