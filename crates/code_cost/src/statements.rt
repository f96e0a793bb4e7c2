//! The measure of statements.

ghost use Rattle.std.specs.Prelude.{◌≡◌, OnOk, IfOk, pos};
ghost use Rattle.base.specs.Capped.{cap};
ghost use Rattle.syntax_tree.specs.Placed.{placed_constant, placed_expr, placed_ref, placed_stmt, placed_stmts, plain_constant, plain_expr, plain_ref, plain_stmt, plain_stmts};
ghost use Rattle.source_semantics.specs.Names.{as_count};
ghost use Rattle.code_spec.specs.Layout.{spot_of};
ghost use Rattle.codegen_spec.specs.Made.{turns_told, worth_told};
ghost use Rattle.codegen_spec.specs.Told.{inside, told_spot, within};
ghost use Rattle.code_cost.specs.Sums.{nothing};
ghost use Rattle.code_cost.specs.Forms.{assigned, index_size, put_size, stmt_size, stmts_size, store_time};

use crate::expressions::{call, check, expr, load, load_at, routine_call};
use crate::measure::{Measure, RoutineMeasure};
use base::{Cost, OVER};
use codegen_spec::{Lookup, Loop, VarLocation};
use machine_isa::Instr;
use out_of_memory::OutOfMemory;
use std::alloc::Global;
use syntax_tree::{Constant, Expr, Name, Ref, Stmt};

/// The ticks of a store.
fn store(spot: Option<VarLocation>, target: &Ref) -> u64
    ensures { result ≡ store_time spot (plain_ref (placed_ref target.now)) }
{
    match spot {
        None => 0,
        Some(spot) => match &target.index {
            None => load(Some(spot)),
            Some(_) => load_at(Some(spot)),
        },
    }
}

/// The check of the range and the store of what is assigned.
fn put(spot: Option<VarLocation>, target: &Ref) -> Measure
    ensures { result ≡ put_size spot (plain_ref (placed_ref target.now)) }
{
    let range = match &spot {
        None => None,
        Some(spot) => spot.range,
    };
    check(range).then(Measure::of(store(spot, target), 0, 1))
}

/// The index, what is assigned, and what stores it.
fn assign<L: Lookup>(
    names: &L,
    rows: &[RoutineMeasure],
    loops: &[Loop],
    target: &Ref,
    value: Measure,
    store: Measure,
) -> Measure
    ensures { result ≡ assigned (L.program names.now)
        (inside loops.now (L.scope names.now)) rows.now
        (plain_ref (placed_ref target.now)) value store }
{
    match &target.index {
        None => Measure::nothing().then(value.above(0)).then(store),
        Some(index) => expr(names, rows, loops, index)
            .then(value.above(1))
            .then(store),
    }
}

/// How many turns a loop with these bounds has.
fn turns<L: Lookup>(names: &L, low: &Constant, high: &Constant) -> u64
    ensures { result ≡ turns_told (L.program names.now) low.now high.now }
{
    let span = i64::from(names.value(high)) - i64::from(names.value(low));
    if span < 0 { 0 } else { span as u64 + 1 }
}

/// The ticks for which a wait may last.
fn limit<L: Lookup>(names: &L, limit: &Constant) -> u64
    ensures { result ≡ cap (as_count (worth_told (L.program names.now) limit.now)) }
{
    let ticks = names.value(limit);
    if ticks < 0 {
        0
    } else {
        (ticks as u64).min(OVER)
    }
}

fn wait(ticks: u64) -> Measure
    ensures { result ≡ record {
      cost = record { run = 10; susp = ticks; waits = 1 };
      height = 0;
      length = 2;
    } }
{
    Measure {
        cost: Cost {
            run: 10,
            susp: ticks,
            waits: 1,
        },
        height: 0,
        length: 2,
    }
}

/// The measure of a loop's body.
#[cycle(stmt)]
#[tactic(auto, using(crate::proofs::Steps::inside_more))]
fn body<L: Lookup>(
    alloc: Global,
    names: &L,
    rows: &[RoutineMeasure],
    loops: &mut Vec<Loop>,
    name: &Name,
    body: &[Stmt],
) -> Result<Measure, OutOfMemory>
    ensures size { IfOk result (λ m. m ≡ stmts_size (L.program names.now)
        (within (inside loops.old.items (L.scope names.now)) name.now 0) rows.now nothing
        (plain_stmts (placed_stmts body.now))) }
    ensures loops { OnOk result (loops.new.items ≡ loops.old.items) }
{
    loops.push(Loop {
        name: Name::new(alloc, name.as_bytes())?,
        word: 0,
    })?;
    let size = stmts(alloc, names, rows, loops, body)?;
    loops.pop();
    Ok(size)
}

/// The measure of a statement, which these loops are around, the outermost first.
#[cycle(stmt)]
pub fn stmt<L: Lookup>(
    alloc: Global,
    names: &L,
    rows: &[RoutineMeasure],
    loops: &mut Vec<Loop>,
    stmt: &Stmt,
) -> Result<Measure, OutOfMemory>
    ensures size { IfOk result (λ m. m ≡ stmt_size (L.program names.now)
        (inside loops.old.items (L.scope names.now)) rows.now (plain_stmt (placed_stmt stmt.now))) }
    ensures loops { OnOk result (loops.new.items ≡ loops.old.items) }
{
    let size = match stmt {
        Stmt::Assign { target, value } => {
            let around = loops.as_slice();
            let value = expr(names, rows, around, value);
            let store = put(names.variable(around, &target.name), target);
            assign(names, rows, around, target, value, store)
        }
        Stmt::AssignEntry {
            target,
            mon,
            entry,
            args,
            ..
        } => {
            let around = loops.as_slice();
            let value = call(
                names,
                rows,
                around,
                names.entry(mon, entry),
                args.as_slice(),
            );
            let store = put(names.variable(around, &target.name), target);
            assign(names, rows, around, target, value, store)
        }
        Stmt::AssignEmpty { target, .. } => {
            let around = loops.as_slice();
            let ticks = store(names.variable(around, &target.name), target);
            assign(
                names,
                rows,
                around,
                target,
                Measure::instr(&Instr::Empty { condition: 0 }, 1),
                Measure::of(ticks, 0, 1),
            )
        }
        Stmt::Call { name, args, .. } => {
            routine_call(names, rows, loops.as_slice(), name, args.as_slice())
        }
        Stmt::CallEntry {
            mon,
            entry,
            args,
            ..
        } => call(
            names,
            rows,
            loops.as_slice(),
            names.entry(mon, entry),
            args.as_slice(),
        ),
        Stmt::If {
            test,
            first,
            second,
            ..
        } => {
            let test = expr(names, rows, loops.as_slice(), test);
            let first = stmts(alloc, names, rows, loops, first.as_slice())?;
            let second = match second {
                None => Measure::nothing(),
                Some(second) => stmts(alloc, names, rows, loops, second.as_slice())?,
            };
            test.then(first.or(second))
        }
        Stmt::For {
            name,
            low,
            high,
            body: inner,
            ..
        } => {
            let turn = body(alloc, names, rows, loops, name, inner.as_slice())?;
            turn.times(turns(names, low, high))
        }
        Stmt::ExitWhen { test, .. } => {
            let exit = Measure::instr(&Instr::Exit { to: 0 }, 0);
            expr(names, rows, loops.as_slice(), test).then(exit)
        }
        Stmt::Get { target, .. } => {
            let around = loops.as_slice();
            let store = put(names.variable(around, &target.name), target);
            let input = Measure::instr(&Instr::In { device: 0 }, 1);
            assign(names, rows, around, target, input, store)
        }
        Stmt::Put { value, .. } => {
            let output = Measure::instr(&Instr::Out { device: 0 }, 0);
            expr(names, rows, loops.as_slice(), value).then(output)
        }
        Stmt::Wait { limit: most, .. } => wait(limit(names, most)),
        Stmt::Signal { .. } => Measure::instr(&Instr::Signal { condition: 0 }, 0),
        Stmt::Broadcast { .. } => Measure::instr(&Instr::Broadcast { condition: 0 }, 0),
        Stmt::Except { .. } => Measure::instr(&Instr::Raise { number: 0 }, 0),
        Stmt::Assert { test, .. } => expr(names, rows, loops.as_slice(), test).then(Measure::of(
            6, 0, 3,
        )),
    };
    Ok(size)
}

/// The measure of statements, one after another.
#[cycle(stmt)]
pub fn stmts<L: Lookup>(
    alloc: Global,
    names: &L,
    rows: &[RoutineMeasure],
    loops: &mut Vec<Loop>,
    stmts: &[Stmt],
) -> Result<Measure, OutOfMemory>
    ensures size { IfOk result (λ m. m ≡ stmts_size (L.program names.now)
        (inside loops.old.items (L.scope names.now)) rows.now nothing
        (plain_stmts (placed_stmts stmts.now))) }
    ensures loops { OnOk result (loops.new.items ≡ loops.old.items) }
{
    let mut sum = Measure::nothing();
    for stmt in stmts {
        sum = sum.then(crate::statements::stmt(alloc, names, rows, loops, stmt)?);
    }
    Ok(sum)
}
