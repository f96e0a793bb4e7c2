//! The measure of expressions.

ghost use Rattle.std.specs.Prelude.{◌≡◌, slice_get};
ghost use Rattle.std.specs.Option.{option_copied};
ghost use Rattle.syntax_tree.specs.Placed.{op_of, placed_expr, placed_exprs, placed_operands, plain_expr, plain_exprs, plain_operands};
ghost use Rattle.machine_isa.specs.Ticks.{ticks};
ghost use Rattle.code_spec.specs.Code.{op_instr};
ghost use Rattle.code_spec.specs.Numbering.{routine_in};
ghost use Rattle.codegen_spec.specs.Told.{inside, told_callee};
ghost use Rattle.code_cost.specs.Sums.{nothing, row_at};
ghost use Rattle.code_cost.specs.Forms.{args_size, argument, call_size, check as check_of, element_time, expr_size, load_time, row_size};

use crate::measure::{Measure, RoutineMeasure, run};
use codegen_spec::{Area, Callee, Lookup, Loop, ValueRange, VarLocation};
use machine_isa::Instr;
use syntax_tree::{Expr, Name, Op};

/// The ticks of a load of what a name means.
pub fn load(spot: Option<VarLocation>) -> u64
    ensures { result ≡ load_time spot }
{
    match spot {
        None => 1,
        Some(spot) => match spot.area {
            Area::Frame | Area::Process => 2,
            Area::Monitor => 3,
        },
    }
}

/// The ticks of a load of an element.
pub fn load_at(spot: Option<VarLocation>) -> u64
    ensures { result ≡ element_time spot }
{
    match spot {
        None => 0,
        Some(spot) => match spot.area {
            Area::Frame | Area::Process => 4,
            Area::Monitor => 5,
        },
    }
}

/// The check of a range.
pub fn check(range: Option<ValueRange>) -> Measure
    ensures { result ≡ check_of range }
{
    match range {
        None => Measure::nothing(),
        Some(_) => Measure::instr(&Instr::Range { low: 0, high: 0 }, 0),
    }
}

fn operator(op: Op) -> u64
    ensures { result ≡ ticks (op_instr (op_of op)) }
{
    match op {
        Op::Or | Op::And => 1,
        Op::Equal | Op::Unequal | Op::Less | Op::LessEqual | Op::Greater | Op::GreaterEqual => 2,
        Op::Add | Op::Sub => 2,
        Op::Mul => 4,
        Op::Div | Op::Mod => 12,
    }
}

/// What is known of the routine of this number.
fn row(rows: &[RoutineMeasure], number: usize) -> RoutineMeasure
    ensures { result ≡ row_at rows.now number }
{
    match rows.get(number) {
        Some(known) => *known,
        None => RoutineMeasure {
            cost: run(0),
            stay: 0,
            height: 0,
            words: 0,
            length: 0,
        },
    }
}

/// Arguments before this one, and then it, where this is the range of its parameter.
fn with_argument(
    sum: Measure,
    number: usize,
    range: Option<Option<ValueRange>>,
    one: Measure,
) -> Measure
    ensures { result ≡ argument number sum range one }
{
    let raised = one.above(number as u64);
    match range {
        Some(range) => sum.then(raised.then(check(range))),
        None => Measure {
            cost: sum.cost,
            height: sum.height.max(raised.height),
            length: sum.length,
        },
    }
}

/// The same, where these are the ranges of all parameters.
fn next_argument(
    sum: Measure,
    number: usize,
    ranges: &[Option<ValueRange>],
    one: Measure,
) -> Measure
    ensures { result ≡ argument number sum (slice_get ranges.now number) one }
{
    with_argument(sum, number, ranges.get(number).copied(), one)
}

/// The measure of the arguments of a call, where these are the ranges of the parameters.
#[cycle(expr)]
fn args<L: Lookup>(
    names: &L,
    rows: &[RoutineMeasure],
    loops: &[Loop],
    args: &[Expr],
    ranges: &[Option<ValueRange>],
) -> Measure
    ensures { result ≡ args_size (L.program names.now)
        (inside loops.now (L.scope names.now)) rows.now 0 nothing
        (plain_exprs (placed_exprs args.now)) ranges.now }
{
    let mut sum = Measure::nothing();
    let mut number: usize = 0;
    for arg in args {
        let one = expr(names, rows, loops, arg);
        sum = next_argument(sum, number, ranges, one);
        number += 1;
    }
    sum
}

/// The measure of a call, of an entry or of another routine.
#[cycle(expr)]
pub fn call<L: Lookup>(
    names: &L,
    rows: &[RoutineMeasure],
    loops: &[Loop],
    callee: Option<&Callee>,
    given: &[Expr],
) -> Measure
    ensures { result ≡ call_size rows.now (option_copied callee.entry)
        (λ rs. args_size (L.program names.now)
        (inside loops.now (L.scope names.now)) rows.now 0 nothing
        (plain_exprs (placed_exprs given.now)) rs) }
{
    match callee {
        None => args(names, rows, loops, given, &[]).no_call(),
        Some(callee) => args(names, rows, loops, given, callee.ranges.as_slice()).call(row(
            rows,
            callee.number,
        )),
    }
}

/// The measure of a call of the routine that a name means.
#[cycle(expr)]
#[tactic(auto, using(crate::proofs::Steps::owner_inside))]
pub fn routine_call<L: Lookup>(
    names: &L,
    rows: &[RoutineMeasure],
    loops: &[Loop],
    name: &Name,
    given: &[Expr],
) -> Measure
    ensures { result ≡ call_size rows.now (told_callee (L.program names.now)
        (routine_in (L.program names.now) (inside loops.now (L.scope names.now)).owner name.now))
        (λ rs. args_size (L.program names.now)
        (inside loops.now (L.scope names.now)) rows.now 0 nothing
        (plain_exprs (placed_exprs given.now)) rs) }
{
    call(names, rows, loops, names.routine(name), given)
}

/// The measure of a row of operators, behind its first operand.
#[cycle(expr)]
fn operands<L: Lookup>(
    names: &L,
    rows: &[RoutineMeasure],
    loops: &[Loop],
    first: Measure,
    operands: &[(Op, Expr)],
) -> Measure
    ensures { result ≡ row_size (L.program names.now)
        (inside loops.now (L.scope names.now)) rows.now first
        (plain_operands (placed_operands operands.now)) }
{
    let mut sum = first;
    for operand in operands {
        let one = expr(names, rows, loops, &operand.1);
        sum = sum.then(one.above(1).then(Measure::of(operator(operand.0), 0, 1)));
    }
    sum
}

/// The measure of an expression, which leaves its value on the stack.
#[cycle(expr)]
pub fn expr<L: Lookup>(names: &L, rows: &[RoutineMeasure], loops: &[Loop], expr: &Expr) -> Measure
    ensures { result ≡ expr_size (L.program names.now)
        (inside loops.now (L.scope names.now)) rows.now (plain_expr (placed_expr expr.now)) }
{
    match expr {
        Expr::Literal { .. } | Expr::True { .. } | Expr::False { .. } => {
            Measure::instr(&Instr::Push { value: 0 }, 1)
        }
        Expr::Variable { name, .. } => Measure::of(load(names.variable(loops, name)), 1, 1),
        Expr::Element { name, index, .. } => {
            let element = load_at(names.variable(loops, name));
            crate::expressions::expr(names, rows, loops, index).then(Measure::of(element, 0, 1))
        }
        Expr::Call { name, args, .. } => routine_call(names, rows, loops, name, args.as_slice()),
        Expr::Minus { operand, .. } => {
            crate::expressions::expr(names, rows, loops, operand).then(Measure::instr(
                &Instr::Neg,
                0,
            ))
        }
        Expr::Not { operand, .. } => {
            crate::expressions::expr(names, rows, loops, operand).then(Measure::instr(
                &Instr::Not,
                0,
            ))
        }
        Expr::Paren { inner, .. } => crate::expressions::expr(names, rows, loops, inner),
        Expr::Chain { first, rest } => {
            let first = crate::expressions::expr(names, rows, loops, first);
            operands(names, rows, loops, first, rest.as_slice())
        }
    }
}
