//! What routines call, by name, in the order in which the names stand.

ghost use Rattle.std.specs.Prelude.{◌≡◌, OnOk, IfOk, List, ◌∷◌, ◌++◌};
ghost use Rattle.syntax_tree.specs.Placed.{optional, placed_expr, placed_exprs, placed_operands, placed_ref, placed_routine, placed_scalar, placed_stmt, placed_stmts, plain_answers, plain_expr, plain_exprs, plain_operands, plain_ref, plain_routine, plain_stmt, plain_stmts};
ghost use Rattle.code_spec.specs.Numbering.{Called as SpecCalled, routine_calls as calls_of};
ghost use Rattle.code_names.specs.Calls.{called_of, calls_told, expr_called, exprs_called, ref_called, row_called, stmt_called, stmts_called, answers_called};

use out_of_memory::OutOfMemory;
use std::alloc::Global;
use syntax_tree::{Expr, Name, Op, Ref, Routine, Scalar, Stmt};

/// What a call names: a routine, or an entry of a monitor.
#[derive(Clone, Copy)]
pub enum Called<'a> {
    Routine(&'a Name),
    Entry { monitor: &'a Name, name: &'a Name },
}

fn call<'a>(calls: &mut Vec<Called<'a>>, called: Called<'a>) -> Result<(), OutOfMemory>
    ensures { OnOk result ((more : List SpecCalled) → calls_told calls.new.items ++ more ≡
        calls_told calls.old.items ++ called_of called.entry ∷ more) }
{
    calls.push(called)?;
    Ok(())
}

#[cycle(expr)]
fn exprs<'a>(calls: &mut Vec<Called<'a>>, list: &'a [Expr]) -> Result<(), OutOfMemory>
    ensures { OnOk result ((more : List SpecCalled) → calls_told calls.new.items ++ more ≡
        calls_told calls.old.items ++ exprs_called (plain_exprs (placed_exprs list.now)) more) }
{
    for e in list {
        expr(calls, e)?;
    }
    Ok(())
}

/// The right operands of a row of operators.
#[cycle(expr)]
fn operands<'a>(calls: &mut Vec<Called<'a>>, list: &'a [(Op, Expr)]) -> Result<(), OutOfMemory>
    ensures { OnOk result ((more : List SpecCalled) → calls_told calls.new.items ++ more ≡
        calls_told calls.old.items ++ row_called (plain_operands (placed_operands list.now)) more) }
{
    for operand in list {
        expr(calls, &operand.1)?;
    }
    Ok(())
}

#[cycle(expr)]
fn expr<'a>(calls: &mut Vec<Called<'a>>, e: &'a Expr) -> Result<(), OutOfMemory>
    ensures { OnOk result ((more : List SpecCalled) → calls_told calls.new.items ++ more ≡
        calls_told calls.old.items ++ expr_called (plain_expr (placed_expr e.now)) more) }
{
    match e {
        Expr::Literal { .. } | Expr::True { .. } | Expr::False { .. } | Expr::Variable { .. } => Ok(
            (),
        ),
        Expr::Element { index, .. } => expr(calls, index),
        Expr::Call { name, args, .. } => {
            call(calls, Called::Routine(name))?;
            exprs(calls, args.as_slice())
        }
        Expr::Minus { operand, .. } | Expr::Not { operand, .. } => expr(calls, operand),
        Expr::Paren { inner, .. } => expr(calls, inner),
        Expr::Chain { first, rest } => {
            expr(calls, first)?;
            operands(calls, rest.as_slice())
        }
    }
}

/// A call with its arguments.
fn call_with<'a>(
    calls: &mut Vec<Called<'a>>,
    called: Called<'a>,
    args: &'a [Expr],
) -> Result<(), OutOfMemory>
    ensures { OnOk result ((more : List SpecCalled) → calls_told calls.new.items ++ more ≡
        calls_told calls.old.items ++ called_of called.entry ∷
        exprs_called (plain_exprs (placed_exprs args.now)) more) }
{
    call(calls, called)?;
    exprs(calls, args)?;
    Ok(())
}

/// What is assigned to.
fn target<'a>(calls: &mut Vec<Called<'a>>, target: &'a Ref) -> Result<(), OutOfMemory>
    ensures { OnOk result ((more : List SpecCalled) → calls_told calls.new.items ++ more ≡
        calls_told calls.old.items ++ ref_called (plain_ref (placed_ref target.now)) more) }
{
    if let Some(index) = &target.index {
        expr(calls, index)?;
    }
    Ok(())
}

#[cycle(stmt)]
fn stmts<'a>(calls: &mut Vec<Called<'a>>, list: &'a [Stmt]) -> Result<(), OutOfMemory>
    ensures { OnOk result ((more : List SpecCalled) → calls_told calls.new.items ++ more ≡
        calls_told calls.old.items ++ stmts_called (plain_stmts (placed_stmts list.now)) more) }
{
    for s in list {
        stmt(calls, s)?;
    }
    Ok(())
}

#[cycle(stmt)]
fn stmt<'a>(calls: &mut Vec<Called<'a>>, s: &'a Stmt) -> Result<(), OutOfMemory>
    ensures { OnOk result ((more : List SpecCalled) → calls_told calls.new.items ++ more ≡
        calls_told calls.old.items ++ stmt_called (plain_stmt (placed_stmt s.now)) more) }
{
    match s {
        Stmt::If {
            test,
            first,
            second,
            ..
        } => {
            expr(calls, test)?;
            stmts(calls, first.as_slice())?;
            match second {
                Some(second) => stmts(calls, second.as_slice()),
                None => Ok(()),
            }
        }
        Stmt::For { body, .. } => stmts(calls, body.as_slice()),
        Stmt::Assign { target: to, value } => {
            target(calls, to)?;
            expr(calls, value)
        }
        Stmt::AssignEntry {
            target: to,
            mon,
            entry,
            args,
            ..
        } => {
            target(calls, to)?;
            call_with(
                calls,
                Called::Entry {
                    monitor: mon,
                    name: entry,
                },
                args.as_slice(),
            )
        }
        Stmt::AssignEmpty { target: to, .. } | Stmt::Get { target: to, .. } => target(calls, to),
        Stmt::Call { name, args, .. } => {
            call_with(calls, Called::Routine(name), args.as_slice())
        }
        Stmt::CallEntry {
            mon,
            entry,
            args,
            ..
        } => {
            call_with(
                calls,
                Called::Entry {
                    monitor: mon,
                    name: entry,
                },
                args.as_slice(),
            )
        }
        Stmt::Put { value, .. } => expr(calls, value),
        Stmt::ExitWhen { test, .. } | Stmt::Assert { test, .. } => expr(calls, test),
        Stmt::Wait { .. } | Stmt::Signal { .. } | Stmt::Broadcast { .. } | Stmt::Except { .. } =>
            Ok(()),
    }
}

/// What a function answers: it has the type and the expression of its result.
fn answer<'a>(
    calls: &mut Vec<Called<'a>>,
    kind: &'a Option<Scalar>,
    value: &'a Option<Expr>,
) -> Result<(), OutOfMemory>
    ensures { OnOk result ((more : List SpecCalled) → calls_told calls.new.items ++ more ≡
        calls_told calls.old.items ++ answers_called
        (plain_answers (optional placed_scalar kind.now) (optional placed_expr value.now)) more) }
{
    match (kind, value) {
        (Some(_), Some(returned)) => expr(calls, returned),
        _ => Ok(()),
    }
}

/// What a routine calls, in the order of the calls.
pub fn routine_calls<'a>(
    alloc: Global,
    routine: &'a Routine,
) -> Result<Vec<Called<'a>>, OutOfMemory>
    ensures { IfOk result (λ calls. calls_told calls.items ≡
        calls_of (plain_routine (placed_routine routine.now))) }
{
    let mut calls = Vec::new(alloc);
    stmts(&mut calls, routine.body.as_slice())?;
    answer(&mut calls, &routine.result, &routine.value)?;
    Ok(calls)
}
