//! The routines that statements call, each by the place where its name is declared.

ghost use Rattle.std.specs.Prelude.{◌≡◌, OnOk, IfOk, List, [], ◌++◌};
ghost use Rattle.syntax_tree.specs.Placed.{optional, placed_expr, placed_exprs, placed_ref, placed_stmt, placed_stmts, placed_routine, placed};
ghost use Rattle.syntax_tree.specs.declared.place.Place.{Place as SpecPlace};
ghost use Rattle.static_calls.specs.Calls.{called, expr_calls, exprs_calls, ref_calls, stmt_calls, stmts_calls, answer_calls, routine_calls as routine_calls_of};
ghost use Rattle.static_calls.specs.Tables.{declared_in};

use out_of_memory::OutOfMemory;
use static_declarations::Declarations;
use std::alloc::Global;
use syntax_tree::{Expr, Place, Ref, Routine, Stmt};

/// A routine is called by the name at a place.
fn call(
    calls: &mut Vec<Place>,
    declarations: &Declarations<'_>,
    at: Place,
) -> Result<(), OutOfMemory>
    ensures { OnOk result ((more : List SpecPlace) → calls.new.items ++ more ≡ calls.old.items ++
        called (declared_in (placed declarations.now) at) more) }
{
    if let Some(declared) = declarations.declared(at) {
        calls.push(declared)?;
    }
    Ok(())
}

fn expr(
    calls: &mut Vec<Place>,
    declarations: &Declarations<'_>,
    e: &Expr,
) -> Result<(), OutOfMemory>
    ensures { OnOk result ((more : List SpecPlace) → calls.new.items ++ more ≡ calls.old.items ++
        expr_calls (declared_in (placed declarations.now)) (placed_expr e.now) more) }
{
    match e {
        Expr::Literal { .. } | Expr::True { .. } | Expr::False { .. } | Expr::Variable { .. } => Ok(
            (),
        ),
        Expr::Element { index, .. } => expr(calls, declarations, index),
        Expr::Call { place, args, .. } => {
            call(calls, declarations, *place)?;
            for arg in args.as_slice() {
                expr(calls, declarations, arg)?;
            }
            Ok(())
        }
        Expr::Minus { operand, .. } | Expr::Not { operand, .. } => expr(
            calls,
            declarations,
            operand,
        ),
        Expr::Paren { inner, .. } => expr(calls, declarations, inner),
        Expr::Chain { first, rest } => {
            expr(calls, declarations, first)?;
            for pair in rest.as_slice() {
                expr(calls, declarations, &pair.1)?;
            }
            Ok(())
        }
    }
}

fn exprs(
    calls: &mut Vec<Place>,
    declarations: &Declarations<'_>,
    list: &[Expr],
) -> Result<(), OutOfMemory>
    ensures { OnOk result ((more : List SpecPlace) → calls.new.items ++ more ≡ calls.old.items ++
        exprs_calls (declared_in (placed declarations.now)) (placed_exprs list.now) more) }
{
    for e in list {
        expr(calls, declarations, e)?;
    }
    Ok(())
}

/// What is assigned to.
fn target(
    calls: &mut Vec<Place>,
    declarations: &Declarations<'_>,
    target: &Ref,
) -> Result<(), OutOfMemory>
    ensures { OnOk result ((more : List SpecPlace) → calls.new.items ++ more ≡ calls.old.items ++
        ref_calls (declared_in (placed declarations.now)) (placed_ref target.now) more) }
{
    if let Some(index) = &target.index {
        expr(calls, declarations, index)?;
    }
    Ok(())
}

#[cycle(stmt)]
fn stmts(
    calls: &mut Vec<Place>,
    declarations: &Declarations<'_>,
    list: &[Stmt],
) -> Result<(), OutOfMemory>
    ensures { OnOk result ((more : List SpecPlace) → calls.new.items ++ more ≡ calls.old.items ++
        stmts_calls (declared_in (placed declarations.now)) (placed_stmts list.now) more) }
{
    for s in list {
        stmt(calls, declarations, s)?;
    }
    Ok(())
}

#[cycle(stmt)]
fn stmt(
    calls: &mut Vec<Place>,
    declarations: &Declarations<'_>,
    s: &Stmt,
) -> Result<(), OutOfMemory>
    ensures { OnOk result ((more : List SpecPlace) → calls.new.items ++ more ≡ calls.old.items ++
        stmt_calls (declared_in (placed declarations.now)) (placed_stmt s.now) more) }
{
    match s {
        Stmt::If {
            test,
            first,
            second,
            ..
        } => {
            expr(calls, declarations, test)?;
            stmts(calls, declarations, first.as_slice())?;
            if let Some(second) = second {
                stmts(calls, declarations, second.as_slice())?;
            }
            Ok(())
        }
        Stmt::For { body, .. } => stmts(calls, declarations, body.as_slice()),
        Stmt::Assign { target: to, value } => {
            target(calls, declarations, to)?;
            expr(calls, declarations, value)
        }
        Stmt::AssignEntry {
            target: to,
            entry_place,
            args,
            ..
        } => {
            target(calls, declarations, to)?;
            call(calls, declarations, *entry_place)?;
            exprs(calls, declarations, args.as_slice())
        }
        Stmt::AssignEmpty { target: to, .. } | Stmt::Get { target: to, .. } => target(
            calls,
            declarations,
            to,
        ),
        Stmt::Call { place, args, .. }
        | Stmt::CallEntry {
            entry_place: place,
            args,
            ..
        } => {
            call(calls, declarations, *place)?;
            exprs(calls, declarations, args.as_slice())
        }
        Stmt::Put { value, .. } => expr(calls, declarations, value),
        Stmt::ExitWhen { test, .. } | Stmt::Assert { test, .. } => expr(calls, declarations, test),
        Stmt::Wait { .. } | Stmt::Signal { .. } | Stmt::Broadcast { .. } | Stmt::Except { .. } =>
            Ok(()),
    }
}

/// The result of a function.
fn answer(
    calls: &mut Vec<Place>,
    declarations: &Declarations<'_>,
    value: &Option<Expr>,
) -> Result<(), OutOfMemory>
    ensures { OnOk result ((more : List SpecPlace) → calls.new.items ++ more ≡ calls.old.items ++
        answer_calls (declared_in (placed declarations.now))
        (optional placed_expr value.now) more) }
{
    if let Some(returned) = value {
        expr(calls, declarations, returned)?;
    }
    Ok(())
}

/// The routines that statements call, in the order of the calls.
pub fn calls_of(
    alloc: Global,
    declarations: &Declarations<'_>,
    list: &[Stmt],
) -> Result<Vec<Place>, OutOfMemory>
    ensures { IfOk result (λ calls. calls.items ≡
        stmts_calls (declared_in (placed declarations.now)) (placed_stmts list.now) []) }
{
    let mut calls = Vec::new(alloc);
    stmts(&mut calls, declarations, list)?;
    Ok(calls)
}

/// The routines that a routine calls, in the order of the calls.
pub fn routine_calls(
    alloc: Global,
    declarations: &Declarations<'_>,
    routine: &Routine,
) -> Result<Vec<Place>, OutOfMemory>
    ensures { IfOk result (λ calls. calls.items ≡
        routine_calls_of (declared_in (placed declarations.now)) (placed_routine routine.now)) }
{
    let mut calls = Vec::new(alloc);
    stmts(&mut calls, declarations, routine.body.as_slice())?;
    answer(&mut calls, declarations, &routine.value)?;
    Ok(calls)
}
