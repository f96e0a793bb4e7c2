//! The names in statements.

ghost use Rattle.std.specs.Prelude.{◌≡◌, OnOk, List, [], ◌∷◌, take, length, ◌-◌};
ghost use Rattle.syntax_tree.specs.Placed.{placed_constant, placed_exprs, placed_ref, placed_stmt, placed_stmts};
ghost use Rattle.static_names.specs.declared.kind.NameUse.TheVariants.{Condition};
ghost use Rattle.static_names.specs.Reach.{inside};
ghost use Rattle.static_names.specs.Occurrences.{Occurrence, uses, declarations, loop_name, constant_names, exprs_names, ref_names, entry_names, stmt_names, stmts_names};
ghost use Rattle.static_names.specs.Findings.{noted};
ghost use Rattle.static_names.specs.Seen.{site, AroundValue, names_if, is_assignment, is_call, is_transfer, is_condition, is_check, is_plain};

use crate::errors::tri;
use crate::expr::{constant, expr, exprs, target};
use crate::findings::Findings;
use crate::kind::{Declared, Kind, NameUse};
use crate::scope::Local;
use crate::scope_chain::ScopeChain;
use out_of_memory::OutOfMemory;
use syntax_tree::{Constant, Expr, Name, Place, Ref, Stmt};

/// Enters a loop.
fn enter<'a>(loops: &mut Vec<Local<'a>>, name: &'a Name, place: Place) -> Result<(), OutOfMemory>
    ensures inner { OnOk result ((around : AroundValue) → site around loops.new.items ≡
        inside (loop_name name.now place ∷ []) (site around loops.old.items)) }
    ensures outer { OnOk result (take (length loops.new.items - 1) loops.new.items ≡
        loops.old.items) }
{
    let declared = Declared {
        place,
        kind: Kind::LoopVariable,
    };
    let name = name.as_bytes();
    loops.push(Local { name, declared })?;
    Ok(())
}

/// Leaves the innermost loop.
fn leave(loops: &mut Vec<Local<'_>>)
    ensures { loops.new.items ≡ take (length loops.old.items - 1) loops.old.items }
{
    loops.pop();
}

/// The variable and the bounds of a loop.
fn loop_head<'a>(
    findings: &mut Findings,
    around: &ScopeChain<'_, 'a>,
    loops: &[Local<'a>],
    variable: (&Name, Place),
    bounds: (&Constant, &Constant),
) -> Result<(), OutOfMemory>
    ensures { let here = site around.now loops.now in OnOk result
        ((more : List Occurrence) → noted findings.new more ≡
        noted findings.old (declarations here.means []
        (loop_name variable.entry.0.now variable.entry.1 ∷ [])
        (constant_names here (placed_constant bounds.entry.0.now)
        (constant_names here (placed_constant bounds.entry.1.now) more)))) }
{
    let taken = around.means(loops, variable.0.as_bytes()).is_some();
    findings.declare(variable.1, taken);
    tri!(constant(findings, around, loops, bounds.0));
    constant(findings, around, loops, bounds.1)
}

/// A call of an entry.
fn call_entry<'a>(
    findings: &mut Findings,
    around: &ScopeChain<'_, 'a>,
    loops: &[Local<'a>],
    monitor: (&Name, Place),
    entry: (&Name, Place),
    args: &[Expr],
) -> Result<(), OutOfMemory>
    ensures { let here = site around.now loops.now in OnOk result
        ((more : List Occurrence) → noted findings.new more ≡
        noted findings.old (entry_names here monitor.entry.0.now monitor.entry.1 entry.entry.0.now
        entry.entry.1 (exprs_names here (placed_exprs args.now) more))) }
{
    tri!(around.use_entry(findings, loops, monitor, entry));
    exprs(findings, around, loops, args)
}

/// An assignment of whether nobody waits for a condition.
fn assign_empty<'a>(
    findings: &mut Findings,
    around: &ScopeChain<'_, 'a>,
    loops: &[Local<'a>],
    to: &Ref,
    cond: (&Name, Place),
) -> Result<(), OutOfMemory>
    ensures { let here = site around.now loops.now in OnOk result
        ((more : List Occurrence) → noted findings.new more ≡
        noted findings.old (ref_names here (placed_ref to.now)
        (uses here cond.entry.0.now cond.entry.1 Condition ∷ more))) }
{
    tri!(target(findings, around, loops, to));
    around.use_name(findings, loops, cond.0, cond.1, NameUse::Condition)
}

/// An assignment.
fn assignment<'a>(
    findings: &mut Findings,
    around: &ScopeChain<'_, 'a>,
    loops: &[Local<'a>],
    s: &Stmt,
) -> Result<(), OutOfMemory>
    ensures { OnOk result ((more : List Occurrence) → noted findings.new more ≡
        noted findings.old (names_if is_assignment (site around.now loops.now)
        (placed_stmt s.now) more)) }
{
    match s {
        Stmt::Assign { target: to, value } => {
            tri!(target(findings, around, loops, to));
            expr(findings, around, loops, value)
        }
        Stmt::AssignEntry {
            target: to,
            mon,
            mon_place,
            entry,
            entry_place,
            args,
        } => {
            tri!(target(findings, around, loops, to));
            tri!(call_entry(
                findings,
                around,
                loops,
                (mon, *mon_place),
                (entry, *entry_place),
                args.as_slice(),
            ));
            Ok(())
        }
        Stmt::AssignEmpty {
            target: to,
            cond,
            cond_place,
        } => assign_empty(findings, around, loops, to, (cond, *cond_place)),
        _ => Ok(()),
    }
}

/// A call of a procedure or an entry.
fn call<'a>(
    findings: &mut Findings,
    around: &ScopeChain<'_, 'a>,
    loops: &[Local<'a>],
    s: &Stmt,
) -> Result<(), OutOfMemory>
    ensures { OnOk result ((more : List Occurrence) → noted findings.new more ≡
        noted findings.old (names_if is_call (site around.now loops.now)
        (placed_stmt s.now) more)) }
{
    match s {
        Stmt::Call { place, name, args } => {
            tri!(around.use_name(findings, loops, name, *place, NameUse::Routine));
            exprs(findings, around, loops, args.as_slice())
        }
        Stmt::CallEntry {
            place,
            mon,
            entry,
            entry_place,
            args,
        } => {
            call_entry(
                findings,
                around,
                loops,
                (mon, *place),
                (entry, *entry_place),
                args.as_slice(),
            )
        }
        _ => Ok(()),
    }
}

/// A `get` or a `put`.
fn transfer<'a>(
    findings: &mut Findings,
    around: &ScopeChain<'_, 'a>,
    loops: &[Local<'a>],
    s: &Stmt,
) -> Result<(), OutOfMemory>
    ensures { OnOk result ((more : List Occurrence) → noted findings.new more ≡
        noted findings.old (names_if is_transfer (site around.now loops.now)
        (placed_stmt s.now) more)) }
{
    match s {
        Stmt::Get {
            device,
            device_place,
            target: to,
            ..
        } => {
            tri!(around.use_name(findings, loops, device, *device_place, NameUse::Device));
            target(findings, around, loops, to)
        }
        Stmt::Put {
            device,
            device_place,
            value,
            ..
        } => {
            tri!(around.use_name(findings, loops, device, *device_place, NameUse::Device));
            expr(findings, around, loops, value)
        }
        _ => Ok(()),
    }
}

/// A statement about a condition.
fn condition<'a>(
    findings: &mut Findings,
    around: &ScopeChain<'_, 'a>,
    loops: &[Local<'a>],
    s: &Stmt,
) -> Result<(), OutOfMemory>
    ensures { OnOk result ((more : List Occurrence) → noted findings.new more ≡
        noted findings.old (names_if is_condition (site around.now loops.now)
        (placed_stmt s.now) more)) }
{
    match s {
        Stmt::Wait {
            cond,
            cond_place,
            limit,
            number,
            ..
        } => {
            tri!(around.use_name(findings, loops, cond, *cond_place, NameUse::Condition));
            tri!(constant(findings, around, loops, limit));
            constant(findings, around, loops, number)
        }
        Stmt::Signal {
            cond,
            cond_place,
            ..
        }
        | Stmt::Broadcast {
            cond,
            cond_place,
            ..
        } => around.use_name(findings, loops, cond, *cond_place, NameUse::Condition),
        _ => Ok(()),
    }
}

/// An `exit`, an `except` or an `assert`.
fn check<'a>(
    findings: &mut Findings,
    around: &ScopeChain<'_, 'a>,
    loops: &[Local<'a>],
    s: &Stmt,
) -> Result<(), OutOfMemory>
    ensures { OnOk result ((more : List Occurrence) → noted findings.new more ≡
        noted findings.old (names_if is_check (site around.now loops.now)
        (placed_stmt s.now) more)) }
{
    match s {
        Stmt::Except { number, .. } => constant(findings, around, loops, number),
        Stmt::ExitWhen { test, .. } | Stmt::Assert { test, .. } => expr(
            findings, around, loops, test,
        ),
        _ => Ok(()),
    }
}

/// A statement in which no others stand.
fn plain<'a>(
    findings: &mut Findings,
    around: &ScopeChain<'_, 'a>,
    loops: &[Local<'a>],
    s: &Stmt,
) -> Result<(), OutOfMemory>
    ensures { OnOk result ((more : List Occurrence) → noted findings.new more ≡
        noted findings.old (names_if is_plain (site around.now loops.now)
        (placed_stmt s.now) more)) }
{
    match s {
        Stmt::Assign { .. } | Stmt::AssignEntry { .. } | Stmt::AssignEmpty { .. } => assignment(
            findings, around, loops, s,
        ),
        Stmt::Call { .. } | Stmt::CallEntry { .. } => call(findings, around, loops, s),
        Stmt::Get { .. } | Stmt::Put { .. } => transfer(findings, around, loops, s),
        Stmt::Wait { .. } | Stmt::Signal { .. } | Stmt::Broadcast { .. } => condition(
            findings, around, loops, s,
        ),
        Stmt::Except { .. } | Stmt::ExitWhen { .. } | Stmt::Assert { .. } => check(
            findings, around, loops, s,
        ),
        Stmt::If { .. } | Stmt::For { .. } => Ok(()),
    }
}

#[cycle(stmt)]
pub fn stmts<'a>(
    findings: &mut Findings,
    around: &ScopeChain<'_, 'a>,
    loops: &mut Vec<Local<'a>>,
    list: &'a [Stmt],
) -> Result<(), OutOfMemory>
    ensures names { OnOk result ((more : List Occurrence) → noted findings.new more ≡
        noted findings.old (stmts_names (site around.now loops.old.items)
        (placed_stmts list.now) more)) }
    ensures same_loops { OnOk result (loops.new.items ≡ loops.old.items) }
{
    for s in list {
        tri!(stmt(findings, around, loops, s));
    }
    Ok(())
}

#[cycle(stmt)]
pub fn stmt<'a>(
    findings: &mut Findings,
    around: &ScopeChain<'_, 'a>,
    loops: &mut Vec<Local<'a>>,
    s: &'a Stmt,
) -> Result<(), OutOfMemory>
    ensures names { OnOk result ((more : List Occurrence) → noted findings.new more ≡
        noted findings.old (stmt_names (site around.now loops.old.items)
        (placed_stmt s.now) more)) }
    ensures same_loops { OnOk result (loops.new.items ≡ loops.old.items) }
{
    match s {
        Stmt::If {
            test,
            first,
            second,
            ..
        } => {
            tri!(expr(findings, around, loops.as_slice(), test));
            tri!(stmts(findings, around, loops, first.as_slice()));
            match second {
                Some(second) => stmts(findings, around, loops, second.as_slice()),
                None => Ok(()),
            }
        }
        Stmt::For {
            name,
            name_place,
            low,
            high,
            body,
            ..
        } => {
            tri!(loop_head(
                findings,
                around,
                loops.as_slice(),
                (name, *name_place),
                (low, high),
            ));
            tri!(enter(loops, name, *name_place));
            tri!(stmts(findings, around, loops, body.as_slice()));
            leave(loops);
            Ok(())
        }
        _ => plain(findings, around, loops.as_slice(), s),
    }
}
