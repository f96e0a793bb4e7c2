//! The names in routines, monitors, processes and other declarations.

ghost use Rattle.std.specs.Prelude.{◌≡◌, OnOk, List, [], map};
ghost use Rattle.syntax_tree.specs.Placed.{placed_constant, placed_scalar, placed_expr, placed_stmts, placed_param, placed_var, placed_member, placed_routine, placed_monitor, placed_activation, placed_handler, placed_process, placed_decl, optional};
ghost use Rattle.static_names.specs.Occurrences.{Occurrence, constant_names, constants_names, scalar_names, expr_names, optional_names, params_names, vars_names, stmts_names, member_inner, members_names, routine_inner, routine_names, routines_names, monitor_inner, monitor_names, activation_names, handler_names, process_inner, process_names, inner_names};
ghost use Rattle.static_names.specs.Findings.{noted};
ghost use Rattle.static_names.specs.Seen.{site, outer_site, top_site};

use crate::declare;
use crate::errors::tri;
use crate::expr::{constant, expr, kind, scalar};
use crate::findings::Findings;
use crate::kind::NameUse;
use crate::scope::Scope;
use crate::scope_chain::{OuterScopes, ScopeChain, TopScope};
use crate::stmt::stmts;
use out_of_memory::OutOfMemory;
use std::alloc::Global;
use syntax_tree::{
    Constant, Declaration, Expr, Handler, Member, Monitor, Param, Process, Routine, Scalar, Stmt,
    Trigger, Var,
};

fn params<'a>(
    findings: &mut Findings,
    around: &ScopeChain<'_, 'a>,
    list: &[Param],
) -> Result<(), OutOfMemory>
    ensures { OnOk result ((more : List Occurrence) → noted findings.new more ≡
        noted findings.old (params_names (site around.now []) (map placed_param list.now) more)) }
{
    for param in list {
        tri!(scalar(findings, around, &[], &param.kind));
    }
    Ok(())
}

fn vars<'a>(
    findings: &mut Findings,
    around: &ScopeChain<'_, 'a>,
    list: &[Var],
) -> Result<(), OutOfMemory>
    ensures { OnOk result ((more : List Occurrence) → noted findings.new more ≡
        noted findings.old (vars_names (site around.now []) (map placed_var list.now) more)) }
{
    for var in list {
        tri!(kind(findings, around, &[], &var.kind));
    }
    Ok(())
}

fn member<'a>(
    findings: &mut Findings,
    around: &ScopeChain<'_, 'a>,
    member: &Member,
) -> Result<(), OutOfMemory>
    ensures { OnOk result ((more : List Occurrence) → noted findings.new more ≡
        noted findings.old (member_inner (site around.now []) (placed_member member.now) more)) }
{
    match member {
        Member::Var(var) => kind(findings, around, &[], &var.kind),
        Member::Condition { .. } => Ok(()),
    }
}

fn members<'a>(
    findings: &mut Findings,
    around: &ScopeChain<'_, 'a>,
    list: &[Member],
) -> Result<(), OutOfMemory>
    ensures { OnOk result ((more : List Occurrence) → noted findings.new more ≡
        noted findings.old (members_names (site around.now []) (map placed_member list.now) more)) }
{
    for one in list {
        tri!(member(findings, around, one));
    }
    Ok(())
}

fn constants<'a>(
    findings: &mut Findings,
    around: &ScopeChain<'_, 'a>,
    list: &[Constant],
) -> Result<(), OutOfMemory>
    ensures { OnOk result ((more : List Occurrence) → noted findings.new more ≡
        noted findings.old (constants_names (site around.now [])
        (map placed_constant list.now) more)) }
{
    for number in list {
        tri!(constant(findings, around, &[], number));
    }
    Ok(())
}

/// The type of a result.
fn result<'a>(
    findings: &mut Findings,
    around: &ScopeChain<'_, 'a>,
    kind: &Option<Scalar>,
) -> Result<(), OutOfMemory>
    ensures { OnOk result ((more : List Occurrence) → noted findings.new more ≡
        noted findings.old (optional_names (scalar_names (site around.now []))
        (optional placed_scalar kind.now) more)) }
{
    match kind {
        Some(kind) => scalar(findings, around, &[], kind),
        None => Ok(()),
    }
}

/// The expression of a result.
fn value<'a>(
    findings: &mut Findings,
    around: &ScopeChain<'_, 'a>,
    value: &Option<Expr>,
) -> Result<(), OutOfMemory>
    ensures { OnOk result ((more : List Occurrence) → noted findings.new more ≡
        noted findings.old (optional_names (expr_names (site around.now []))
        (optional placed_expr value.now) more)) }
{
    match value {
        Some(value) => expr(findings, around, &[], value),
        None => Ok(()),
    }
}

/// Statements that no loop is around.
fn body<'a>(
    alloc: Global,
    findings: &mut Findings,
    around: &ScopeChain<'_, 'a>,
    list: &'a [Stmt],
) -> Result<(), OutOfMemory>
    ensures { OnOk result ((more : List Occurrence) → noted findings.new more ≡
        noted findings.old (stmts_names (site around.now []) (placed_stmts list.now) more)) }
{
    let mut loops = Vec::new(alloc);
    stmts(findings, around, &mut loops, list)
}

/// A routine, its scope being made.
fn routine_parts<'a>(
    alloc: Global,
    findings: &mut Findings,
    around: &ScopeChain<'_, 'a>,
    routine: &'a Routine,
) -> Result<(), OutOfMemory>
    ensures { OnOk result ((more : List Occurrence) → noted findings.new more ≡
        noted findings.old (routine_inner (site around.now []) (placed_routine routine.now) more)) }
{
    tri!(params(findings, around, routine.params.as_slice()));
    tri!(result(findings, around, &routine.result));
    tri!(vars(findings, around, routine.vars.as_slice()));
    tri!(body(alloc, findings, around, routine.body.as_slice()));
    tri!(value(findings, around, &routine.value));
    findings.close(&routine.close, routine.close_place, &routine.name);
    Ok(())
}

/// A routine, its scope being empty.
fn routine_with<'a>(
    alloc: Global,
    findings: &mut Findings,
    outer: &OuterScopes<'_, 'a>,
    locals: &mut Scope<'a>,
    routine: &'a Routine,
) -> Result<(), OutOfMemory>
    requires { locals.old.entries ≡ [] }
    ensures { OnOk result ((more : List Occurrence) → noted findings.new more ≡
        noted findings.old (routine_names (outer_site outer.now)
        (placed_routine routine.now) more)) }
{
    tri!(declare::routine(findings, locals, outer, routine));
    let around = ScopeChain {
        outer: *outer,
        locals: Some(&*locals),
    };
    routine_parts(alloc, findings, &around, routine)
}

fn routine<'a>(
    alloc: Global,
    findings: &mut Findings,
    outer: &OuterScopes<'_, 'a>,
    routine: &'a Routine,
) -> Result<(), OutOfMemory>
    ensures { OnOk result ((more : List Occurrence) → noted findings.new more ≡
        noted findings.old (routine_names (outer_site outer.now)
        (placed_routine routine.now) more)) }
{
    let mut locals = Scope::new(alloc);
    routine_with(alloc, findings, outer, &mut locals, routine)
}

fn routines<'a>(
    alloc: Global,
    findings: &mut Findings,
    outer: &OuterScopes<'_, 'a>,
    list: &'a [Routine],
) -> Result<(), OutOfMemory>
    ensures { OnOk result ((more : List Occurrence) → noted findings.new more ≡
        noted findings.old (routines_names (outer_site outer.now)
        (map placed_routine list.now) more)) }
{
    for one in list {
        tri!(routine(alloc, findings, outer, one));
    }
    Ok(())
}

/// A monitor, its scope being made, and no routine being around.
fn monitor_parts<'a>(
    alloc: Global,
    findings: &mut Findings,
    around: &ScopeChain<'_, 'a>,
    monitor: &'a Monitor,
) -> Result<(), OutOfMemory>
    requires { site around.now [] ≡ outer_site around.now.outer }
    ensures { OnOk result ((more : List Occurrence) → noted findings.new more ≡
        noted findings.old (monitor_inner (outer_site around.now.outer)
        (placed_monitor monitor.now) more)) }
{
    tri!(members(findings, around, monitor.members.as_slice()));
    tri!(routines(alloc, findings, &around.outer, monitor.entries.as_slice()));
    findings.close(&monitor.close, monitor.close_place, &monitor.name);
    Ok(())
}

/// A monitor, its scope being empty.
fn monitor_with<'a>(
    alloc: Global,
    findings: &mut Findings,
    top: &TopScope<'_, 'a>,
    names: &mut Scope<'a>,
    monitor: &'a Monitor,
) -> Result<(), OutOfMemory>
    requires { names.old.entries ≡ [] }
    ensures { OnOk result ((more : List Occurrence) → noted findings.new more ≡
        noted findings.old (monitor_names (top_site top.now) (placed_monitor monitor.now) more)) }
{
    tri!(declare::monitor(findings, names, top, monitor));
    let outer = OuterScopes {
        top: *top,
        members: Some(&*names),
        monitor: Some(monitor.place),
    };
    let around = ScopeChain {
        outer,
        locals: None,
    };
    monitor_parts(alloc, findings, &around, monitor)
}

fn monitor<'a>(
    alloc: Global,
    findings: &mut Findings,
    top: &TopScope<'_, 'a>,
    monitor: &'a Monitor,
) -> Result<(), OutOfMemory>
    ensures { OnOk result ((more : List Occurrence) → noted findings.new more ≡
        noted findings.old (monitor_names (top_site top.now) (placed_monitor monitor.now) more)) }
{
    let mut names = Scope::new(alloc);
    monitor_with(alloc, findings, top, &mut names, monitor)
}

/// A deadline or a first activation.
fn limit<'a>(
    findings: &mut Findings,
    around: &ScopeChain<'_, 'a>,
    limit: &Option<Constant>,
) -> Result<(), OutOfMemory>
    ensures { OnOk result ((more : List Occurrence) → noted findings.new more ≡
        noted findings.old (optional_names (constant_names (site around.now []))
        (optional placed_constant limit.now) more)) }
{
    match limit {
        Some(limit) => constant(findings, around, &[], limit),
        None => Ok(()),
    }
}

fn activation<'a>(
    findings: &mut Findings,
    around: &ScopeChain<'_, 'a>,
    activation: &Trigger,
) -> Result<(), OutOfMemory>
    ensures { OnOk result ((more : List Occurrence) → noted findings.new more ≡
        noted findings.old (activation_names (site around.now [])
        (placed_activation activation.now) more)) }
{
    match activation {
        Trigger::Periodic {
            frame,
            deadline,
            first,
        } => {
            tri!(constant(findings, around, &[], frame));
            tri!(limit(findings, around, deadline));
            limit(findings, around, first)
        }
        Trigger::AtEvent {
            event,
            event_place,
            frame,
            deadline,
        } => {
            tri!(around.use_name(findings, &[], event, *event_place, NameUse::Event));
            tri!(constant(findings, around, &[], frame));
            limit(findings, around, deadline)
        }
    }
}

fn handler<'a>(
    alloc: Global,
    findings: &mut Findings,
    around: &ScopeChain<'_, 'a>,
    handler: &'a Option<Handler>,
) -> Result<(), OutOfMemory>
    ensures { OnOk result ((more : List Occurrence) → noted findings.new more ≡
        noted findings.old (optional_names (handler_names (site around.now []))
        (optional placed_handler handler.now) more)) }
{
    match handler {
        Some(handler) => {
            tri!(constants(findings, around, handler.numbers.as_slice()));
            body(alloc, findings, around, handler.body.as_slice())
        }
        None => Ok(()),
    }
}

/// A process, its scope being made, and no routine being around.
fn process_parts<'a>(
    alloc: Global,
    findings: &mut Findings,
    around: &ScopeChain<'_, 'a>,
    process: &'a Process,
) -> Result<(), OutOfMemory>
    requires { site around.now [] ≡ outer_site around.now.outer }
    ensures { OnOk result ((more : List Occurrence) → noted findings.new more ≡
        noted findings.old (process_inner (outer_site around.now.outer)
        (placed_process process.now) more)) }
{
    tri!(activation(findings, around, &process.activation));
    tri!(vars(findings, around, process.vars.as_slice()));
    tri!(routines(alloc, findings, &around.outer, process.routines.as_slice()));
    tri!(body(alloc, findings, around, process.body.as_slice()));
    tri!(handler(alloc, findings, around, &process.handler));
    findings.close(&process.close, process.close_place, &process.name);
    Ok(())
}

/// A process, its scope being empty.
fn process_with<'a>(
    alloc: Global,
    findings: &mut Findings,
    top: &TopScope<'_, 'a>,
    names: &mut Scope<'a>,
    process: &'a Process,
) -> Result<(), OutOfMemory>
    requires { names.old.entries ≡ [] }
    ensures { OnOk result ((more : List Occurrence) → noted findings.new more ≡
        noted findings.old (process_names (top_site top.now) (placed_process process.now) more)) }
{
    tri!(declare::process(findings, names, top, process));
    let outer = OuterScopes {
        top: *top,
        members: Some(&*names),
        monitor: None,
    };
    let around = ScopeChain {
        outer,
        locals: None,
    };
    process_parts(alloc, findings, &around, process)
}

fn process<'a>(
    alloc: Global,
    findings: &mut Findings,
    top: &TopScope<'_, 'a>,
    process: &'a Process,
) -> Result<(), OutOfMemory>
    ensures { OnOk result ((more : List Occurrence) → noted findings.new more ≡
        noted findings.old (process_names (top_site top.now) (placed_process process.now) more)) }
{
    let mut names = Scope::new(alloc);
    process_with(alloc, findings, top, &mut names, process)
}

/// The names in a declaration, its own aside.
pub fn decl<'a>(
    alloc: Global,
    findings: &mut Findings,
    top: &TopScope<'_, 'a>,
    decl: &'a Declaration,
) -> Result<(), OutOfMemory>
    ensures { OnOk result ((more : List Occurrence) → noted findings.new more ≡
        noted findings.old (inner_names (top_site top.now) (placed_decl decl.now) more)) }
{
    match decl {
        Declaration::Const { value, .. } => {
            let around = top.outside().around();
            constant(findings, &around, &[], value)
        }
        Declaration::Device { .. } | Declaration::Event { .. } => Ok(()),
        Declaration::Routine(one) => routine(alloc, findings, &top.outside(), one),
        Declaration::Monitor(one) => monitor(alloc, findings, top, one),
        Declaration::Process(one) => process(alloc, findings, top, one),
    }
}
