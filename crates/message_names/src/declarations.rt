//! The names in declarations.

ghost use Rattle.std.specs.Prelude.{◌≡◌, [], ◌∷◌, ◌++◌, IfOk, OnOk, flat_map, map};
ghost use Rattle.std.specs.Option.{option_map_or};
ghost use Rattle.syntax_tree.specs.Placed.{optional, placed, placed_activation, placed_constant, placed_decl, placed_expr, placed_handler, placed_kind, placed_member, placed_monitor, placed_param, placed_process, placed_routine, placed_routine_kind, placed_scalar, placed_var};
ghost use Rattle.message_names.specs.Mentions as listed;

use crate::errors::tri;
use crate::expressions::{constant, expr, kind, scalar};
use crate::mentions::Mentions;
use crate::role::{BEFORE_ALL, Reach, Role, Scope, Wanted, What, scope_from};
use crate::statements::stmts;
use out_of_memory::OutOfMemory;
use std::alloc::Global;
use syntax_tree::{
    Constant, Declaration, Expr, Handler, Member, Monitor, Name, Param, Place, Process, Program,
    Routine, RoutineKind, Scalar, Trigger, Var,
};

/// A closing name.
fn closes<'a>(
    mentions: &mut Mentions<'a>,
    name: &'a Name,
    place: Place,
    opening: Place,
) -> Result<(), OutOfMemory>
    ensures { OnOk result (mentions.new ≡ mentions.old ++
        listed.closes name.now place opening ∷ []) }
{
    mentions.add(name, place, Role::Closes(opening))
}

fn var<'a>(mentions: &mut Mentions<'a>, scope: Scope, var: &'a Var) -> Result<(), OutOfMemory>
    ensures { OnOk result (mentions.new ≡ mentions.old ++
        listed.var_mentions scope (placed_var var.now)) }
{
    tri!(mentions.declares(What::Variable, scope, &var.name, var.place));
    kind(mentions, &var.kind)
}

fn vars<'a>(mentions: &mut Mentions<'a>, scope: Scope, list: &'a [Var]) -> Result<(), OutOfMemory>
    ensures { OnOk result (mentions.new ≡ mentions.old ++
        flat_map (listed.var_mentions scope) (map placed_var list.now)) }
{
    for one in list {
        tri!(var(mentions, scope, one));
    }
    Ok(())
}

fn param<'a>(mentions: &mut Mentions<'a>, scope: Scope, param: &'a Param) -> Result<(), OutOfMemory>
    ensures { OnOk result (mentions.new ≡ mentions.old ++
        listed.param_mentions scope (placed_param param.now)) }
{
    tri!(mentions.declares(What::Parameter, scope, &param.name, param.place));
    scalar(mentions, &param.kind)
}

fn params<'a>(
    mentions: &mut Mentions<'a>,
    scope: Scope,
    list: &'a [Param],
) -> Result<(), OutOfMemory>
    ensures { OnOk result (mentions.new ≡ mentions.old ++
        flat_map (listed.param_mentions scope) (map placed_param list.now)) }
{
    for one in list {
        tri!(param(mentions, scope, one));
    }
    Ok(())
}

fn member<'a>(
    mentions: &mut Mentions<'a>,
    scope: Scope,
    member: &'a Member,
) -> Result<(), OutOfMemory>
    ensures { OnOk result (mentions.new ≡ mentions.old ++
        listed.member_mentions scope (placed_member member.now)) }
{
    match member {
        Member::Var(one) => var(mentions, scope, one),
        Member::Condition { name, place } => {
            mentions.declares(What::Condition, scope, name, *place)
        }
    }
}

fn members<'a>(
    mentions: &mut Mentions<'a>,
    scope: Scope,
    list: &'a [Member],
) -> Result<(), OutOfMemory>
    ensures { OnOk result (mentions.new ≡ mentions.old ++
        flat_map (listed.member_mentions scope) (map placed_member list.now)) }
{
    for one in list {
        tri!(member(mentions, scope, one));
    }
    Ok(())
}

/// The type of a result.
fn result<'a>(mentions: &mut Mentions<'a>, kind: &'a Option<Scalar>) -> Result<(), OutOfMemory>
    ensures { OnOk result (mentions.new ≡ mentions.old ++
        option_map_or listed.scalar_mentions (optional placed_scalar kind.now) []) }
{
    match kind {
        Some(kind) => scalar(mentions, kind),
        None => Ok(()),
    }
}

/// The expression of a result.
fn value<'a>(mentions: &mut Mentions<'a>, value: &'a Option<Expr>) -> Result<(), OutOfMemory>
    ensures { OnOk result (mentions.new ≡ mentions.old ++
        option_map_or listed.expr_mentions (optional placed_expr value.now) []) }
{
    match value {
        Some(value) => expr(mentions, value),
        None => Ok(()),
    }
}

/// All of a routine behind its name.
fn routine_inner<'a>(mentions: &mut Mentions<'a>, routine: &'a Routine) -> Result<(), OutOfMemory>
    ensures { OnOk result (mentions.new ≡ mentions.old ++
        listed.routine_inner (placed_routine routine.now)) }
{
    let scope = scope_from(routine.place, routine.close_place);
    tri!(params(mentions, scope, routine.params.as_slice()));
    tri!(result(mentions, &routine.result));
    tri!(vars(mentions, scope, routine.vars.as_slice()));
    tri!(stmts(mentions, routine.body.as_slice()));
    tri!(value(mentions, &routine.value));
    closes(mentions, &routine.close, routine.close_place, routine.place)
}

/// What a routine is declared as.
fn routine_what(is_entry: bool, kind: RoutineKind) -> What
    ensures { result ≡ listed.routine_what is_entry (placed_routine_kind kind) }
{
    if is_entry {
        return What::Entry;
    }
    match kind {
        RoutineKind::Procedure => What::Procedure,
        RoutineKind::Function => What::Function,
    }
}

fn routine<'a>(
    mentions: &mut Mentions<'a>,
    is_entry: bool,
    scope: Scope,
    routine: &'a Routine,
) -> Result<(), OutOfMemory>
    ensures { OnOk result (mentions.new ≡ mentions.old ++
        listed.routine_mentions is_entry scope (placed_routine routine.now)) }
{
    let what = routine_what(is_entry, routine.kind);
    tri!(mentions.declares(what, scope, &routine.name, routine.place));
    routine_inner(mentions, routine)
}

fn routines<'a>(
    mentions: &mut Mentions<'a>,
    is_entry: bool,
    scope: Scope,
    list: &'a [Routine],
) -> Result<(), OutOfMemory>
    ensures { OnOk result (mentions.new ≡ mentions.old ++
        flat_map (listed.routine_mentions is_entry scope) (map placed_routine list.now)) }
{
    for one in list {
        tri!(routine(mentions, is_entry, scope, one));
    }
    Ok(())
}

fn monitor<'a>(
    mentions: &mut Mentions<'a>,
    outer: Scope,
    monitor: &'a Monitor,
) -> Result<(), OutOfMemory>
    ensures { OnOk result (mentions.new ≡ mentions.old ++
        listed.monitor_mentions outer (placed_monitor monitor.now)) }
{
    let scope = scope_from(monitor.place, monitor.close_place);
    tri!(mentions.declares(What::Monitor, outer, &monitor.name, monitor.place));
    tri!(members(mentions, scope, monitor.members.as_slice()));
    tri!(routines(mentions, true, scope, monitor.entries.as_slice()));
    closes(mentions, &monitor.close, monitor.close_place, monitor.place)
}

/// A constant, if there is one.
fn optional_constant<'a>(
    mentions: &mut Mentions<'a>,
    number: &'a Option<Constant>,
) -> Result<(), OutOfMemory>
    ensures { OnOk result (mentions.new ≡ mentions.old ++
        option_map_or listed.constant_mentions (optional placed_constant number.now) []) }
{
    match number {
        Some(number) => constant(mentions, number),
        None => Ok(()),
    }
}

/// When a process is released.
fn activation<'a>(mentions: &mut Mentions<'a>, activation: &'a Trigger) -> Result<(), OutOfMemory>
    ensures { OnOk result (mentions.new ≡ mentions.old ++
        listed.activation_mentions (placed_activation activation.now)) }
{
    match activation {
        Trigger::Periodic {
            frame,
            deadline,
            first,
        } => {
            tri!(constant(mentions, frame));
            tri!(optional_constant(mentions, deadline));
            optional_constant(mentions, first)
        }
        Trigger::AtEvent {
            event,
            event_place,
            frame,
            deadline,
        } => {
            tri!(mentions.uses(Wanted::Event, event, *event_place));
            tri!(constant(mentions, frame));
            optional_constant(mentions, deadline)
        }
    }
}

/// Constants.
fn constants<'a>(mentions: &mut Mentions<'a>, list: &'a [Constant]) -> Result<(), OutOfMemory>
    ensures { OnOk result (mentions.new ≡ mentions.old ++
        flat_map listed.constant_mentions (map placed_constant list.now)) }
{
    for number in list {
        tri!(constant(mentions, number));
    }
    Ok(())
}

fn handler<'a>(mentions: &mut Mentions<'a>, handler: &'a Option<Handler>) -> Result<(), OutOfMemory>
    ensures { OnOk result (mentions.new ≡ mentions.old ++
        option_map_or listed.handler_mentions (optional placed_handler handler.now) []) }
{
    match handler {
        Some(handler) => {
            tri!(constants(mentions, handler.numbers.as_slice()));
            stmts(mentions, handler.body.as_slice())
        }
        None => Ok(()),
    }
}

fn process<'a>(
    mentions: &mut Mentions<'a>,
    outer: Scope,
    process: &'a Process,
) -> Result<(), OutOfMemory>
    ensures { OnOk result (mentions.new ≡ mentions.old ++
        listed.process_mentions outer (placed_process process.now)) }
{
    let scope = scope_from(process.place, process.close_place);
    tri!(mentions.declares(What::Process, outer, &process.name, process.place));
    tri!(activation(mentions, &process.activation));
    tri!(vars(mentions, scope, process.vars.as_slice()));
    tri!(routines(mentions, false, scope, process.routines.as_slice()));
    tri!(stmts(mentions, process.body.as_slice()));
    tri!(handler(mentions, &process.handler));
    closes(mentions, &process.close, process.close_place, process.place)
}

/// A constant of the program, which reaches only behind its value.
fn named_constant<'a>(
    mentions: &mut Mentions<'a>,
    scope: Scope,
    name: &'a Name,
    place: Place,
    value: &'a Constant,
) -> Result<(), OutOfMemory>
    ensures { let c = placed_constant value.now in OnOk result (mentions.new ≡ mentions.old ++
        listed.constant_declares scope name.now place (listed.value_place c) ∷
        listed.constant_mentions c) }
{
    let reach = Reach {
        what: What::Constant,
        scope,
        from: value.value_place,
    };
    tri!(mentions.add(name, place, Role::Declares(reach)));
    constant(mentions, value)
}

fn decl<'a>(
    mentions: &mut Mentions<'a>,
    scope: Scope,
    decl: &'a Declaration,
) -> Result<(), OutOfMemory>
    ensures { OnOk result (mentions.new ≡ mentions.old ++
        listed.decl_mentions scope (placed_decl decl.now)) }
{
    match decl {
        Declaration::Const { name, place, value } => {
            named_constant(mentions, scope, name, *place, value)
        }
        Declaration::Device { name, place, .. } => {
            mentions.declares(What::Device, scope, name, *place)
        }
        Declaration::Event { name, place } => mentions.declares(What::Event, scope, name, *place),
        Declaration::Routine(one) => routine(mentions, false, scope, one),
        Declaration::Monitor(one) => monitor(mentions, scope, one),
        Declaration::Process(one) => process(mentions, scope, one),
    }
}

fn decls<'a>(
    mentions: &mut Mentions<'a>,
    scope: Scope,
    list: &'a [Declaration],
) -> Result<(), OutOfMemory>
    ensures { OnOk result (mentions.new ≡ mentions.old ++
        flat_map (listed.decl_mentions scope) (map placed_decl list.now)) }
{
    for one in list {
        tri!(decl(mentions, scope, one));
    }
    Ok(())
}

/// Puts the names of a program.
fn add_program<'a>(mentions: &mut Mentions<'a>, program: &'a Program) -> Result<(), OutOfMemory>
    ensures { OnOk result (mentions.new ≡ mentions.old ++ listed.mentions (placed program.now)) }
{
    let scope = scope_from(BEFORE_ALL, program.close_place);
    tri!(mentions.declares(What::Program, scope, &program.name, program.place));
    tri!(decls(mentions, scope, program.decls.as_slice()));
    closes(mentions, &program.close, program.close_place, program.place)
}

/// The names of a program, in the order of the text.
pub(crate) fn mentions(alloc: Global, program: &Program) -> Result<Mentions<'_>, OutOfMemory>
    ensures { IfOk result (λ ms. ms ≡ listed.mentions (placed program.now)) }
{
    let mut found = Mentions::new(alloc);
    tri!(add_program(&mut found, program));
    Ok(found)
}
