//! The names in statements.

ghost use Rattle.std.specs.Prelude.{◌≡◌, ◌++◌, OnOk};
ghost use Rattle.syntax_tree.specs.Placed.{placed_constant, placed_exprs, placed_stmt, placed_stmts};
ghost use Rattle.message_names.specs.declared.role.What.TheVariants.{LoopVariable};
ghost use Rattle.message_names.specs.Mentions.{bounds_mentions, declares, entry_mentions, loop_mentions, stmt_mentions, stmts_mentions};
ghost use Rattle.message_names.specs.Seen.{is_change, is_plain, mention_of, mentions_if};

use crate::errors::tri;
use crate::expressions::{bounds, constant, expr, exprs, target};
use crate::mentions::{Mention, Mentions};
use crate::role::{Reach, Role, Scope, Wanted, What};
use out_of_memory::OutOfMemory;
use syntax_tree::{Constant, Expr, Name, Place, Stmt};

/// The variable of a loop, which reaches behind one place, up to another.
fn loop_variable<'a>(variable: (&'a Name, Place), begin: Place, end: Place) -> Mention<'a>
    ensures { mention_of result ≡ declares LoopVariable (record { begin = begin; end = end })
        variable.entry.0.now variable.entry.1 }
{
    let scope = Scope { begin, end };
    let reach = Reach {
        what: What::LoopVariable,
        scope,
        from: begin,
    };
    Mention {
        name: variable.0.as_bytes(),
        place: variable.1,
        role: Role::Declares(reach),
    }
}

/// A call of an entry.
fn entry_call<'a>(
    mentions: &mut Mentions<'a>,
    monitor: &'a Name,
    monitor_place: Place,
    entry: &'a Name,
    entry_place: Place,
    args: &'a [Expr],
) -> Result<(), OutOfMemory>
    ensures { OnOk result (mentions.new ≡ mentions.old ++ entry_mentions monitor.now monitor_place
        entry.now entry_place (placed_exprs args.now)) }
{
    tri!(mentions.uses(Wanted::Monitor, monitor, monitor_place));
    tri!(mentions.uses(Wanted::Entry(monitor_place), entry, entry_place));
    exprs(mentions, args)
}

/// A statement that is an assignment or a call.
fn change<'a>(mentions: &mut Mentions<'a>, s: &'a Stmt) -> Result<(), OutOfMemory>
    ensures { OnOk result (mentions.new ≡ mentions.old ++
        mentions_if is_change (placed_stmt s.now)) }
{
    match s {
        Stmt::Assign { target: to, value } => {
            tri!(target(mentions, to));
            expr(mentions, value)
        }
        Stmt::AssignEntry {
            target: to,
            mon,
            mon_place,
            entry,
            entry_place,
            args,
        } => {
            tri!(target(mentions, to));
            entry_call(
                mentions,
                mon,
                *mon_place,
                entry,
                *entry_place,
                args.as_slice(),
            )
        }
        Stmt::AssignEmpty {
            target: to,
            cond,
            cond_place,
        } => {
            tri!(target(mentions, to));
            mentions.uses(Wanted::Condition, cond, *cond_place)
        }
        Stmt::Call { place, name, args } => {
            tri!(mentions.uses(Wanted::Routine, name, *place));
            exprs(mentions, args.as_slice())
        }
        Stmt::CallEntry {
            place,
            mon,
            entry,
            entry_place,
            args,
        } => entry_call(mentions, mon, *place, entry, *entry_place, args.as_slice()),
        _ => Ok(()),
    }
}

/// A statement in which no others stand.
fn plain<'a>(mentions: &mut Mentions<'a>, s: &'a Stmt) -> Result<(), OutOfMemory>
    ensures { OnOk result (mentions.new ≡ mentions.old ++
        mentions_if is_plain (placed_stmt s.now)) }
{
    match s {
        Stmt::ExitWhen { test, .. } | Stmt::Assert { test, .. } => expr(mentions, test),
        Stmt::Get {
            device,
            device_place,
            target: to,
            ..
        } => {
            tri!(mentions.uses(Wanted::Device, device, *device_place));
            target(mentions, to)
        }
        Stmt::Put {
            device,
            device_place,
            value,
            ..
        } => {
            tri!(mentions.uses(Wanted::Device, device, *device_place));
            expr(mentions, value)
        }
        Stmt::Wait {
            cond,
            cond_place,
            limit,
            number,
            ..
        } => {
            tri!(mentions.uses(Wanted::Condition, cond, *cond_place));
            bounds(mentions, limit, number)
        }
        Stmt::Signal {
            cond,
            cond_place,
            ..
        }
        | Stmt::Broadcast {
            cond,
            cond_place,
            ..
        } => mentions.uses(Wanted::Condition, cond, *cond_place),
        Stmt::Except { number, .. } => constant(mentions, number),
        Stmt::Assign { .. }
        | Stmt::AssignEntry { .. }
        | Stmt::AssignEmpty { .. }
        | Stmt::Call { .. }
        | Stmt::CallEntry { .. } => change(mentions, s),
        Stmt::If { .. } | Stmt::For { .. } => Ok(()),
    }
}

/// Statements.
#[cycle(stmt)]
pub(crate) fn stmts<'a>(mentions: &mut Mentions<'a>, list: &'a [Stmt]) -> Result<(), OutOfMemory>
    ensures { OnOk result (mentions.new ≡ mentions.old ++ stmts_mentions (placed_stmts list.now)) }
{
    for s in list {
        tri!(stmt(mentions, s));
    }
    Ok(())
}

/// A loop. How far its variable reaches is known when all of its names are.
#[cycle(stmt)]
fn for_loop<'a>(
    mentions: &mut Mentions<'a>,
    variable: (&'a Name, Place),
    low: &'a Constant,
    high: &'a Constant,
    body: &'a [Stmt],
) -> Result<(), OutOfMemory>
    ensures { OnOk result (mentions.new ≡ mentions.old ++ loop_mentions variable.entry.0.now
        variable.entry.1 (placed_constant high.now)
        (bounds_mentions (placed_constant low.now) (placed_constant high.now) ++
        stmts_mentions (placed_stmts body.now))) }
{
    let index = mentions.len();
    tri!(mentions.push(loop_variable(variable, high.value_place, variable.1)));
    tri!(bounds(mentions, low, high));
    tri!(stmts(mentions, body));
    let end = mentions.last_place(variable.1);
    mentions.replace(index, loop_variable(variable, high.value_place, end));
    Ok(())
}

/// A statement, and those in it.
#[cycle(stmt)]
fn stmt<'a>(mentions: &mut Mentions<'a>, s: &'a Stmt) -> Result<(), OutOfMemory>
    ensures { OnOk result (mentions.new ≡ mentions.old ++ stmt_mentions (placed_stmt s.now)) }
{
    match s {
        Stmt::If {
            test,
            first,
            second,
            ..
        } => {
            tri!(expr(mentions, test));
            tri!(stmts(mentions, first.as_slice()));
            match second {
                Some(second) => stmts(mentions, second.as_slice()),
                None => Ok(()),
            }
        }
        Stmt::For {
            name,
            name_place,
            low,
            high,
            body,
            ..
        } => for_loop(mentions, (name, *name_place), low, high, body.as_slice()),
        _ => plain(mentions, s),
    }
}
