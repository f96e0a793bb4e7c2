//! Declarations of one scope: its names, one after another.

ghost use Rattle.std.specs.Prelude.{◌≡◌, OnOk, List, [], ◌∷◌, map};
ghost use Rattle.syntax_tree.specs.Placed.{placed_param, placed_var, placed_member, placed_routine, placed_monitor, placed_process};
ghost use Rattle.static_names.specs.Occurrences.{param_name, var_name, member_name, routine_name as name_of_routine, entry_name as name_of_entry, routine_scope, monitor_scope, process_scope};
ghost use Rattle.static_names.specs.Seen.{meaning, top_site, outer_site, Scoped};

use crate::errors::tri;
use crate::findings::Findings;
use crate::kind::{Declared, Kind};
use crate::scope::{Scope, add_unless, find};
use crate::scope_chain::{OuterScopes, TopScope};
use out_of_memory::OutOfMemory;
use syntax_tree::{Member, Monitor, Name, Param, Process, Routine, Var};

/// Declares a name in a scope.
fn declare<'a>(
    findings: &mut Findings,
    scope: &mut Scope<'a>,
    outer: &OuterScopes<'_, 'a>,
    name: &'a Name,
    declared: Declared,
) -> Result<(), OutOfMemory>
    ensures { OnOk result (Scoped (outer_site outer.now).means findings.old
        (meaning scope.old.entries) ((name.now, declared) ∷ []) findings.new
        (meaning scope.new.entries) []) }
{
    let here = find(scope, name.as_bytes()).is_some();
    let taken = here || outer.means(name.as_bytes()).is_some();
    findings.declare(declared.place, taken);
    add_unless(here, scope, name.as_bytes(), declared)
}

fn params<'a>(
    findings: &mut Findings,
    scope: &mut Scope<'a>,
    outer: &OuterScopes<'_, 'a>,
    list: &'a [Param],
) -> Result<(), OutOfMemory>
    ensures { OnOk result (Scoped (outer_site outer.now).means findings.old
        (meaning scope.old.entries) (map param_name (map placed_param list.now)) findings.new
        (meaning scope.new.entries) []) }
{
    for param in list {
        let declared = Declared {
            place: param.place,
            kind: Kind::Variable,
        };
        tri!(declare(findings, scope, outer, &param.name, declared));
    }
    Ok(())
}

fn vars<'a>(
    findings: &mut Findings,
    scope: &mut Scope<'a>,
    outer: &OuterScopes<'_, 'a>,
    list: &'a [Var],
) -> Result<(), OutOfMemory>
    ensures { OnOk result (Scoped (outer_site outer.now).means findings.old
        (meaning scope.old.entries) (map var_name (map placed_var list.now)) findings.new
        (meaning scope.new.entries) []) }
{
    for var in list {
        let declared = Declared {
            place: var.place,
            kind: Kind::Variable,
        };
        tri!(declare(findings, scope, outer, &var.name, declared));
    }
    Ok(())
}

fn member<'a>(
    findings: &mut Findings,
    scope: &mut Scope<'a>,
    outer: &OuterScopes<'_, 'a>,
    member: &'a Member,
) -> Result<(), OutOfMemory>
    ensures { OnOk result (Scoped (outer_site outer.now).means findings.old
        (meaning scope.old.entries) (member_name (placed_member member.now) ∷ []) findings.new
        (meaning scope.new.entries) []) }
{
    match member {
        Member::Var(var) => {
            let declared = Declared {
                place: var.place,
                kind: Kind::Variable,
            };
            declare(findings, scope, outer, &var.name, declared)
        }
        Member::Condition { name, place } => {
            let declared = Declared {
                place: *place,
                kind: Kind::Condition,
            };
            declare(findings, scope, outer, name, declared)
        }
    }
}

fn members<'a>(
    findings: &mut Findings,
    scope: &mut Scope<'a>,
    outer: &OuterScopes<'_, 'a>,
    list: &'a [Member],
) -> Result<(), OutOfMemory>
    ensures { OnOk result (Scoped (outer_site outer.now).means findings.old
        (meaning scope.old.entries) (map member_name (map placed_member list.now)) findings.new
        (meaning scope.new.entries) []) }
{
    for one in list {
        tri!(member(findings, scope, outer, one));
    }
    Ok(())
}

fn entries<'a>(
    findings: &mut Findings,
    scope: &mut Scope<'a>,
    outer: &OuterScopes<'_, 'a>,
    list: &'a [Routine],
) -> Result<(), OutOfMemory>
    ensures { OnOk result (Scoped (outer_site outer.now).means findings.old
        (meaning scope.old.entries) (map name_of_entry (map placed_routine list.now)) findings.new
        (meaning scope.new.entries) []) }
{
    for entry in list {
        let declared = Declared {
            place: entry.place,
            kind: Kind::Entry,
        };
        tri!(declare(findings, scope, outer, &entry.name, declared));
    }
    Ok(())
}

fn routines<'a>(
    findings: &mut Findings,
    scope: &mut Scope<'a>,
    outer: &OuterScopes<'_, 'a>,
    list: &'a [Routine],
) -> Result<(), OutOfMemory>
    ensures { OnOk result (Scoped (outer_site outer.now).means findings.old
        (meaning scope.old.entries) (map name_of_routine (map placed_routine list.now)) findings.new
        (meaning scope.new.entries) []) }
{
    for routine in list {
        let declared = Declared {
            place: routine.place,
            kind: Kind::Routine,
        };
        tri!(declare(findings, scope, outer, &routine.name, declared));
    }
    Ok(())
}

/// The parameters and variables of a routine.
pub fn routine<'a>(
    findings: &mut Findings,
    scope: &mut Scope<'a>,
    outer: &OuterScopes<'_, 'a>,
    routine: &'a Routine,
) -> Result<(), OutOfMemory>
    ensures { OnOk result (Scoped (outer_site outer.now).means findings.old
        (meaning scope.old.entries) (routine_scope (placed_routine routine.now)) findings.new
        (meaning scope.new.entries) []) }
{
    tri!(params(findings, scope, outer, routine.params.as_slice()));
    vars(findings, scope, outer, routine.vars.as_slice())
}

/// The variables, conditions and entries of a monitor.
pub fn monitor<'a>(
    findings: &mut Findings,
    scope: &mut Scope<'a>,
    top: &TopScope<'_, 'a>,
    monitor: &'a Monitor,
) -> Result<(), OutOfMemory>
    ensures { OnOk result (Scoped (top_site top.now).means findings.old (meaning scope.old.entries)
        (monitor_scope (placed_monitor monitor.now)) findings.new (meaning scope.new.entries) []) }
{
    let outer = top.outside();
    tri!(members(findings, scope, &outer, monitor.members.as_slice()));
    entries(findings, scope, &outer, monitor.entries.as_slice())
}

/// The variables and routines of a process.
pub fn process<'a>(
    findings: &mut Findings,
    scope: &mut Scope<'a>,
    top: &TopScope<'_, 'a>,
    process: &'a Process,
) -> Result<(), OutOfMemory>
    ensures { OnOk result (Scoped (top_site top.now).means findings.old (meaning scope.old.entries)
        (process_scope (placed_process process.now)) findings.new (meaning scope.new.entries) []) }
{
    let outer = top.outside();
    tri!(vars(findings, scope, &outer, process.vars.as_slice()));
    routines(findings, scope, &outer, process.routines.as_slice())
}
