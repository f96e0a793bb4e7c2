//! The names of processes and monitors, and conditions with their monitors.

ghost use Rattle.std.specs.Prelude.{◌≡◌, ◌≤◌, ◌++◌, ◌∷◌, IfOk, OnOk, List, length, map};
ghost use Rattle.syntax_tree.specs.Plain.{Member as SpecMember};
ghost use Rattle.syntax_tree.specs.Placed.{placed_member, plain_member};
ghost use Rattle.code_names.specs.Parts.{seen_monitors, seen_processes};
ghost use Rattle.built_image.specs.Named.{named_conditions};
ghost use Rattle.compile_image.specs.Released.{conditions_named};

use crate::errors::tri;
use image::ConditionName;
use out_of_memory::OutOfMemory;
use std::alloc::Global;
use syntax_tree::{List, Member, Monitor, Name, Process};

/// A name once more.
pub fn copied(alloc: Global, name: &Name) -> Result<Name, OutOfMemory>
    ensures { IfOk result (λ copy. copy ≡ name.now) }
{
    Name::new(alloc, name.as_bytes())
}

/// The names of processes.
pub fn process_names(alloc: Global, processes: &[&Process]) -> Result<List<Name>, OutOfMemory>
    ensures { IfOk result (λ names. names ≡ map (λ p. p.name) (seen_processes processes.now)) }
{
    let mut names = List::new(alloc);
    for process in processes {
        let name = tri!(copied(alloc, &process.name));
        tri!(names.push(name));
    }
    Ok(names)
}

/// The names of monitors.
pub fn monitor_names(alloc: Global, monitors: &[&Monitor]) -> Result<List<Name>, OutOfMemory>
    ensures { IfOk result (λ names. names ≡ map (λ m. m.name) (seen_monitors monitors.now)) }
{
    let mut names = List::new(alloc);
    for monitor in monitors {
        let name = tri!(copied(alloc, &monitor.name));
        tri!(names.push(name));
    }
    Ok(names)
}

/// Lists a member of a monitor, if it is a condition.
fn list_condition(
    alloc: Global,
    monitor: u16,
    conditions: &mut List<ConditionName>,
    member: &Member,
) -> Result<(), OutOfMemory>
    ensures { OnOk result ((rest : List SpecMember) → conditions.new ++
        conditions_named monitor rest ≡ conditions.old ++
        conditions_named monitor (plain_member (placed_member member.now) ∷ rest)) }
{
    if let Member::Condition { name, .. } = member {
        let name = tri!(copied(alloc, name));
        tri!(conditions.push(ConditionName { name, mon: monitor }));
    }
    Ok(())
}

/// Lists the conditions of a monitor.
fn list_conditions(
    alloc: Global,
    monitor: u16,
    conditions: &mut List<ConditionName>,
    members: &[Member],
) -> Result<(), OutOfMemory>
    ensures { OnOk result (conditions.new ≡ conditions.old ++
        conditions_named monitor (map plain_member (map placed_member members.now))) }
{
    for member in members {
        tri!(list_condition(alloc, monitor, conditions, member));
    }
    Ok(())
}

/// The conditions of all monitors, each with the number of its monitor.
pub fn condition_names(
    alloc: Global,
    monitors: &[&Monitor],
) -> Result<List<ConditionName>, OutOfMemory>
    requires few { length monitors.now ≤ 64 }
    ensures { IfOk result (λ conditions. conditions ≡
        named_conditions 0 (seen_monitors monitors.now)) }
{
    let mut conditions = List::new(alloc);
    for (number, monitor) in monitors.iter().enumerate() {
        let members = monitor.members.as_slice();
        tri!(list_conditions(alloc, number as u16, &mut conditions, members));
    }
    Ok(conditions)
}
