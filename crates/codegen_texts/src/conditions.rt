//! Conditions, counted through all monitors.

ghost use Rattle.std.specs.Prelude.{◌≡◌, ◌≤◌, ◌+◌, ◌^◌, IfOk, OnOk, List, ◌∷◌, ◌++◌, filter_map, pos, slice_get};
ghost use Rattle.syntax_tree.specs.Plain.{Member as SpecMember, Monitor as SpecMonitor};
ghost use Rattle.syntax_tree.specs.Placed.{placed, placed_member, placed_monitor, plain, plain_member, plain_monitor};
ghost use Rattle.source_semantics.specs.Names.{condition_count, condition_in, conditions_of, monitors as monitors_in, place_of};
ghost use Rattle.code_names.specs.First.{names_of};
ghost use Rattle.codegen_spec.specs.Told.{fit};
ghost use Rattle.code_names.specs.Parts.{seen_monitors};
ghost use Rattle.codegen_texts.specs.Shared.{conditions_from, count_from, number_among};

use code_layout::{Tables, fit_word, number};
use code_names::NameList;
use out_of_memory::OutOfMemory;
use std::alloc::Global;
use syntax_tree::{Member, Monitor, Name};

/// The conditions of a monitor, and the number of the first.
#[derive(Drop)]
pub struct MonitorConditions<'a> {
    pub first: u128,
    pub names: NameList<'a>,
}

/// The conditions of each monitor, and how many there are: 128 bits are enough, since fewer than
/// 2^63 monitors have fewer than 2^64 conditions each.
#[derive(Drop)]
pub struct Conditions<'a> {
    pub lists: Vec<MonitorConditions<'a>>,
    pub count: u128,
}

/// Lists the condition that a member declares, if it does.
fn list_condition<'a>(names: &mut Vec<&'a [u8]>, member: &'a Member) -> Result<(), OutOfMemory>
    ensures { OnOk result ((rest : List SpecMember) → names_of names.new.items ++
        filter_map condition_in rest ≡ names_of names.old.items ++
        filter_map condition_in (plain_member (placed_member member.now) ∷ rest)) }
{
    if let Member::Condition { name, .. } = member {
        names.push(name.as_bytes())?;
    }
    Ok(())
}

/// The conditions of a monitor.
fn own_conditions<'a>(alloc: Global, monitor: &'a Monitor) -> Result<NameList<'a>, OutOfMemory>
    ensures { IfOk result (λ names. names ≡ conditions_of
        (plain_monitor (placed_monitor monitor.now))) }
{
    let mut names = Vec::new(alloc);
    for member in monitor.members.as_slice() {
        list_condition(&mut names, member)?;
    }
    let list = NameList::new(alloc, names)?;
    Ok(list)
}

/// Lists the conditions of a monitor behind those before.
fn list_monitor<'a>(
    alloc: Global,
    all: &mut Conditions<'a>,
    monitor: &'a Monitor,
) -> Result<(), OutOfMemory>
    requires { all.old.count ≤ 2 ^ 127 }
    ensures lists { OnOk result ((rest : List SpecMonitor) → all.new.lists.items ++
        conditions_from all.new.count rest ≡ all.old.lists.items ++
        conditions_from all.old.count (plain_monitor (placed_monitor monitor.now) ∷ rest)) }
    ensures count { OnOk result ((rest : List SpecMonitor) → count_from all.new.count rest ≡
        count_from all.old.count (plain_monitor (placed_monitor monitor.now) ∷ rest)) }
    ensures more { OnOk result (all.new.count ≤ all.old.count + 2 ^ 64) }
{
    let names = own_conditions(alloc, monitor)?;
    let next = all.count + names.len() as u128;
    all.lists.push(MonitorConditions {
        first: all.count,
        names,
    })?;
    all.count = next;
    Ok(())
}

/// The conditions of the monitors.
fn numbered_conditions<'a>(
    alloc: Global,
    monitors: &[&'a Monitor],
) -> Result<Conditions<'a>, OutOfMemory>
    ensures lists { IfOk result (λ all. all.lists.items ≡
        conditions_from 0 (seen_monitors monitors.now)) }
    ensures count { IfOk result (λ all. all.count ≡ condition_count (seen_monitors monitors.now)) }
{
    let mut all = Conditions {
        lists: Vec::new(alloc),
        count: 0,
    };
    for monitor in monitors {
        list_monitor(alloc, &mut all, monitor)?;
    }
    Ok(all)
}

/// The conditions of the monitors of a program.
pub fn program_conditions<'a>(
    alloc: Global,
    tables: &Tables<'a>,
) -> Result<Conditions<'a>, OutOfMemory>
    ensures lists { IfOk result (λ all. all.lists.items ≡
        conditions_from 0 (monitors_in (plain (placed tables.now)))) }
    ensures count { IfOk result (λ all. all.count ≡
        condition_count (monitors_in (plain (placed tables.now)))) }
{
    numbered_conditions(alloc, tables.numbering().directory().monitors())
}

/// The number of a condition among those of a monitor, which begin at their first.
fn own_number(own: &MonitorConditions<'_>, name: &Name) -> i32
    ensures { result ≡ fit (pos (own.now.first + place_of name.now own.now.names)) }
{
    let place = number(&own.names, name) as u128;
    fit_word(own.first.saturating_add(place))
}

/// The number of a condition of a monitor; how many there are where there is no such monitor.
pub fn condition_number(conditions: &Conditions<'_>, monitor: usize, name: &Name) -> i32
    ensures { result ≡ fit (pos (number_among
        (slice_get conditions.now.lists.items monitor) conditions.now.count name.now)) }
{
    match conditions.lists.get(monitor) {
        Some(own) => own_number(own, name),
        None => fit_word(conditions.count),
    }
}
