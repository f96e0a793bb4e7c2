//! The monitors of a program, with an entry for each different stay.

ghost use Rattle.std.specs.Prelude.{◌≡◌, ◌++◌, [], ◌∷◌, nat_eq, IfOk, OnOk};
ghost use Rattle.std.specs.List.{list_any};
ghost use Rattle.syntax_tree.specs.Placed.{monitor};
ghost use Rattle.table_format.specs.Rules.{same_name};
ghost use Rattle.table_format.specs.Parts.{declarations_text, entries_text, monitor_with, monitors_of, seen, ticks_in, with_name, with_stay, with_ticks};

use crate::TaskStay;
use crate::parts::add_parts;
use crate::spending::add_spending;
use itoa::Buffer;
use out_of_memory::OutOfMemory;
use std::alloc::Global;
use syntax_tree::Text;

/// Whether the name is one of these.
fn is_listed(names: &[&[u8]], name: &[u8]) -> bool
    ensures { result ≡ list_any (λ other. same_name other.now name.now) names.now }
{
    names.iter().any(|other| *other == name)
}

/// Puts the monitor at the end of a list unless it is there.
fn add_once<'a>(monitors: &mut Vec<&'a [u8]>, name: &'a [u8]) -> Result<(), OutOfMemory>
    ensures { OnOk result (seen monitors.new.items ≡ with_name (seen monitors.old.items) name.now) }
{
    if is_listed(monitors.as_slice(), name) {
        return Ok(());
    }
    monitors.push(name)?;
    Ok(())
}

/// The monitors of some stays, each once, in the order in which they stand first.
pub fn monitor_names<'a>(
    alloc: Global,
    stays: &[&'a TaskStay],
) -> Result<Vec<&'a [u8]>, OutOfMemory>
    ensures { IfOk result (λ all. seen all.items ≡ monitors_of (seen stays.now)) }
{
    let mut all = Vec::new(alloc);
    for stay in stays {
        add_once(&mut all, stay.monitor.as_bytes())?;
    }
    Ok(all)
}

/// Whether the ticks are among these.
fn has_ticks(all: &[u64], ticks: u64) -> bool
    ensures { result ≡ list_any (λ other. nat_eq other ticks) all.now }
{
    all.iter().any(|other| *other == ticks)
}

/// Puts the ticks at the end of a list unless they are there.
fn add_new(all: &mut Vec<u64>, ticks: u64) -> Result<(), OutOfMemory>
    ensures { OnOk result (all.new.items ≡ with_ticks all.old.items ticks) }
{
    if has_ticks(all.as_slice(), ticks) {
        return Ok(());
    }
    all.push(ticks)?;
    Ok(())
}

/// Puts the ticks of the stay at the end of a list, where it is one in the monitor of this name,
/// unless they are there.
fn add_ticks(all: &mut Vec<u64>, stay: &TaskStay, name: &[u8]) -> Result<(), OutOfMemory>
    ensures { OnOk result (all.new.items ≡ with_stay name.now all.old.items stay.now) }
{
    if name == stay.monitor.as_bytes() {
        return add_new(all, stay.ticks);
    }
    Ok(())
}

/// The different stays in the monitor of this name, in the order in which they stand first.
fn ticks_in_monitor(
    alloc: Global,
    stays: &[&TaskStay],
    name: &[u8],
) -> Result<Vec<u64>, OutOfMemory>
    ensures { IfOk result (λ all. all.items ≡ ticks_in name.now (seen stays.now)) }
{
    let mut all = Vec::new(alloc);
    for stay in stays {
        add_ticks(&mut all, stay, name)?;
    }
    Ok(all)
}

/// Puts the entry for a stay at the end of a text.
fn add_entry(text: &mut Text, tail: &[u8], ticks: u64) -> Result<(), OutOfMemory>
    ensures { OnOk result (text.new ≡ text.old ++ entries_text tail.now (ticks ∷ [])) }
{
    let mut digits = Buffer::new();
    let name = digits.format(ticks).as_bytes();
    add_parts(text, &[b"entry procedure stay", name, tail, b" ( )\n"])?;
    add_parts(text, &[b"var x", tail, b" : int\nbegin\n"])?;
    add_spending(text, tail, ticks.saturating_sub(3))?;
    add_parts(text, &[b"end stay", name, tail, b"\n"])
}

/// Puts the entries for some stays at the end of a text.
fn add_entries(text: &mut Text, tail: &[u8], all: &[u64]) -> Result<(), OutOfMemory>
    ensures { OnOk result (text.new ≡ text.old ++ entries_text tail.now all.now) }
{
    for ticks in all {
        add_entry(text, tail, *ticks)?;
    }
    Ok(())
}

/// Puts the monitor of this name, with its entries, at the end of a text.
pub fn add_monitor(
    alloc: Global,
    text: &mut Text,
    tail: &[u8],
    stays: &[&TaskStay],
    name: &[u8],
) -> Result<(), OutOfMemory>
    ensures { OnOk result (text.new ≡ text.old ++
        declarations_text (monitor (monitor_with tail.now (seen stays.now) name.now) ∷ [])) }
{
    let all = ticks_in_monitor(alloc, stays, name)?;
    add_parts(text, &[b"monitor ", name, b"\n"])?;
    add_entries(text, tail, all.as_slice())?;
    add_parts(text, &[b"end ", name, b"\n"])
}
