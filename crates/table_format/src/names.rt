//! The names of a table, and the names that its program has besides.

ghost use Rattle.std.specs.Prelude.{◌≡◌, ◌++◌, [], ◌∷◌, map, flat_map, IfOk, OnOk};
ghost use Rattle.std.specs.List.{concat, list_any};
ghost use Rattle.table_format.specs.Rules.{names as names_of, same_name, stays as stays_of, task_names};
ghost use Rattle.table_format.specs.Program.{made_tail as tail_of_table, stay_name, tail_of as tail_numbered};
ghost use Rattle.table_format.specs.Parts.{are_met, first_free, made_with as made_of, seen, tried};

use crate::parts::add_parts;
use crate::{TaskLine, TaskStay, TaskTable};
use itoa::Buffer;
use out_of_memory::OutOfMemory;
use std::alloc::Global;
use syntax_tree::{List, Text};

/// Puts some stays at the end of a list.
fn add_stays<'a>(all: &mut Vec<&'a TaskStay>, stays: &'a [TaskStay]) -> Result<(), OutOfMemory>
    ensures { OnOk result (seen all.new.items ≡ seen all.old.items ++ stays.now) }
{
    for stay in stays {
        all.push(stay)?;
    }
    Ok(())
}

/// The stays of some process lines, in order.
pub fn all_stays(alloc: Global, tasks: &[TaskLine]) -> Result<Vec<&TaskStay>, OutOfMemory>
    ensures { IfOk result (λ all. seen all.items ≡ flat_map (λ p. p.stays) tasks.now) }
{
    let mut all = Vec::new(alloc);
    for task in tasks {
        add_stays(&mut all, task.stays.as_slice())?;
    }
    Ok(all)
}

/// Puts the names of a process line but those of its monitors at the end of a list.
fn add_task_names<'a>(all: &mut Vec<&'a [u8]>, task: &'a TaskLine) -> Result<(), OutOfMemory>
    ensures { OnOk result (seen all.new.items ≡ seen all.old.items ++ task_names task.now) }
{
    all.push(task.name.as_bytes())?;
    match &task.event {
        None => Ok(()),
        Some(event) => {
            all.push(event.as_bytes())?;
            Ok(())
        }
    }
}

/// Puts the monitors of some stays at the end of a list.
fn add_monitors<'a>(all: &mut Vec<&'a [u8]>, stays: &[&'a TaskStay]) -> Result<(), OutOfMemory>
    ensures { OnOk result
        (seen all.new.items ≡ seen all.old.items ++ map (λ s. s.monitor) (seen stays.now)) }
{
    for stay in stays {
        all.push(stay.monitor.as_bytes())?;
    }
    Ok(())
}

/// Puts the names of some process lines but those of their monitors at the end of a list.
fn add_names<'a>(all: &mut Vec<&'a [u8]>, tasks: &'a [TaskLine]) -> Result<(), OutOfMemory>
    ensures { OnOk result
        (seen all.new.items ≡ seen all.old.items ++ flat_map task_names tasks.now) }
{
    for task in tasks {
        add_task_names(all, task)?;
    }
    Ok(())
}

/// The names of a table with these stays, those of monitors as often as they are named.
fn all_names<'a>(
    alloc: Global,
    table: &'a TaskTable,
    stays: &[&'a TaskStay],
) -> Result<Vec<&'a [u8]>, OutOfMemory>
    requires { seen stays.now ≡ stays_of table.now }
    ensures { IfOk result (λ all. seen all.items ≡ names_of table.now) }
{
    let mut all = Vec::new(alloc);
    all.push(table.name.as_bytes())?;
    add_names(&mut all, table.tasks.as_slice())?;
    add_monitors(&mut all, stays)?;
    Ok(all)
}

/// A name that is made of these parts.
fn name_of(alloc: Global, parts: &[&[u8]]) -> Result<Text, OutOfMemory>
    ensures { IfOk result (λ name. name ≡ concat (seen parts.now)) }
{
    let mut name = Text::new(alloc);
    add_parts(&mut name, parts)?;
    Ok(name)
}

/// Puts the name that is made of these parts at the end of a list.
fn add_name(alloc: Global, made: &mut List<Text>, parts: &[&[u8]]) -> Result<(), OutOfMemory>
    ensures { OnOk result (made.new ≡ made.old ++ concat (seen parts.now) ∷ []) }
{
    let name = name_of(alloc, parts)?;
    made.push(name)
}

/// Puts the name of the entry for a stay, with this tail, at the end of a list.
fn add_entry(
    alloc: Global,
    made: &mut List<Text>,
    ticks: u64,
    tail: &[u8],
) -> Result<(), OutOfMemory>
    ensures { OnOk result (made.new ≡ made.old ++ (stay_name ticks ++ tail.now) ∷ []) }
{
    let mut digits = Buffer::new();
    add_name(
        alloc,
        made,
        &[b"stay", digits.format(ticks).as_bytes(), tail],
    )
}

/// Puts the names of the entries for some stays, with this tail, at the end of a list.
fn add_entries(
    alloc: Global,
    made: &mut List<Text>,
    stays: &[&TaskStay],
    tail: &[u8],
) -> Result<(), OutOfMemory>
    ensures { OnOk result
        (made.new ≡ made.old ++ map (λ s. stay_name s.ticks ++ tail.now) (seen stays.now)) }
{
    for stay in stays {
        add_entry(alloc, made, stay.ticks, tail)?;
    }
    Ok(())
}

/// The names that a program with these stays has besides those of its table, with this tail.
fn made_with(alloc: Global, stays: &[&TaskStay], tail: &[u8]) -> Result<List<Text>, OutOfMemory>
    ensures { IfOk result (λ made. made ≡ made_of tail.now (seen stays.now)) }
{
    let mut made = List::new(alloc);
    add_name(alloc, &mut made, &[b"x", tail])?;
    add_name(alloc, &mut made, &[b"i", tail])?;
    add_name(alloc, &mut made, &[b"j", tail])?;
    add_entries(alloc, &mut made, stays, tail)?;
    Ok(made)
}

/// Whether the name is one of these.
fn is_one_of(name: &[u8], made: &[Text]) -> bool
    ensures { result ≡ list_any (λ it. same_name name.now it) made.now }
{
    made.iter().any(|it| name == it.as_bytes())
}

/// Whether one of these names is made.
fn is_any_made(names: &[&[u8]], made: &[Text]) -> bool
    ensures { result ≡ list_any (λ name. list_any (λ it. same_name name.now it) made.now)
        names.now }
{
    names.iter().any(|name| is_one_of(name, made))
}

/// The tail of this number: nothing, then `_1`, `_2` and so on.
fn tail_of(alloc: Global, number: usize) -> Result<Text, OutOfMemory>
    ensures { IfOk result (λ tail. tail ≡ tail_numbered number) }
{
    if number == 0 {
        return Ok(Text::new(alloc));
    }
    let mut digits = Buffer::new();
    name_of(alloc, &[b"_", digits.format(number).as_bytes()])
}

/// Whether a name that is made with this tail is one of these names.
fn is_in_the_way(
    alloc: Global,
    names: &[&[u8]],
    stays: &[&TaskStay],
    tail: &[u8],
) -> Result<bool, OutOfMemory>
    ensures { IfOk result (λ met. met ≡ are_met (seen names.now) (seen stays.now) tail.now) }
{
    let made = made_with(alloc, stays, tail)?;
    Ok(is_any_made(names, made.as_slice()))
}

/// The tail of this number, where no name that is made with it is one of these names.
fn try_tail(
    alloc: Global,
    names: &[&[u8]],
    stays: &[&TaskStay],
    number: usize,
) -> Result<Option<Text>, OutOfMemory>
    ensures { IfOk result (λ found. found ≡ tried (seen names.now) (seen stays.now) number) }
{
    let tail = tail_of(alloc, number)?;
    if is_in_the_way(alloc, names, stays, tail.as_bytes())? {
        return Ok(None);
    }
    Ok(Some(tail))
}

/// The first tail with which no name that is made is one of these names.
fn free_tail(alloc: Global, names: &[&[u8]], stays: &[&TaskStay]) -> Result<Text, OutOfMemory>
    ensures { IfOk result (λ tail. tail ≡ first_free (seen names.now) (seen stays.now)) }
{
    let all = names.len() + 1;
    for number in 0..all {
        if let Some(tail) = try_tail(alloc, names, stays, number)? {
            return Ok(tail);
        }
    }
    tail_of(alloc, all)
}

/// The tail of the names that the program of a table with these stays has besides its own.
pub fn made_tail(alloc: Global, table: &TaskTable, stays: &[&TaskStay]) -> Result<Text, OutOfMemory>
    requires { seen stays.now ≡ stays_of table.now }
    ensures { IfOk result (λ tail. tail ≡ tail_of_table table.now) }
{
    let names = all_names(alloc, table, stays)?;
    free_tail(alloc, names.as_slice(), stays)
}
