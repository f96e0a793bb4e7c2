//! The report as JSON.

ghost use Rattle.std.specs.Prelude.{◌≡◌, All, IfOk, IsUtf8, OnOk, length, map};
ghost use Rattle.serde_json.specs.Data.{array, string, put as with_member};
ghost use Rattle.serde_json.specs.View.{items_of, members_view, view};
ghost use Rattle.sched_table.specs.Late.{IsNamed};
ghost use Rattle.sched_table.specs.Json.{AreStrings};
ghost use Rattle.sched_table.specs.Json as json;

use crate::late::late;
use crate::lines::{GREATEST, widened};
use crate::{Row, Table};
use image::ImageNames;
use out_of_memory::OutOfMemory;
use serde_json::{Map, Value, put};
use std::alloc::Global;
use std::str;
use syntax_tree::{Name, Text};

/// A number, or `over`.
#[tactic(auto, unfolding(crate::specs::Json::number_data))]
fn number_value(alloc: Global, number: u64) -> Result<Value, OutOfMemory>
    ensures { IfOk result (λ value. view value ≡ json.number_data number) }
{
    if number > GREATEST {
        return Ok(Value::try_from_str(alloc, "over")?);
    }
    Ok(Value::from(number))
}

/// A number, or `none`.
#[tactic(auto, unfolding(crate::specs::Json::optional_data))]
fn optional_value(alloc: Global, number: Option<u64>) -> Result<Value, OutOfMemory>
    ensures { IfOk result (λ value. view value ≡ json.optional_data number) }
{
    match number {
        Some(number) => number_value(alloc, number),
        None => Ok(Value::try_from_str(alloc, "none")?),
    }
}

/// A name as a string.
fn name_value(alloc: Global, name: &Name) -> Result<Value, OutOfMemory>
    requires { IsUtf8 name.now }
    ensures { IfOk result (λ value. view value ≡ string name.now) }
{
    match str::from_utf8(name.as_bytes()) {
        Ok(text) => Ok(Value::try_from_str(alloc, text)?),
        Err(_) => unreachable!(),
    }
}

/// Puts a number, or `over`, at a key.
fn put_number(
    members: &mut Map<String, Value>,
    alloc: Global,
    key: &str,
    number: u64,
) -> Result<(), OutOfMemory>
    ensures { OnOk result (members_view members.new.entries
        ≡ with_member key.now (json.number_data number) (members_view members.old.entries)) }
{
    Ok(put(members, alloc, key, number_value(alloc, number)?)?)
}

/// Puts the deadline, where it is not the frame.
#[tactic(auto, unfolding(crate::specs::Json::with_deadline))]
fn put_deadline(
    members: &mut Map<String, Value>,
    alloc: Global,
    frame: u64,
    deadline: u64,
) -> Result<(), OutOfMemory>
    ensures { OnOk result (members_view members.new.entries
        ≡ json.with_deadline frame deadline (members_view members.old.entries)) }
{
    if deadline == frame {
        return Ok(());
    }
    put_number(members, alloc, "deadline", deadline)
}

/// The members of a process, but for its deadline.
#[tactic(auto, unfolding(crate::specs::Json::process_members))]
fn process_members(alloc: Global, name: &Name, row: &Row) -> Result<Map<String, Value>, OutOfMemory>
    requires { IsUtf8 name.now }
    ensures { IfOk result (λ members. members_view members.entries
        ≡ json.process_members name.now row.now) }
{
    let mut members = Map::new(alloc);
    put_number(&mut members, alloc, "block", row.block)?;
    put(
        &mut members,
        alloc,
        "bound",
        optional_value(alloc, row.bound)?,
    )?;
    put_number(&mut members, alloc, "cost", row.cost.run)?;
    put_number(&mut members, alloc, "data", u64::from(row.size.words))?;
    put_number(&mut members, alloc, "frame", row.frame)?;
    put(&mut members, alloc, "name", name_value(alloc, name)?)?;
    put_number(&mut members, alloc, "rank", u64::from(row.rank))?;
    put_number(&mut members, alloc, "stack", u64::from(row.size.stack))?;
    put_number(&mut members, alloc, "suspend", row.cost.susp)?;
    put_number(&mut members, alloc, "waits", row.cost.waits)?;
    Ok(members)
}

/// The object of a process.
fn process_value(alloc: Global, name: &Name, row: &Row) -> Result<Value, OutOfMemory>
    requires { IsUtf8 name.now }
    ensures { IfOk result (λ value. view value ≡ json.process_data name.now row.now) }
{
    let mut members = process_members(alloc, name, row)?;
    put_deadline(&mut members, alloc, row.frame, row.deadline)?;
    Ok(Value::Object(members))
}

/// The objects of the processes.
fn process_values(alloc: Global, names: &[Name], rows: &[Row]) -> Result<Vec<Value>, OutOfMemory>
    requires one_each { length names.now ≡ length rows.now }
    requires utf8 { All IsUtf8 names.now }
    ensures { IfOk result (λ values. map view values.items
        ≡ json.processes_data names.now rows.now) }
{
    let mut values = Vec::new(alloc);
    for (at, row) in rows.iter().enumerate() {
        values.push(process_value(alloc, &names[at], row)?)?;
    }
    Ok(values)
}

/// The object of a monitor.
#[tactic(auto, unfolding(crate::specs::Json::monitor_data))]
fn monitor_value(
    alloc: Global,
    name: &Name,
    ceiling: Option<u16>,
    words: u32,
) -> Result<Value, OutOfMemory>
    requires { IsUtf8 name.now }
    ensures { IfOk result (λ value. view value ≡ json.monitor_data name.now ceiling words) }
{
    let mut members = Map::new(alloc);
    put(
        &mut members,
        alloc,
        "ceiling",
        optional_value(alloc, widened(ceiling))?,
    )?;
    put(&mut members, alloc, "name", name_value(alloc, name)?)?;
    put_number(&mut members, alloc, "words", u64::from(words))?;
    Ok(Value::Object(members))
}

/// The objects of the monitors.
fn monitor_values(
    alloc: Global,
    names: &[Name],
    ceilings: &[Option<u16>],
    words: &[u32],
) -> Result<Vec<Value>, OutOfMemory>
    requires ceilings { length names.now ≡ length ceilings.now }
    requires words { length names.now ≡ length words.now }
    requires utf8 { All IsUtf8 names.now }
    ensures { IfOk result (λ values. map view values.items
        ≡ json.monitors_data names.now ceilings.now words.now) }
{
    let mut values = Vec::new(alloc);
    for (at, name) in names.iter().enumerate() {
        values.push(monitor_value(alloc, name, ceilings[at], words[at])?)?;
    }
    Ok(values)
}

/// The array of the monitors.
fn monitors_value(alloc: Global, names: &ImageNames, table: &Table) -> Result<Value, OutOfMemory>
    requires named { IsNamed names.now table.now }
    requires utf8 { All IsUtf8 names.now.monitors }
    ensures { IfOk result (λ value. view value ≡ array (items_of
        (json.monitors_data names.now.monitors table.now.ceilings table.now.monitor_words))) }
{
    let (ceilings, words) = (table.ceilings.as_slice(), table.monitor_words.as_slice());
    let values = monitor_values(alloc, names.monitors.as_slice(), ceilings, words)?;
    Ok(Value::Array(values))
}

/// The array of the processes.
fn processes_value(alloc: Global, names: &ImageNames, table: &Table) -> Result<Value, OutOfMemory>
    requires named { IsNamed names.now table.now }
    requires utf8 { All IsUtf8 names.now.processes }
    ensures { IfOk result (λ value. view value ≡ array (items_of
        (json.processes_data names.now.processes table.now.rows))) }
{
    let values = process_values(alloc, names.processes.as_slice(), table.rows.as_slice())?;
    Ok(Value::Array(values))
}

/// The report as a value.
#[tactic(auto, unfolding(crate::specs::Json::report_data))]
fn report_value(
    alloc: Global,
    names: &ImageNames,
    program: &Name,
    table: &Table,
) -> Result<Value, OutOfMemory>
    requires named { IsNamed names.now table.now }
    requires strings { AreStrings names.now program.now }
    ensures { IfOk result (λ value. view value ≡ json.report_data names.now program.now table.now) }
{
    let late = late(names.processes.as_slice(), table.rows.as_slice());
    let mut members = Map::new(alloc);
    put_number(&mut members, alloc, "code", u64::from(table.code))?;
    put(
        &mut members,
        alloc,
        "monitors",
        monitors_value(alloc, names, table)?,
    )?;
    put(
        &mut members,
        alloc,
        "processes",
        processes_value(alloc, names, table)?,
    )?;
    put(&mut members, alloc, "program", name_value(alloc, program)?)?;
    put(&mut members, alloc, "timely", Value::from(late.is_none()))?;
    Ok(Value::Object(members))
}

/// The report on a program as one JSON object without spaces, ended by a line feed, for a table
/// with one row per process and one ceiling and one number of words per monitor of the names, which
/// are UTF-8, as each identifier is.
///
/// The keys stand in the order of their bytes. The deadline stands where it is not the frame, a
/// number above 1,000,000,000 is the string `over`, and a bound or a ceiling that is not there the
/// string `none`. Want of memory is an error.
#[tactic(auto, using(crate::proofs::NoFloat::report), unfolding(crate::specs::Json::report_json))]
pub fn report_json(
    alloc: Global,
    names: &ImageNames,
    program: &Name,
    table: &Table,
) -> Result<Text, OutOfMemory>
    requires named { IsNamed names.now table.now }
    requires strings { AreStrings names.now program.now }
    ensures { IfOk result (λ text. text ≡ json.report_json names.now program.now table.now) }
{
    let value = report_value(alloc, names, program, table)?;
    let mut text = Text::from_bytes(alloc, value.to_vec(alloc)?.as_slice())?;
    text.extend(b"\n")?;
    Ok(text)
}
