//! Statements that take so many ticks.

ghost use Rattle.std.specs.Prelude.{◌≡◌, ◌++◌, OnOk};
ghost use Rattle.table_format.specs.Spending.{spend, spend_by_assignments, spend_by_loop, threes};
ghost use Rattle.table_format.specs.Parts.{statements_text};

use crate::parts::add_parts;
use itoa::Buffer;
use out_of_memory::OutOfMemory;
use syntax_tree::Text;

/// So many assignments that take 3 ticks each.
fn add_threes(text: &mut Text, tail: &[u8], count: u64) -> Result<(), OutOfMemory>
    ensures { OnOk result (text.new ≡ text.old ++ statements_text (threes tail.now count)) }
{
    for _ in 0..count {
        add_parts(text, &[b"x", tail, b" := 0\n"])?;
    }
    Ok(())
}

/// Assignments that take so many ticks.
fn add_assignments(text: &mut Text, tail: &[u8], ticks: u64) -> Result<(), OutOfMemory>
    ensures { OnOk result
        (text.new ≡ text.old ++ statements_text (spend_by_assignments tail.now ticks)) }
{
    if ticks % 3 == 1 {
        add_parts(text, &[b"x", tail, b" := x", tail, b"\n"])?;
        return add_threes(text, tail, ticks.saturating_sub(4) / 3);
    }
    if ticks % 3 == 2 {
        add_parts(text, &[b"x", tail, b" := - 1\n"])?;
        return add_threes(text, tail, ticks.saturating_sub(5) / 3);
    }
    add_threes(text, tail, ticks / 3)
}

/// A loop, where there is room for one, and assignments that take so many ticks.
fn add_loop(text: &mut Text, tail: &[u8], ticks: u64) -> Result<(), OutOfMemory>
    ensures { OnOk result
        (text.new ≡ text.old ++ statements_text (spend_by_loop tail.now ticks)) }
{
    if ticks < 18 {
        return add_assignments(text, tail, ticks);
    }
    let turns = (ticks - 8) / 10;
    let mut digits = Buffer::new();
    let count = digits.format(turns).as_bytes();
    add_parts(
        text,
        &[b"for i", tail, b" : 1 .. ", count, b" do\nend for\n"],
    )?;
    add_assignments(text, tail, ticks - 5 - 10 * turns)
}

/// Statements that take so many ticks, where these are 0, or 3 or more.
pub fn add_spending(text: &mut Text, tail: &[u8], ticks: u64) -> Result<(), OutOfMemory>
    ensures { OnOk result (text.new ≡ text.old ++ statements_text (spend tail.now ticks)) }
{
    if ticks < 10_023 {
        return add_loop(text, tail, ticks);
    }
    let turns = (ticks - 8) / 10_015;
    let mut digits = Buffer::new();
    let count = digits.format(turns).as_bytes();
    add_parts(text, &[b"for i", tail, b" : 1 .. ", count, b" do\n"])?;
    add_parts(
        text,
        &[b"for j", tail, b" : 1 .. 1000 do\nend for\nend for\n"],
    )?;
    add_loop(text, tail, ticks - 5 - 10_015 * turns)
}
