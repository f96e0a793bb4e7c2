//! Rows of the table, and what their signs stand for.

ghost use Rattle.std.specs.Prelude.{◌≡◌, ◌++◌, [], OnOk, bytes_eq, flat_map, map, if◌then◌else◌};
ghost use Rattle.std.specs.List.{list_any};
ghost use Rattle.message_words.specs.Usage.{explained, form, row_line, table};
ghost use Rattle.message_words.specs.Seen.{row_of};

use crate::rows::Row;
use message_text::{add_parts, add_repeated};
use out_of_memory::OutOfMemory;
use syntax_tree::Text;

/// The bytes to which what a row takes is filled up.
const WIDTH: usize = 15;

/// Puts what a row takes, filled up with blanks to 15 bytes.
fn add_form(text: &mut Text, row: &Row) -> Result<(), OutOfMemory>
    ensures { OnOk result (text.new ≡ text.old ++ form (row_of row.now)) }
{
    let size = row
        .command
        .len()
        .saturating_add(1)
        .saturating_add(row.places.len());
    add_parts(text, &[row.command.as_bytes(), b" ", row.places.as_bytes()])?;
    add_repeated(text, b' ', WIDTH.saturating_sub(size))
}

/// Puts the line of a row.
fn add_row(text: &mut Text, row: &Row) -> Result<(), OutOfMemory>
    ensures { OnOk result (text.new ≡ text.old ++ row_line (row_of row.now)) }
{
    text.extend(b"  rte ")?;
    add_form(text, row)?;
    add_parts(text, &[b" ", row.does.as_bytes(), b"\n"])
}

/// Puts the lines of these rows.
fn add_rows(text: &mut Text, rows: &[Row]) -> Result<(), OutOfMemory>
    ensures { OnOk result (text.new ≡ text.old ++ flat_map row_line (map row_of rows.now)) }
{
    for row in rows {
        add_row(text, row)?;
    }
    Ok(())
}

/// Whether one of the rows has this sign.
fn has_sign(rows: &[Row], sign: &str) -> bool
    ensures { result ≡ list_any (λ row. bytes_eq row.sign.now sign.now) rows.now }
{
    rows.iter()
        .any(|row| row.sign.as_bytes() == sign.as_bytes())
}

/// Puts this, if it is told.
fn add_if(text: &mut Text, is_told: bool, told: &str) -> Result<(), OutOfMemory>
    ensures { OnOk result (text.new ≡ text.old ++ (if is_told then told.now else [])) }
{
    if is_told {
        return text.extend(told.as_bytes());
    }
    Ok(())
}

/// Puts what a sign stands for, where one of the rows has it.
fn add_explained(text: &mut Text, rows: &[Row], sign: &str, told: &str) -> Result<(), OutOfMemory>
    ensures { OnOk result
        (text.new ≡ text.old ++ explained (map row_of rows.now) sign.now told.now) }
{
    add_if(text, has_sign(rows, sign), told)
}

/// Puts these rows, then what their signs stand for.
pub(crate) fn add_table(text: &mut Text, rows: &[Row]) -> Result<(), OutOfMemory>
    ensures { OnOk result (text.new ≡ text.old ++ table (map row_of rows.now)) }
{
    add_rows(text, rows)?;
    add_explained(
        text,
        rows,
        "K",
        "K: overhead in ticks, 0 to 1000; 0 where it is not given\n",
    )?;
    add_explained(
        text,
        rows,
        "T",
        "T: a tick, 0 to 1000000000; or @A for after address A, 0 to 65534\n",
    )?;
    add_explained(
        text,
        rows,
        "A B",
        "A B: ticks, A below B; A to 999999999, B to 1000000000\n",
    )?;
    add_explained(
        text,
        rows,
        "KEY",
        "KEY: 0 to 18446744073709551615; N: 1 to 64\n",
    )
}
