//! A line of a text, with carets below it.

ghost use Rattle.std.specs.Prelude.{◌≡◌, ◌≤◌, ◌-◌, ◌++◌, true, OnOk, length};
ghost use Rattle.message_text.specs.Shown.{aligned, caret_line, carets, front, left_out};
ghost use Rattle.message_text.specs.Shown.{show, show_line, shown, window};

use crate::lines::line;
use crate::put::add_repeated;
use crate::words::add_plain;
use itoa::Buffer;
use out_of_memory::OutOfMemory;
use syntax_tree::Text;

/// The most bytes of a line that are shown.
const SHOWN: usize = 160;

/// How many bytes of a line of this length are left out before those that are shown.
fn left_out(size: usize, column: usize) -> usize
    ensures is { result ≡ left_out size column }
    ensures within { result ≤ size - 160 }
{
    column.saturating_sub(81).min(size.saturating_sub(SHOWN))
}

/// Puts a number, right-aligned in 7 places.
fn add_aligned(text: &mut Text, number: usize) -> Result<(), OutOfMemory>
    ensures { OnOk result (text.new ≡ text.old ++ aligned number) }
{
    let mut buffer = Buffer::new();
    let digits = buffer.format(number).as_bytes();
    add_repeated(text, b' ', 7_usize.saturating_sub(digits.len()))?;
    text.extend(digits)
}

/// Puts these bytes, with three dots in place of the first three where bytes are left out before.
fn add_front(text: &mut Text, bytes: &[u8], is_cut: bool) -> Result<(), OutOfMemory>
    requires { (is_cut ≡ true) → (3 ≤ length bytes.now) }
    ensures { OnOk result (text.new ≡ text.old ++ front bytes.now is_cut) }
{
    if is_cut {
        let shown = &bytes[3..];
        text.extend(b"...")?;
        return add_plain(text, shown);
    }
    add_plain(text, bytes)
}

/// Puts the first 160 of these bytes, with three dots in place of the last three where more stand
/// there.
fn add_window(text: &mut Text, bytes: &[u8], is_cut: bool) -> Result<(), OutOfMemory>
    requires { (is_cut ≡ true) → (160 ≤ length bytes.now) }
    ensures { OnOk result (text.new ≡ text.old ++ window bytes.now is_cut) }
{
    if bytes.len() > SHOWN {
        let first = &bytes[..157];
        add_front(text, first, is_cut)?;
        return text.extend(b"...");
    }
    add_front(text, bytes, is_cut)
}

/// Puts the bytes of a line that are shown.
fn add_shown(text: &mut Text, bytes: &[u8], from: usize) -> Result<(), OutOfMemory>
    requires { from ≤ length bytes.now - 160 }
    ensures { OnOk result (text.new ≡ text.old ++ shown bytes.now from) }
{
    let behind = &bytes[from..];
    add_window(text, behind, from > 0)
}

/// Puts the carets below a line of which so many bytes are shown.
fn add_carets(text: &mut Text, before: usize, shown: usize, width: usize) -> Result<(), OutOfMemory>
    ensures { OnOk result (text.new ≡ text.old ++ carets before shown width) }
{
    add_repeated(text, b' ', before)?;
    add_repeated(text, b'^', width.min(shown.saturating_sub(before)).max(1))
}

/// Puts the line of the carets, if a word of some bytes is meant.
fn add_caret_line(
    text: &mut Text,
    size: usize,
    column: usize,
    width: usize,
) -> Result<(), OutOfMemory>
    ensures { OnOk result (text.new ≡ text.old ++ caret_line size column width) }
{
    if width == 0 {
        return Ok(());
    }
    let before = column
        .saturating_sub(1)
        .saturating_sub(left_out(size, column));
    text.extend(b"        | ")?;
    add_carets(text, before, size.min(SHOWN), width)?;
    text.extend(b"\n")
}

/// Puts these bytes as the line of this number, with carets below them.
fn add_line(
    text: &mut Text,
    bytes: &[u8],
    number: usize,
    column: usize,
    width: usize,
) -> Result<(), OutOfMemory>
    ensures { OnOk result (text.new ≡ text.old ++ show_line bytes.now number column width) }
{
    add_aligned(text, number)?;
    text.extend(b" | ")?;
    add_shown(text, bytes, left_out(bytes.len(), column))?;
    text.extend(b"\n")?;
    add_caret_line(text, bytes.len(), column, width)
}

/// Puts the line of this number of a text, and carets below its word of so many bytes, which stands
/// at the column, both from 1; no carets for a word of no bytes. Of a line of more than 160 bytes
/// that many are shown, of which at most 80 stand before the column.
pub fn add_show(
    text: &mut Text,
    source: &[u8],
    number: usize,
    column: usize,
    width: usize,
) -> Result<(), OutOfMemory>
    ensures { OnOk result (text.new ≡ text.old ++ show source.now number column width) }
{
    add_line(text, line(source, number), number, column, width)
}
