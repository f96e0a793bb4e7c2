//! The summary of a load.

ghost use Rattle.std.specs.Prelude.{◌≡◌, IfOk};
ghost use Rattle.load.specs.Summary.{marked_by, summary};

use crate::words::add_number;
use out_of_memory::OutOfMemory;
use std::alloc::Global;
use syntax_tree::Text;

/// The mark after these bytes, where it was `mark` before them; it is 0 before the first byte.
pub fn mark_after(mark: u32, bytes: &[u8]) -> u32
    ensures { result ≡ marked_by mark bytes.now }
{
    let mut new = mark;
    for byte in bytes {
        new = ((u64::from(new) * 31 + u64::from(*byte)) % 0x1_0000_0000) as u32;
    }
    new
}

/// The line that tells how many processes were made, how many instructions they have, how many
/// lines and bytes their log has, and the mark of these bytes.
///
/// # Errors
///
/// Only where there is not enough memory for the line.
#[tactic(auto, unfolding(crate::specs::Summary::summary))]
pub fn summary_line(
    alloc: Global,
    count: u32,
    code: u32,
    lines: u64,
    bytes: u64,
    mark: u32,
) -> Result<Text, OutOfMemory>
    ensures { IfOk result (λ text. text ≡ summary count code lines bytes mark) }
{
    let mut text = Text::new(alloc);
    add_number(&mut text, "made ", u64::from(count))?;
    add_number(&mut text, " code ", u64::from(code))?;
    add_number(&mut text, " lines ", lines)?;
    add_number(&mut text, " bytes ", bytes)?;
    add_number(&mut text, " mark ", u64::from(mark))?;
    text.extend(b"\n")?;
    Ok(text)
}
