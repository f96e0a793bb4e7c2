//! The words of a table, each with its place and with what it is there.

ghost use Rattle.std.specs.Prelude.{◌≡◌, ◌++◌, ◌∷◌, [], IfOk, OnOk, map};
ghost use Rattle.message_table.specs.Marks.{line_marks, line_wanted, marks as marks_of};
ghost use Rattle.message_table.specs.Marks.{marks_from, marks_to as marks_of_lines, wanted_behind};
ghost use Rattle.message_table.specs.Seen.{mark_of};

use crate::part::{Role, Wanted};
use message_text::line;
use out_of_memory::OutOfMemory;
use std::alloc::Global;

/// A word: its line and the column of its first byte, both from 1, and what it is there.
#[derive(Clone, Copy)]
pub(crate) struct Marked<'a> {
    pub line: usize,
    pub column: usize,
    pub word: &'a [u8],
    pub role: Role,
}

/// Puts a word where this is wanted, and gives what is wanted behind it.
fn add_mark<'a>(
    marks: &mut Vec<Marked<'a>>,
    line: usize,
    column: usize,
    word: &'a [u8],
    wanted: Wanted,
) -> Result<Wanted, OutOfMemory>
    ensures marks { OnOk result (map mark_of marks.new.items ≡
        map mark_of marks.old.items ++ marks_from line column wanted (word.entry.now ∷ [])) }
    ensures wanted { IfOk result (λ behind. behind ≡ wanted_behind wanted (word.entry.now ∷ [])) }
{
    let role = wanted.role_of(word);
    marks.push(Marked {
        line,
        column,
        word,
        role,
    })?;
    Ok(role.behind())
}

/// Puts the words of a line, and gives what is wanted behind the last of them.
pub(crate) fn add_marks<'a>(
    marks: &mut Vec<Marked<'a>>,
    bytes: &'a [u8],
    number: usize,
) -> Result<Wanted, OutOfMemory>
    ensures marks { OnOk result (map mark_of marks.new.items ≡ map mark_of marks.old.items
        ++ line_marks bytes.entry.now number) }
    ensures wanted { IfOk result (λ behind. behind ≡ line_wanted bytes.entry.now number) }
{
    let mut wanted = Wanted::at_first(number);
    let mut start = 0;
    for at in 0..bytes.len() {
        if bytes[at] == b' ' {
            wanted = add_mark(marks, number, start + 1, &bytes[start..at], wanted)?;
            start = at + 1;
        }
    }
    add_mark(marks, number, start + 1, &bytes[start..], wanted)
}

/// The words of the line of this number.
pub(crate) fn marks<'a>(
    alloc: Global,
    text: &'a [u8],
    number: usize,
) -> Result<Vec<Marked<'a>>, OutOfMemory>
    ensures { IfOk result (λ marks. map mark_of marks.items ≡ marks_of text.entry.now number) }
{
    let mut marks = Vec::new(alloc);
    add_marks(&mut marks, line(text, number), number)?;
    Ok(marks)
}

/// The words of the first lines.
#[tactic(auto, using(crate::proofs::Splits::marks_next), unfolding(crate::specs::Marks::marks_to))]
pub(crate) fn marks_to<'a>(
    alloc: Global,
    text: &'a [u8],
    count: usize,
) -> Result<Vec<Marked<'a>>, OutOfMemory>
    ensures { IfOk result (λ marks. map mark_of marks.items ≡ marks_of_lines text.entry.now count) }
{
    let mut marks = Vec::new(alloc);
    for before in 0..count {
        add_marks(&mut marks, line(text, before + 1), before + 1)?;
    }
    Ok(marks)
}
