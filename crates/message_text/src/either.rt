//! A choice.

ghost use Rattle.std.specs.Prelude.{◌≡◌, ◌++◌, OnOk, map};
ghost use Rattle.message_text.specs.Either.{either, others as others_text, separator};

use out_of_memory::OutOfMemory;
use syntax_tree::Text;

/// What stands before an element, by those behind it.
fn separator(behind: &[&[u8]]) -> &'static [u8]
    ensures { result.now ≡ separator behind.now }
{
    match behind {
        [] => b" or ",
        _ => b", ",
    }
}

/// Puts these, each behind a comma, but the last behind `or`.
fn add_others(text: &mut Text, others: &[&[u8]]) -> Result<(), OutOfMemory>
    ensures { OnOk result (text.new ≡ text.old ++ others_text (map (λ one. one.now) others.now)) }
{
    for index in 0..others.len() {
        let bytes = others[index];
        text.extend(separator(&others[index + 1..]))?;
        text.extend(bytes)?;
    }
    Ok(())
}

/// Puts a choice: `nothing` of none, else all of them, with `or` before the last of two or more and
/// a comma behind each one before.
pub fn add_either(text: &mut Text, all: &[&[u8]]) -> Result<(), OutOfMemory>
    ensures { OnOk result (text.new ≡ text.old ++ either (map (λ one. one.now) all.now)) }
{
    match all {
        [] => text.extend(b"nothing"),
        [first, more @ ..] => {
            text.extend(first)?;
            add_others(text, more)
        }
    }
}
