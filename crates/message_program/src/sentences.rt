//! What is wrong.

ghost use Rattle.std.specs.Prelude.{◌≡◌, ◌++◌, OnOk};
ghost use Rattle.message_program.specs.Program.{begins_no_word, byte_name, sentence};
ghost use Rattle.message_program.specs.Program.{too_long, unexpected, unexpected_word};
ghost use Rattle.message_program.specs.Rules.{naming, rule_sentence};
ghost use Rattle.message_program.specs.Seen.{rule_of};

use crate::notes::{first_byte, is_visible};
use crate::rule_rows::{Rule, numbered};
use message_text::{add_number, add_quoted};
use out_of_memory::OutOfMemory;
use syntax_tree::Text;

/// Puts a byte, by itself where it is visible, else by its number.
fn add_byte(text: &mut Text, byte: u8) -> Result<(), OutOfMemory>
    ensures { OnOk result (text.new ≡ text.old ++ byte_name byte) }
{
    if is_visible(byte) {
        return add_quoted(text, &[byte]);
    }
    text.extend(b"byte ")?;
    add_number(text, usize::from(byte))
}

/// Puts that a byte begins no word.
fn add_begins_no_word(text: &mut Text, byte: u8) -> Result<(), OutOfMemory>
    ensures { OnOk result (text.new ≡ text.old ++ begins_no_word byte) }
{
    add_byte(text, byte)?;
    text.extend(b" begins no word")
}

/// Puts that a name is too long.
fn add_too_long(text: &mut Text, word: &[u8]) -> Result<(), OutOfMemory>
    ensures { OnOk result (text.new ≡ text.old ++ too_long word.now) }
{
    text.extend(b"the name ")?;
    add_quoted(text, word)?;
    text.extend(b" has ")?;
    add_number(text, word.len())?;
    text.extend(b" bytes; 63 are the most")
}

/// Puts that no program goes on with this word.
fn add_unexpected_word(text: &mut Text, word: &[u8]) -> Result<(), OutOfMemory>
    ensures { OnOk result (text.new ≡ text.old ++ unexpected_word word.now) }
{
    text.extend(b"unexpected ")?;
    add_quoted(text, word)
}

/// Puts that no program goes on with this word, or ends where there is none.
fn add_unexpected(text: &mut Text, word: &[u8]) -> Result<(), OutOfMemory>
    ensures { OnOk result (text.new ≡ text.old ++ unexpected word.now) }
{
    if word.is_empty() {
        return text.extend(b"unexpected end of the text");
    }
    add_unexpected_word(text, word)
}

/// Puts the word and what stands behind it, where something does.
fn add_naming(text: &mut Text, word: &[u8], behind: &str) -> Result<(), OutOfMemory>
    ensures { OnOk result (text.new ≡ text.old ++ naming word.now behind.now) }
{
    if behind.is_empty() {
        return Ok(());
    }
    add_quoted(text, word)?;
    text.extend(behind.as_bytes())
}

/// Puts what is said of a word that fails the rule.
fn add_rule(text: &mut Text, rule: &Rule, word: &[u8]) -> Result<(), OutOfMemory>
    ensures { OnOk result (text.new ≡ text.old ++ rule_sentence (rule_of rule.now) word.now) }
{
    text.extend(rule.before.as_bytes())?;
    add_naming(text, word, rule.behind)
}

/// Puts what is wrong with the word where a fault of this number is.
pub(crate) fn add_sentence(text: &mut Text, number: u8, word: &[u8]) -> Result<(), OutOfMemory>
    ensures { OnOk result (text.new ≡ text.old ++ sentence number word.now) }
{
    match number {
        1 => add_begins_no_word(text, first_byte(word)),
        3 => add_too_long(text, word),
        10 => add_unexpected(text, word),
        _ => add_rule(text, numbered(number), word),
    }
}
