//! The message by the number of the rule that fails.

ghost use Rattle.std.specs.Prelude.{◌≤◌, IfOk, length};
ghost use Rattle.message_program.specs.Program.{IsFaultTold, IsProgramMessage};

use crate::grammar::grammar_message;
use crate::messages::{long_message, word_message};
use crate::names::name_message;
use crate::rules::rule_message;
use out_of_memory::OutOfMemory;
use std::alloc::Global;
use syntax_tree::{Place, Text};

/// The most bytes of a text.
const LONGEST: usize = 1_048_576;

/// The message for a fault of a text that is not too long.
fn fault_message(
    alloc: Global,
    file: &[u8],
    text: &[u8],
    number: u8,
    place: Place,
) -> Result<Text, OutOfMemory>
    ensures { IfOk result (λ message. IsFaultTold file.now text.now number place message) }
{
    match number {
        10 => grammar_message(alloc, file, text, place),
        20..=23 => name_message(alloc, file, text, number, place),
        30.. => rule_message(alloc, file, text, number, place),
        _ => word_message(alloc, file, text, number, place),
    }
}

/// The message for a text that is no program, or that of a program that is too large: the number of
/// the rule that fails first, and where. Where it is the grammar (10), the text is lexed again, and
/// parsed once for each kind of word; where it is a static rule (20 and above), it is read again.
///
/// The only error is want of memory.
pub fn program_message(
    alloc: Global,
    file: &str,
    text: &[u8],
    number: u8,
    place: Place,
) -> Result<Text, OutOfMemory>
    ensures { IfOk result (λ message.
        IsProgramMessage file.now text.now number place message) }
{
    if text.len() > LONGEST {
        return long_message(alloc, file);
    }
    fault_message(alloc, file.as_bytes(), text, number, place)
}
