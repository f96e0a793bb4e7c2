//! The lines of instructions.

ghost use Rattle.std.specs.Prelude.{◌≡◌, ◌≤◌, length};
ghost use Rattle.text_fields.specs.Front.{Gives, front};
ghost use Rattle.asm_lines.specs.Instrs.{instr_read, number_of, numbered_read, operand_read, place_from};
ghost use Rattle.syntax.specs.Tables.{words_of};

use crate::names::word_len;
use image_reader::instr_or_end;
use machine_isa::{Instr, arity};
use text_fields::numbers::signed;
use text_fields::{FieldError, FieldFault, LineCursor, end_line, refusal, skip};

/// The names of the instructions, by their numbers from 1.
const MNEMONICS: [&str; 48] = [
    "PUSH", "LDL", "STL", "LDG", "STG", "LDM", "STM", "LDLX", "STLX", "LDGX", "STGX", "LDMX",
    "STMX", "NEG", "NOT", "AND", "OR", "ADD", "SUB", "EQ", "NE", "LT", "LE", "GT", "GE", "MUL",
    "DIV", "MOD", "RNG", "JZ", "JMP", "REPS", "REP", "EXIT", "CALL", "RET", "RETV", "ENTER",
    "LEAVE", "WAIT", "REENT", "SIG", "BCAST", "EMPTY", "IN", "OUT", "RAISE", "END",
];

/// The place of the word among these names, from 1.
fn number_in(names: &[&'static str], word: &[u8]) -> Option<u8>
    requires { length names.now ≤ 48 }
    ensures { result ≡ place_from 1 (words_of names.now) word.now }
{
    for (at, name) in names.iter().enumerate() {
        if word == name.as_bytes() {
            return Some(at as u8 + 1);
        }
    }
    None
}

/// The number of the instruction of this name.
fn number_named(word: &[u8]) -> Option<u8>
    ensures { result ≡ number_of word.now }
{
    number_in(&MNEMONICS, word)
}

/// An operand where one is named, else 0.
#[tactic(auto, unfolding(crate::specs::Instrs::operand_read))]
fn operand(at: LineCursor<'_>, is_named: bool) -> Result<(i32, LineCursor<'_>), FieldError>
    ensures { Gives (λ x. (x.0, front x.1)) result (operand_read is_named (front at.entry)) }
{
    if !is_named {
        return Ok((0, at));
    }
    let at = skip(at, b" ")?;
    signed(at)
}

/// The operands that the instruction of the number names, to the end of the line.
#[tactic(auto, unfolding(crate::specs::Instrs::numbered_read))]
fn numbered_at(number: u8, at: LineCursor<'_>) -> Result<(Instr, LineCursor<'_>), FieldError>
    ensures { Gives (λ x. (x.0, front x.1)) result (numbered_read number (front at.entry)) }
{
    let named = arity(number);
    let (first, at) = operand(at, 1 <= named)?;
    let (second, at) = operand(at, 2 <= named)?;
    let (third, at) = operand(at, 3 <= named)?;
    let at = end_line(at)?;
    Ok((instr_or_end(number, first, second, third), at))
}

/// The line of an instruction.
#[tactic(auto, unfolding(crate::specs::Instrs::instr_read))]
pub fn instr_line(at: LineCursor<'_>) -> Result<(Instr, LineCursor<'_>), FieldError>
    ensures { Gives (λ x. (x.0, front x.1)) result (instr_read (front at.entry)) }
{
    let len = word_len(at.rest);
    let (word, rest) = at.rest.split_at(len);
    let after = LineCursor {
        rest,
        start: at.start,
        is_fine: at.is_fine,
    };
    match number_named(word) {
        Some(number) => numbered_at(number, after),
        None => Err(FieldError::Fault(FieldFault {
            number: refusal::FORM,
            left: at.start,
        })),
    }
}
