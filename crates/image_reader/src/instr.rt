//! Instructions that the bytes begin with.

ghost use Rattle.std.specs.Prelude.{◌≡◌, ◌&&◌, nat_le};
ghost use Rattle.image_format.specs.Gives.{GivesOrFault};
ghost use Rattle.image_format.specs.Format.{checked, u8 as one_byte, unless};
ghost use Rattle.image_reader.specs.Grammar.{instr_format, operand, or_end, word};
ghost use Rattle.machine_isa.specs.Numbered.{numbered};

use crate::fault::tri;
use image_format::{ByteFault, refusal, u8_at};
use machine_isa::{Instr, arity, instr_of};

/// A signed number of four bytes, the highest first.
fn word_at(bytes: &[u8]) -> Result<(i32, &[u8]), ByteFault>
    ensures { GivesOrFault (λ x. (x.0, x.1.now)) result (word.read bytes.now) }
{
    if bytes.len() < 4 {
        return Err(ByteFault {
            number: refusal::ENDS,
            left: 0,
        });
    }
    let (front, rest) = bytes.split_at(4);
    let number = i32::from_be_bytes([front[0], front[1], front[2], front[3]]);
    Ok((number, rest))
}

/// An operand; one that is not named is 0.
fn operand_at(bytes: &[u8], is_named: bool) -> Result<(i32, &[u8]), ByteFault>
    ensures { GivesOrFault (λ x. (x.0, x.1.now)) result ((operand is_named).read bytes.now) }
{
    let (value, rest) = tri!(word_at(bytes));
    if is_named || value == 0 {
        Ok((value, rest))
    } else {
        Err(ByteFault {
            number: refusal::NOT_ZERO,
            left: bytes.len(),
        })
    }
}

/// The number of an instruction.
fn number_at(bytes: &[u8]) -> Result<(u8, &[u8]), ByteFault>
    ensures { GivesOrFault (λ x. (x.0, x.1.now)) result
        ((checked one_byte (λ n. unless (nat_le 1 n && nat_le n 48) 6)).read bytes.now) }
{
    let (number, rest) = tri!(u8_at(bytes));
    if 1 <= number && number <= 48 {
        Ok((number, rest))
    } else {
        Err(ByteFault {
            number: refusal::KIND,
            left: bytes.len(),
        })
    }
}

/// The instruction of a number, or END where there is none.
pub fn instr_or_end(number: u8, a: i32, b: i32, c: i32) -> Instr
    ensures { result ≡ or_end (numbered number a b c) }
{
    match instr_of(number, a, b, c) {
        Some(instr) => instr,
        None => Instr::End,
    }
}

/// An instruction.
pub fn instr_at(bytes: &[u8]) -> Result<(Instr, &[u8]), ByteFault>
    ensures { GivesOrFault (λ x. (x.0, x.1.now)) result (instr_format.read bytes.now) }
{
    let (number, rest) = tri!(number_at(bytes));
    let named = arity(number);
    let (first, rest) = tri!(operand_at(rest, 1 <= named));
    let (second, rest) = tri!(operand_at(rest, 2 <= named));
    let (third, rest) = tri!(operand_at(rest, 3 <= named));
    Ok((instr_or_end(number, first, second, third), rest))
}
