//! The message for an image that is not valid.

ghost use Rattle.std.specs.Prelude.{◌≡◌, ◌++◌, IfOk, OnOk, codes};
ghost use Rattle.faulty_part.specs.declared.part.Subject.TheVariants as subject;
ghost use Rattle.image.specs.Raw.{named_of};
ghost use Rattle.valid_image.specs.Valid.{number_of as defined_number};
ghost use Rattle.faulty_part.specs.Law.{test_of};
ghost use Rattle.message_log.specs.Image.{among, around, both, ceiling, ceilings, declared, part_called, part_sentence, quantity, signed};
ghost use Rattle.message_log.specs.Image.{valid_message, valid_sentence, whole_sentence};

use crate::openings::add_opening;
use crate::parts::add_part;
use faulty_part::{FaultyPart, PartFault, Subject};
use image::RawImage;
use message_text::{add_number, add_parts};
use out_of_memory::OutOfMemory;
use std::alloc::Global;
use syntax_tree::Text;

/// Puts what is declared and what is needed.
fn add_declared(text: &mut Text, what: &[u8], a: usize, b: usize) -> Result<(), OutOfMemory>
    ensures { OnOk result (text.new ≡ text.old ++ declared what.now a b) }
{
    add_parts(text, &[what, b": declared "])?;
    add_number(text, a)?;
    text.extend(b", needed ")?;
    add_number(text, b)
}

/// Puts a number of 32 bits with its sign.
fn add_signed(text: &mut Text, number: usize) -> Result<(), OutOfMemory>
    ensures { OnOk result (text.new ≡ text.old ++ signed number) }
{
    match number {
        2_147_483_648..=4_294_967_295 => {
            text.extend(b"-")?;
            add_number(text, 4_294_967_296 - number)
        }
        _ => add_number(text, number),
    }
}

/// Puts a number behind some words and before others.
fn add_around(text: &mut Text, before: &[u8], a: usize, behind: &[u8]) -> Result<(), OutOfMemory>
    ensures { OnOk result (text.new ≡ text.old ++ around before.now a behind.now) }
{
    text.extend(before)?;
    add_number(text, a)?;
    text.extend(behind)
}

/// Puts two numbers among some words.
fn add_both(
    text: &mut Text,
    before: &[u8],
    a: usize,
    middle: &[u8],
    b: usize,
    behind: &[u8],
) -> Result<(), OutOfMemory>
    ensures { OnOk result
        (text.new ≡ text.old ++ both before.now a middle.now b behind.now) }
{
    add_around(text, before, a, middle)?;
    add_number(text, b)?;
    text.extend(behind)
}

/// Puts a number and one with its sign among some words.
fn add_among(
    text: &mut Text,
    before: &[u8],
    a: usize,
    middle: &[u8],
    b: usize,
    behind: &[u8],
) -> Result<(), OutOfMemory>
    ensures { OnOk result
        (text.new ≡ text.old ++ among before.now a middle.now b behind.now) }
{
    add_around(text, before, a, middle)?;
    add_signed(text, b)?;
    text.extend(behind)
}

/// Puts a ceiling, which is none where no process enters.
fn add_ceiling(text: &mut Text, number: usize) -> Result<(), OutOfMemory>
    ensures { OnOk result (text.new ≡ text.old ++ ceiling number) }
{
    match number {
        65_535 => text.extend(b"none"),
        _ => add_number(text, number),
    }
}

/// Puts the ceiling that is declared and the one that is needed.
fn add_ceilings(text: &mut Text, a: usize, b: usize) -> Result<(), OutOfMemory>
    ensures { OnOk result (text.new ≡ text.old ++ ceilings a b) }
{
    text.extend(b"ceiling: declared ")?;
    add_ceiling(text, a)?;
    text.extend(b", needed ")?;
    add_ceiling(text, b)
}

/// What a number is called that a part declares.
fn quantity(subject: Subject) -> &'static [u8]
    ensures { result.now ≡ quantity subject }
{
    match subject {
        Subject::Run => b"run",
        Subject::Suspension => b"suspension",
        Subject::Waits => b"waits",
        Subject::Stay => b"stay",
        Subject::Locals => b"locals",
        Subject::Stack => b"stack",
        Subject::Base => b"base",
        Subject::Words => b"words",
        Subject::Rank => b"rank",
        Subject::Block => b"block",
        _ => b"bound",
    }
}

/// Puts the instruction and its operand.
fn add_operand(text: &mut Text, a: usize, b: usize) -> Result<(), OutOfMemory>
    ensures { OnOk result (text.new ≡ text.old ++ part_sentence subject.Operand a b) }
{
    add_among(
        text,
        b"the instruction at address ",
        a,
        b": the operand ",
        b,
        b" is not allowed",
    )
}

/// Puts a bound above the deadline.
fn add_late(text: &mut Text, a: usize, b: usize) -> Result<(), OutOfMemory>
    ensures { OnOk result (text.new ≡ text.old ++ part_sentence subject.Deadline a b) }
{
    add_both(
        text,
        b"bound: declared ",
        a,
        b", at most ",
        b,
        b", its deadline",
    )
}

/// Puts what is wrong with a part.
fn add_wrong(text: &mut Text, subject: Subject, a: usize, b: usize) -> Result<(), OutOfMemory>
    ensures { OnOk result (text.new ≡ text.old ++ part_sentence subject a b) }
{
    match subject {
        Subject::Operand => add_operand(text, a, b),
        Subject::Code => add_around(
            text,
            b"its code, declared to start at address ",
            a,
            b", is not that of its tree",
        ),
        Subject::Handler => {
            text.extend(b"its handler is not right behind its body, or reaches a wait")
        }
        Subject::Ceiling => add_ceilings(text, a, b),
        Subject::Deadline => add_late(text, a, b),
        _ => add_declared(text, quantity(subject), a, b),
    }
}

/// Puts what is wrong with the image as a whole.
fn add_whole(text: &mut Text, subject: Subject, a: usize, b: usize) -> Result<(), OutOfMemory>
    ensures { OnOk result (text.new ≡ text.old ++ whole_sentence subject a b) }
{
    match subject {
        Subject::Words => add_around(
            text,
            b"the monitors and processes have ",
            b,
            b" words; 1048576 are the most",
        ),
        _ => add_around(
            text,
            b"the code from address ",
            a,
            b" on belongs to no routine and no process",
        ),
    }
}

/// Puts a part, and what is wrong with it.
fn add_part_sentence(text: &mut Text, raw: &RawImage, fault: PartFault) -> Result<(), OutOfMemory>
    ensures { OnOk result (text.new ≡ text.old ++ (part_called (named_of raw.now) fault.part ++
        (codes ": " ++ part_sentence fault.subject fault.a fault.b))) }
{
    add_part(text, raw, fault.part)?;
    text.extend(b": ")?;
    add_wrong(text, fault.subject, fault.a as usize, fault.b as usize)
}

/// Puts what is wrong, and where.
fn add_sentence(text: &mut Text, raw: &RawImage, fault: PartFault) -> Result<(), OutOfMemory>
    ensures { OnOk result (text.new ≡ text.old ++
        valid_sentence (named_of raw.now) fault.part fault.subject fault.a fault.b) }
{
    match fault.part {
        FaultyPart::Whole => add_whole(text, fault.subject, fault.a as usize, fault.b as usize),
        _ => add_part_sentence(text, raw, fault),
    }
}

/// The number of the test that a subject belongs to, from 1 to 7.
pub fn test_number(subject: Subject) -> u8
    ensures { result ≡ defined_number (test_of subject) }
{
    match subject {
        Subject::Operand => 6,
        Subject::Code => 1,
        Subject::Handler => 7,
        Subject::Run | Subject::Suspension | Subject::Waits | Subject::Stay => 2,
        Subject::Locals | Subject::Stack | Subject::Base | Subject::Words => 3,
        Subject::Rank | Subject::Ceiling | Subject::Block => 4,
        Subject::Bound | Subject::Deadline => 5,
    }
}

/// The message for an image that is not valid: the file, the number of the test that fails, the
/// part of the image, and what is wrong with it, with the two numbers of the fault.
#[tactic(auto, unfolding(crate::specs::Image::valid_message))]
pub fn valid_message(
    alloc: Global,
    file: &str,
    raw: &RawImage,
    fault: PartFault,
) -> Result<Text, OutOfMemory>
    ensures { IfOk result (λ message. message ≡
        valid_message file.now (named_of raw.now) fault) }
{
    let mut message = Text::new(alloc);
    add_opening(
        &mut message,
        file.as_bytes(),
        b"V",
        test_number(fault.subject),
    )?;
    add_sentence(&mut message, raw, fault)?;
    message.extend(b"\n")?;
    Ok(message)
}
