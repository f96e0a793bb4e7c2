//! What is said.

ghost use Rattle.std.specs.Prelude.{◌≡◌, ◌++◌, OnOk, map};
ghost use Rattle.std.specs.Fmt.{signed_decimal};
ghost use Rattle.syntax_tree.specs.Placed.{placed_decl};
ghost use Rattle.message_rules.specs.Sentences.{around, count_among, crossed_bounds, event_name as event_name_of, name_among, number_among, numbers_among, one_too_many, sentence, wrong_deadline};

use crate::fault::{Counted, Fault, Quantity};
use itoa::Buffer;
use message_text::{add_number, add_quoted};
use out_of_memory::OutOfMemory;
use syntax_tree::{Declaration, Place, Text};

/// The name of the event that is declared at the place, nothing where there is none.
fn event_name(place: Place, list: &[Declaration]) -> &[u8]
    ensures { result.now ≡ event_name_of place (map placed_decl list.now) }
{
    for decl in list {
        if let Declaration::Event { name, place: at } = decl {
            if *at == place {
                return name.as_bytes();
            }
        }
    }
    b""
}

/// Puts a number in decimal, behind `-` where it is negative.
fn add_signed(text: &mut Text, number: i64) -> Result<(), OutOfMemory>
    ensures { OnOk result (text.new ≡ text.old ++ signed_decimal number) }
{
    let mut digits = Buffer::new();
    text.extend(digits.format(number).as_bytes())
}

/// Puts a number among some words.
fn add_among(text: &mut Text, before: &[u8], number: i64, behind: &[u8]) -> Result<(), OutOfMemory>
    ensures { OnOk result (text.new ≡ text.old ++ number_among before.now number behind.now) }
{
    text.extend(before)?;
    add_signed(text, number)?;
    text.extend(behind)
}

/// Puts two numbers among some words.
fn add_both(
    text: &mut Text,
    before: &[u8],
    one: i64,
    middle: &[u8],
    other: i64,
    behind: &[u8],
) -> Result<(), OutOfMemory>
    ensures { OnOk result
        (text.new ≡ text.old ++ numbers_among before.now one middle.now other behind.now) }
{
    add_among(text, before, one, middle)?;
    add_signed(text, other)?;
    text.extend(behind)
}

/// Puts a count among some words.
fn add_count(text: &mut Text, before: &[u8], count: usize, behind: &[u8]) -> Result<(), OutOfMemory>
    ensures { OnOk result (text.new ≡ text.old ++ count_among before.now count behind.now) }
{
    text.extend(before)?;
    add_number(text, count)?;
    text.extend(behind)
}

/// Puts a name and a count among some words.
fn add_name(
    text: &mut Text,
    before: &[u8],
    name: &[u8],
    middle: &[u8],
    count: usize,
    behind: &[u8],
) -> Result<(), OutOfMemory>
    ensures { OnOk result
        (text.new ≡ text.old ++ name_among before.now name.now middle.now count behind.now) }
{
    text.extend(before)?;
    add_quoted(text, name)?;
    add_count(text, middle, count, behind)
}

/// What is said where there is one of these too many.
fn one_too_many(counted: Counted) -> &'static [u8]
    ensures { result.now ≡ one_too_many counted }
{
    match counted {
        Counted::Process => b"this is process number 65; 64 are the most",
        Counted::Monitor => b"this is monitor number 65; 64 are the most",
        Counted::Device => b"this is device number 65; 64 are the most",
        Counted::Event => b"this is event number 65; 64 are the most",
        Counted::Condition => b"this is condition number 257; 256 are the most",
        Counted::Routine => b"this is routine number 513; 512 are the most",
    }
}

/// What stands before a number that is wrong by itself.
fn words_before(of: Quantity) -> &'static [u8]
    ensures { result.now ≡ (around of).before }
{
    match of {
        Quantity::Elements => b"the array has ",
        Quantity::Turns => b"the loop has ",
        Quantity::Frame => b"the frame is ",
        Quantity::FirstActivation => b"the first activation is ",
        Quantity::RaisedNumber => b"the exception's number is ",
        Quantity::HandlerNumber => b"the handler's number is ",
        Quantity::ListedNumber => b"the handler lists ",
        Quantity::WaitLimit => b"the limit of a wait is ",
    }
}

/// What stands behind a number that is wrong by itself.
fn words_behind(of: Quantity) -> &'static [u8]
    ensures { result.now ≡ (around of).behind }
{
    match of {
        Quantity::Elements => b" elements; 65536 are the most",
        Quantity::Turns => b" turns; 1000000 are the most",
        Quantity::Frame => b"; it may be 10 to 1000000000",
        Quantity::FirstActivation => b"; it may be 0 to 1000000000",
        Quantity::RaisedNumber => b"; it may be 10 to 999",
        Quantity::HandlerNumber => b"; it may be 1 to 4 or 10 to 999",
        Quantity::ListedNumber => b" twice",
        Quantity::WaitLimit => b"; it may be 1 to 1000000000",
    }
}

/// Puts that a lower bound is above its upper bound.
fn add_crossed(text: &mut Text, low: i64, high: i64) -> Result<(), OutOfMemory>
    ensures { OnOk result (text.new ≡ text.old ++ crossed_bounds low high) }
{
    add_both(
        text,
        b"the lower bound ",
        low,
        b" is above the upper bound ",
        high,
        b"",
    )
}

/// Puts that a deadline is below its range, or above its frame.
fn add_deadline(text: &mut Text, ticks: i64, frame: i64) -> Result<(), OutOfMemory>
    ensures { OnOk result (text.new ≡ text.old ++ wrong_deadline ticks frame) }
{
    add_both(
        text,
        b"the deadline is ",
        ticks,
        b"; it may be 10 to ",
        frame,
        b", its frame",
    )
}

/// Puts what is said of what is wrong among these declarations.
pub(crate) fn add_sentence(
    text: &mut Text,
    list: &[Declaration],
    fault: Fault,
) -> Result<(), OutOfMemory>
    ensures { OnOk result (text.new ≡ text.old ++ sentence (map placed_decl list.now) fault) }
{
    match fault {
        Fault::Number { of, value } => {
            add_among(text, words_before(of), value, words_behind(of))
        }
        Fault::CrossedBounds { low, high } => add_crossed(text, low, high),
        Fault::EndlessLoop => {
            text.extend(b"the upper bound of a loop is 2147483647; it may be up to 2147483646")
        }
        Fault::Deadline { ticks, frame } => add_deadline(text, ticks, frame),
        Fault::EventUse { event, processes } => add_name(
            text,
            b"the event ",
            event_name(event, list),
            b" starts ",
            processes,
            b" processes; one is wanted",
        ),
        Fault::NoProcess => text.extend(b"the program has no process"),
        Fault::OneTooMany(counted) => text.extend(one_too_many(counted)),
        Fault::VariableWords { words } => add_count(
            text,
            b"the variables take ",
            words as usize,
            b" words; 1048576 are the most",
        ),
    }
}
