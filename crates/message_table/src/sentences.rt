//! What is told of each fault.

ghost use Rattle.std.specs.Prelude.{◌≡◌, ◌++◌, OnOk};
ghost use Rattle.message_table.specs.Parts.{choice};
ghost use Rattle.message_table.specs.Sentences.{cost_word, costs_with_stays, count_sentence};
ghost use Rattle.message_table.specs.Sentences.{form_sentence, form_words as words_of_form};
ghost use Rattle.message_table.specs.Sentences.{key_problem, name_sentence, numeral_sentence};
ghost use Rattle.message_table.specs.Sentences.{range_of, sentence, ticks_of as ticks_words};
ghost use Rattle.message_table.specs.Sentences.{ticks_sentence, wanted_behind, what as what_part};
ghost use Rattle.message_table.specs.declared.fault.NameFault.TheVariants.{Taken, TooLong};
ghost use Rattle.message_text.specs.Words.{quoted, shortened};

use crate::fault::{CountFault, Fault, FormFault, NameFault, NumeralFault, TicksFault};
use crate::part::Part;
use crate::put::{add_between, add_count, add_ticks, add_told};
use message_text::{add_either, add_quoted};
use out_of_memory::OutOfMemory;
use syntax_tree::Text;

/// Puts why a word is no numeral.
fn add_numeral(text: &mut Text, fault: NumeralFault, word: &[u8]) -> Result<(), OutOfMemory>
    ensures { OnOk result (text.new ≡ text.old ++ numeral_sentence fault word.now) }
{
    match fault {
        NumeralFault::Plus => text.extend(b"`+` stands before no number"),
        NumeralFault::NoNumber => add_told(text, word, b" is no whole number"),
        NumeralFault::Minus => text.extend(b"`-` stands before no number"),
        NumeralFault::LeadingZero => add_told(text, word, b" has a leading zero"),
    }
}

/// Puts what may stand behind a part.
fn add_choice(text: &mut Text, part: Part) -> Result<(), OutOfMemory>
    ensures { OnOk result (text.new ≡ text.old ++ choice part) }
{
    match part {
        Part::FirstLine => add_either(text, &[b"`table`"]),
        Part::OtherLine => add_either(text, &[b"`process`", b"`end`"]),
        Part::Table | Part::End => add_either(text, &[b"the end of the line"]),
        Part::Process => add_either(text, &[b"`event`", b"`frame`"]),
        Part::Event => add_either(text, &[b"`frame`"]),
        Part::Frame => add_either(text, &[b"`deadline`", b"`first`", b"`cost`"]),
        Part::EventFrame => add_either(text, &[b"`deadline`", b"`cost`"]),
        Part::Deadline => add_either(text, &[b"`first`", b"`cost`"]),
        Part::EventDeadline | Part::First => add_either(text, &[b"`cost`"]),
        Part::Cost | Part::Stay => add_either(text, &[b"`stay`", b"the end of the line"]),
    }
}

/// Puts that something else is wanted behind a part.
fn add_wanted(text: &mut Text, part: Part) -> Result<(), OutOfMemory>
    ensures { OnOk result (text.new ≡ text.old ++ wanted_behind part) }
{
    text.extend(b" stands where ")?;
    add_choice(text, part)?;
    text.extend(b" is wanted")
}

/// Puts what a word is that is no key of a part behind this one.
fn add_key_problem(text: &mut Text, part: Part) -> Result<(), OutOfMemory>
    ensures { OnOk result (text.new ≡ text.old ++ key_problem part) }
{
    match part {
        Part::FirstLine | Part::OtherLine => text.extend(b" does not begin this line"),
        Part::Table | Part::End => text.extend(b" is one word too many"),
        _ => add_wanted(text, part),
    }
}

/// Puts that a word is no key of a part behind this one.
fn add_no_key(text: &mut Text, part: Part, word: &[u8]) -> Result<(), OutOfMemory>
    ensures { OnOk result (text.new ≡ text.old ++ (quoted word.now ++ key_problem part)) }
{
    add_quoted(text, word)?;
    add_key_problem(text, part)
}

/// What is told of the form of a line where no word is named.
fn form_words(fault: FormFault) -> &'static [u8]
    ensures { result.now ≡ words_of_form fault }
{
    match fault {
        FormFault::BehindEnd => b"a line behind the `end` line",
        FormFault::EndMissing => b"the last line, `end`, is missing",
        FormFault::NoLineFeed => b"the last line has no line feed",
        FormFault::CarriageReturn => b"a carriage return",
        FormFault::Empty => b"an empty line",
        FormFault::BlankFirst => b"a blank at the start",
        FormFault::TwoBlanks => b"two blanks",
        FormFault::BlankLast => b"a blank at the end",
        FormFault::WordMissing => b"a word is missing",
        _ => b"this line has no form that may stand here",
    }
}

/// Puts what is wrong with the form of a line.
fn add_form(text: &mut Text, fault: FormFault, word: &[u8]) -> Result<(), OutOfMemory>
    ensures { OnOk result (text.new ≡ text.old ++ form_sentence fault word.now) }
{
    match fault {
        FormFault::NoKey { behind } => add_no_key(text, behind, word),
        FormFault::NoTicks { fault } => add_numeral(text, fault, word),
        _ => text.extend(form_words(fault)),
    }
}

/// A part of a line, as what has a name.
fn what(part: Part) -> &'static [u8]
    ensures { result.now ≡ what_part part }
{
    match part {
        Part::Table => b"the table",
        Part::Process => b"a process",
        Part::Event => b"an event",
        _ => b"a monitor",
    }
}

/// Puts that a name has too many bytes.
fn add_too_long(text: &mut Text, word: &[u8]) -> Result<(), OutOfMemory>
    ensures { OnOk result (text.new ≡ text.old ++ name_sentence TooLong word.now) }
{
    text.extend(b"the name ")?;
    add_quoted(text, word)?;
    add_count(text, b" has ", word.len(), b" bytes; 63 are the most")
}

/// Puts that a part of a line has a name already.
fn add_taken(text: &mut Text, word: &[u8], by: Part, line: usize) -> Result<(), OutOfMemory>
    ensures { OnOk result (text.new ≡ text.old ++ name_sentence (Taken by line) word.now) }
{
    add_quoted(text, word)?;
    text.extend(b" is ")?;
    text.extend(what(by))?;
    add_count(text, b" of line ", line, b"")
}

/// Puts what is wrong with a name.
fn add_name(text: &mut Text, fault: NameFault, word: &[u8]) -> Result<(), OutOfMemory>
    ensures { OnOk result (text.new ≡ text.old ++ name_sentence fault word.now) }
{
    match fault {
        NameFault::Keyword => add_told(
            text,
            word,
            b" is a word of the language and cannot be a name",
        ),
        NameFault::TooLong => add_too_long(text, word),
        NameFault::NoName => add_told(text, word, b" is no name"),
        NameFault::Taken { by, line } => add_taken(text, word, by, line),
    }
}

/// A part of a line, as what has ticks.
fn ticks_of(part: Part) -> &'static [u8]
    ensures { result.now ≡ ticks_words part }
{
    match part {
        Part::Frame | Part::EventFrame => b"the frame is ",
        Part::Deadline | Part::EventDeadline => b"the deadline is ",
        Part::First => b"the first activation is ",
        Part::Stay => b"the stay is ",
        _ => b"the cost is ",
    }
}

/// Puts the range of a part's ticks, in a line with this frame.
fn add_range(text: &mut Text, part: Part, frame: u64) -> Result<(), OutOfMemory>
    ensures { OnOk result (text.new ≡ text.old ++ range_of part frame) }
{
    match part {
        Part::Frame | Part::EventFrame => text.extend(b"; it may be 10 to 1000000000"),
        Part::Deadline | Part::EventDeadline => {
            add_ticks(
                text,
                b"; it may be 10 to ",
                u128::from(frame),
                b", its frame",
            )
        }
        Part::First => text.extend(b"; it may be 0 to 1000000000"),
        Part::Stay => text.extend(b"; it may be 3 to 1000000000"),
        _ => text.extend(b"; it may be 4 to 1000000000"),
    }
}

/// Puts that ticks are outside their range.
fn add_out_of_range(text: &mut Text, part: Part, frame: u64, word: &[u8]) -> Result<(), OutOfMemory>
    ensures { OnOk result
        (text.new ≡ text.old ++ (ticks_words part ++ (shortened word.now ++ range_of part frame))) }
{
    add_between(text, ticks_of(part), word, b"")?;
    add_range(text, part, frame)
}

/// Puts which costs can be met with the stays of a line.
fn add_costs(text: &mut Text, least: u128, more: u128) -> Result<(), OutOfMemory>
    ensures { OnOk result (text.new ≡ text.old ++ costs_with_stays least more) }
{
    add_ticks(
        text,
        b" cannot be met with its stays; ",
        least,
        b" can, and ",
    )?;
    add_ticks(text, b"", more, b" or more")
}

/// Puts that a cost cannot be met with the stays of its line.
fn add_cost(text: &mut Text, least: u128, more: u128, word: &[u8]) -> Result<(), OutOfMemory>
    ensures { OnOk result
        (text.new ≡ text.old ++ (cost_word word.now ++ costs_with_stays least more)) }
{
    add_between(text, b"a cost of ", word, b"")?;
    add_costs(text, least, more)
}

/// Puts what is wrong with ticks.
fn add_ticks_fault(text: &mut Text, fault: TicksFault, word: &[u8]) -> Result<(), OutOfMemory>
    ensures { OnOk result (text.new ≡ text.old ++ ticks_sentence fault word.now) }
{
    match fault {
        TicksFault::OutOfRange { of, frame } => add_out_of_range(text, of, frame, word),
        TicksFault::Stay => add_between(
            text,
            b"a stay of ",
            word,
            b" cannot be met; 3 can, and 6 or more",
        ),
        TicksFault::Cost => add_between(
            text,
            b"a cost of ",
            word,
            b" cannot be met; 4 can, and 7 or more",
        ),
        TicksFault::CostWithStays { least, more } => add_cost(text, least, more, word),
    }
}

/// What is told of what there is not, or is too much of.
fn count_words(fault: CountFault) -> &'static [u8]
    ensures { result.now ≡ count_sentence fault }
{
    match fault {
        CountFault::NoProcess => b"the table has no process",
        CountFault::Process => b"this is process number 65; 64 are the most",
        CountFault::Monitor => b"this is monitor number 65; 64 are the most",
        CountFault::Stay => b"this is stay number 513; 512 are the most",
    }
}

/// Puts what is told of a fault at a word.
#[tactic(auto, unfolding(crate::specs::Sentences::sentence))]
pub(crate) fn add_sentence(text: &mut Text, fault: Fault, word: &[u8]) -> Result<(), OutOfMemory>
    ensures { OnOk result (text.new ≡ text.old ++ sentence fault word.now) }
{
    match fault {
        Fault::Form { fault } => add_form(text, fault, word),
        Fault::Name { fault } => add_name(text, fault, word),
        Fault::Ticks { fault } => add_ticks_fault(text, fault, word),
        Fault::Count { fault } => text.extend(count_words(fault)),
        Fault::Unknown => text.extend(b"this line cannot stand here"),
    }
}
