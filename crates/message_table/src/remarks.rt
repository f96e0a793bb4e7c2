//! The remark behind what is told.

ghost use Rattle.std.specs.Prelude.{◌≡◌, option_map};
ghost use Rattle.message_table.specs.Sentences.{below_remark as below_range, count_remark as remark_of_count};
ghost use Rattle.message_table.specs.Sentences.{first_or as form_of, form_remark as remark_of_form};
ghost use Rattle.message_table.specs.Sentences.{is_comment as comment_test, key_remark as remark_of_key};
ghost use Rattle.message_table.specs.Sentences.{line_remark as remark_of_line};
ghost use Rattle.message_table.specs.Sentences.{name_remark as remark_of_name};
ghost use Rattle.message_table.specs.Sentences.{numeral_remark as remark_of_numeral, remark as remark_of};
ghost use Rattle.message_table.specs.Sentences.{ticks_remark as remark_of_ticks};

use crate::fault::{CountFault, Fault, FormFault, NameFault, NumeralFault, TicksFault};
use crate::numerals::{begins_with, ticks};
use crate::part::Part;
use crate::ticks::least;

const FIRST: &[u8] = b"the first line is `table NAME`";

const LINES: &[u8] = b"lines are `process P frame T cost C` and last `end`";

const FORM: &[u8] =
    b"the form is `process P [event E] frame T [deadline D] [first N] cost C [stay M S ..]`";

const FINER: &[u8] = b"multiply all numbers of the table by the same number";

/// Whether a word begins as a comment does elsewhere.
fn is_comment(word: &[u8]) -> bool
    ensures { result ≡ comment_test word.now }
{
    begins_with(word, b'%') || begins_with(word, b'#') || begins_with(word, b'/')
}

/// The remark on a line of this form that begins with a wrong word.
fn line_remark(form: &'static [u8], word: &[u8]) -> &'static [u8]
    ensures { result.now ≡ remark_of_line form.entry.now word.now }
{
    if is_comment(word) {
        return b"a table has no comments";
    }
    form
}

/// The remark on a word that is no key of a part behind this one.
fn key_remark(part: Part, word: &[u8]) -> &'static [u8]
    ensures { result.now ≡ remark_of_key part word.now }
{
    match part {
        Part::FirstLine => line_remark(FIRST, word),
        Part::OtherLine => line_remark(LINES, word),
        Part::Table => FIRST,
        Part::End => b"the last line is `end`",
        _ => FORM,
    }
}

/// The form of the first line on it, else this one.
fn first_or(number: usize, form: &'static [u8]) -> &'static [u8]
    ensures { result.now ≡ form_of number form.entry.now }
{
    if number == 1 { FIRST } else { form }
}

/// The remark on a word that is no numeral.
fn numeral_remark(fault: NumeralFault) -> Option<&'static [u8]>
    ensures { option_map (λ remark. remark.now) result ≡ remark_of_numeral fault }
{
    match fault {
        NumeralFault::NoNumber => Some(
            b"numbers are whole ticks; multiply all numbers of the table by the same number",
        ),
        _ => None,
    }
}

/// The remark on the form of the line of this number.
fn form_remark(fault: FormFault, number: usize, word: &[u8]) -> Option<&'static [u8]>
    ensures { option_map (λ remark. remark.now) result ≡ remark_of_form fault number word.now }
{
    match fault {
        FormFault::NoLineFeed => Some(b"end the last line too"),
        FormFault::CarriageReturn => Some(b"lines end with a line feed alone"),
        FormFault::Empty => Some(first_or(number, LINES)),
        FormFault::TwoBlanks => Some(b"one blank stands between words"),
        FormFault::NoKey { behind } => Some(key_remark(behind, word)),
        FormFault::NoTicks { fault } => numeral_remark(fault),
        FormFault::WordMissing => Some(first_or(number, FORM)),
        _ => None,
    }
}

/// The remark on a name.
fn name_remark(fault: NameFault) -> Option<&'static [u8]>
    ensures { option_map (λ remark. remark.now) result ≡ remark_of_name fault }
{
    match fault {
        NameFault::Keyword => None,
        NameFault::TooLong => Some(b"write a shorter name"),
        NameFault::NoName => Some(
            b"a name begins with a letter and has letters a to z and A to Z, digits and `_`",
        ),
        NameFault::Taken { .. } => Some(b"give one of them another name"),
    }
}

/// The remark on ticks below their range.
fn below_remark(part: Part, word: &[u8]) -> Option<&'static [u8]>
    ensures { option_map (λ remark. remark.now) result ≡ below_range part word.now }
{
    if ticks(word) < least(part) {
        return Some(FINER);
    }
    None
}

/// The remark on ticks.
fn ticks_remark(fault: TicksFault, word: &[u8]) -> Option<&'static [u8]>
    ensures { option_map (λ remark. remark.now) result ≡ remark_of_ticks fault word.now }
{
    match fault {
        TicksFault::OutOfRange { of, .. } => below_remark(of, word),
        TicksFault::Stay | TicksFault::Cost => Some(FINER),
        TicksFault::CostWithStays { .. } => {
            Some(b"an activation takes 4 ticks, and each stay 15 beside its own")
        }
    }
}

/// The remark on what there is not, or is too much of.
fn count_remark(fault: CountFault) -> Option<&'static [u8]>
    ensures { option_map (λ remark. remark.now) result ≡ remark_of_count fault }
{
    match fault {
        CountFault::NoProcess => Some(LINES),
        _ => None,
    }
}

/// The remark on a fault at a word of the line of this number.
#[tactic(auto, unfolding(crate::specs::Sentences::remark))]
pub(crate) fn remark(fault: Fault, number: usize, word: &[u8]) -> Option<&'static [u8]>
    ensures { option_map (λ remark. remark.now) result ≡ remark_of fault number word.now }
{
    match fault {
        Fault::Form { fault } => form_remark(fault, number, word),
        Fault::Name { fault } => name_remark(fault),
        Fault::Ticks { fault } => ticks_remark(fault, word),
        Fault::Count { fault } => count_remark(fault),
        Fault::Unknown => None,
    }
}
