//! What is said.

ghost use Rattle.std.specs.Prelude.{◌≡◌, ◌++◌, OnOk, decimal};
ghost use Rattle.message_text.specs.Words.{quoted};
ghost use Rattle.syntax_tree.specs.Placed.{op_of};
ghost use Rattle.syntax.specs.ExprGrammar.{op_word};
ghost use Rattle.message_types.specs.Sentences.{argument_words, element_form, sentence, sort_words as words_of_sort, spelling as spelling_of, spot_words, wanted_found, without_index};
ghost use Rattle.message_types.specs.Seen.{mismatch_of, spot_of};

use crate::mismatch::{Mismatch, Spot};
use message_text::{add_number, add_quoted};
use out_of_memory::OutOfMemory;
use static_declarations::Sort;
use std::alloc::Global;
use syntax::{keyword, keyword_spelling, sign, sign_spelling};
use syntax_tree::{Op, Text};

/// The bytes of an operator.
fn spelling(op: Op) -> &'static [u8]
    ensures { result.now ≡ spelling_of (op_word (op_of op)) }
{
    match op {
        Op::Or => keyword_spelling(keyword::OR),
        Op::And => keyword_spelling(keyword::AND),
        Op::Equal => sign_spelling(sign::EQUAL),
        Op::Unequal => sign_spelling(sign::UNEQUAL),
        Op::Less => sign_spelling(sign::LESS),
        Op::LessEqual => sign_spelling(sign::LESS_EQUAL),
        Op::Greater => sign_spelling(sign::GREATER),
        Op::GreaterEqual => sign_spelling(sign::GREATER_EQUAL),
        Op::Add => sign_spelling(sign::PLUS),
        Op::Sub => sign_spelling(sign::MINUS),
        Op::Mul => sign_spelling(sign::TIMES),
        Op::Div => keyword_spelling(keyword::DIV),
        Op::Mod => keyword_spelling(keyword::MOD),
    }
}

fn sort_words(sort: Sort) -> &'static [u8]
    ensures { result.now ≡ words_of_sort sort }
{
    match sort {
        Sort::Number => b"a number",
        Sort::Truth => b"a boolean",
    }
}

/// Puts words, and a word from the program between backquotes.
fn add_named(text: &mut Text, before: &[u8], name: &[u8]) -> Result<(), OutOfMemory>
    ensures { OnOk result (text.new ≡ text.old ++ (before.now ++ quoted name.now)) }
{
    text.extend(before)?;
    add_quoted(text, name)
}

/// Puts which argument of a routine it is.
fn add_argument(text: &mut Text, number: usize, routine: &[u8]) -> Result<(), OutOfMemory>
    ensures { OnOk result
        (text.new ≡ text.old ++ argument_words number routine.now) }
{
    text.extend(b"argument ")?;
    add_number(text, number)?;
    add_named(text, b" of ", routine)
}

/// Puts where a value of a sort is wanted.
fn add_spot(text: &mut Text, spot: Spot<'_>) -> Result<(), OutOfMemory>
    ensures { OnOk result (text.new ≡ text.old ++ spot_words (spot_of spot.entry)) }
{
    match spot {
        Spot::If => text.extend(b"`if`"),
        Spot::ExitWhen => text.extend(b"`exit when`"),
        Spot::Assert => text.extend(b"`assert`"),
        Spot::AssignedTo(target) => add_named(text, b"assigned to ", target),
        Spot::GotInto(target) => add_named(text, b"`get` into ", target),
        Spot::PutTo(device) => add_named(text, b"`put` to ", device),
        Spot::Argument { number, routine } => add_argument(text, number, routine),
        Spot::IndexOf(array) => add_named(text, b"the index of ", array),
        Spot::LeftOf(op) => add_named(text, b"left of ", spelling(op)),
        Spot::RightOf(op) => add_named(text, b"right of ", spelling(op)),
        Spot::BehindMinus => text.extend(b"`-`"),
        Spot::BehindNot => text.extend(b"`not`"),
        Spot::ResultOf(function) => add_named(text, b"the result of ", function),
    }
}

/// Puts the sort that is wanted, and the one that is found.
fn add_sorts(text: &mut Text, wanted: Sort, found: Sort) -> Result<(), OutOfMemory>
    ensures { OnOk result (text.new ≡ text.old ++
        wanted_found (words_of_sort wanted) (words_of_sort found)) }
{
    text.extend(b": wanted ")?;
    text.extend(sort_words(wanted))?;
    text.extend(b", found ")?;
    text.extend(sort_words(found))
}

/// Puts how many arguments are wanted, and how many are found.
fn add_counts(text: &mut Text, wanted: usize, found: usize) -> Result<(), OutOfMemory>
    ensures { OnOk result (text.new ≡ text.old ++ wanted_found (decimal wanted) (decimal found)) }
{
    text.extend(b": wanted ")?;
    add_number(text, wanted)?;
    text.extend(b", found ")?;
    add_number(text, found)
}

/// Puts an element of an array, as it is written.
fn add_element(alloc: Global, text: &mut Text, array: &[u8]) -> Result<(), OutOfMemory>
    ensures { OnOk result (text.new ≡ text.old ++ element_form array.now) }
{
    let mut element = Text::from_bytes(alloc, array)?;
    element.extend(b"[i]")?;
    add_quoted(text, element.as_bytes())
}

/// Puts that an array stands without an index.
fn add_whole(alloc: Global, text: &mut Text, array: &[u8]) -> Result<(), OutOfMemory>
    ensures { OnOk result (text.new ≡ text.old ++ without_index array.now) }
{
    add_quoted(text, array)?;
    text.extend(b" is an array and is used by element, as ")?;
    add_element(alloc, text, array)
}

/// Puts what is said of what does not agree.
pub(crate) fn add_sentence(
    alloc: Global,
    text: &mut Text,
    mismatch: Mismatch<'_>,
) -> Result<(), OutOfMemory>
    ensures { OnOk result (text.new ≡ text.old ++ sentence (mismatch_of mismatch.entry)) }
{
    match mismatch {
        Mismatch::SortsDiffer {
            spot,
            wanted,
            found,
        } => {
            add_spot(text, spot)?;
            add_sorts(text, wanted, found)
        }
        Mismatch::CountsDiffer {
            routine,
            wanted,
            found,
        } => {
            add_named(text, b"arguments of ", routine)?;
            add_counts(text, wanted, found)
        }
        Mismatch::LacksIndex { array } => add_whole(alloc, text, array),
        Mismatch::HasIndex { name } => {
            add_quoted(text, name)?;
            text.extend(b" is no array and has no index")
        }
    }
}
