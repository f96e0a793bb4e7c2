//! What can be done at a place, by the words there.

ghost use Rattle.std.specs.Prelude.{◌≡◌, ◌++◌, OnOk, find};
ghost use Rattle.message_unexpected.specs.Rows.{applies, first_word, row_remark, rows as all_rows};
ghost use Rattle.message_unexpected.specs.Rows.{said, saying};

use crate::applying::applies;
use crate::tokens::word_of;
use message_expected::Kind;
use message_text::add_quoted;
use out_of_memory::OutOfMemory;
use syntax::Token;
use syntax_tree::Text;

/// What is seen at a place.
#[derive(Clone, Copy)]
pub struct Facts {
    /// The kind of the word there.
    pub word: Kind,
    /// The kind of the word before it.
    pub before: Kind,
    /// Whether the one begins where the other ends.
    pub is_touching: bool,
    /// Whether they stand on one line.
    pub is_on_line: bool,
    /// Whether `:=` stands behind the word.
    pub is_assigned: bool,
    /// Whether an `if` is open in which one stands right behind an `else`.
    pub has_else_if: bool,
}

/// What can be done at a place.
#[derive(Clone, Copy)]
pub enum Row {
    /// Two signs `=` that touch.
    OneEqual,
    /// A `=` for a `:=`.
    Assigned,
    /// An operator for a `:=`.
    Increased,
    /// A point in a number.
    Fraction,
    /// Letters in a number.
    Digits,
    /// A call of an entry in an expression.
    EntryCall,
    /// An operator behind a call of an entry.
    CallAlone,
    /// A second comparison.
    TwoComparisons,
    /// An operator behind a constant.
    OneConstant,
    /// A value of a variable where it is declared.
    Begun,
    /// A parenthesis behind a keyword.
    NoParentheses,
    /// A `return` among the statements.
    Returned,
    /// A variable among the statements.
    Declared,
    /// A type with an index.
    ArrayType,
    /// A variable of a monitor behind an entry.
    MonitorVariable,
    /// A keyword for a name.
    Reserved,
    /// An `if` behind an `else` with no `end if` of its own.
    ElseIf,
}

/// The rows in their order.
const ROWS: [Row; 17] = [
    Row::OneEqual,
    Row::Assigned,
    Row::Increased,
    Row::Fraction,
    Row::Digits,
    Row::EntryCall,
    Row::CallAlone,
    Row::TwoComparisons,
    Row::OneConstant,
    Row::Begun,
    Row::NoParentheses,
    Row::Returned,
    Row::Declared,
    Row::ArrayType,
    Row::MonitorVariable,
    Row::Reserved,
    Row::ElseIf,
];

/// The rows in their order.
#[tactic(auto, unfolding(crate::specs::Rows::rows))]
fn rows() -> &'static [Row]
    ensures { result.now ≡ all_rows }
{
    &ROWS
}

/// The first row that applies.
fn first_row(found: &[Kind], facts: Facts) -> Option<Row>
    ensures { result ≡ find (applies found.now facts) all_rows }
{
    rows()
        .iter()
        .copied()
        .find(|row| applies(found, facts, *row))
}

/// Puts the word that a row begins with.
fn add_first_word(
    message: &mut Text,
    text: &[u8],
    word: Option<Token>,
    before: Option<Token>,
    row: Row,
) -> Result<(), OutOfMemory>
    ensures { OnOk result (message.new ≡ message.old ++ first_word text.now word before row) }
{
    match row {
        Row::NoParentheses => add_quoted(message, word_of(text, before)),
        Row::Reserved => add_quoted(message, word_of(text, word)),
        _ => Ok(()),
    }
}

/// What a row says, behind the word that it begins with.
fn saying(row: Row) -> &'static [u8]
    ensures { result.now ≡ saying row }
{
    match row {
        Row::OneEqual => b"one `=` compares",
        Row::Assigned => b"`:=` assigns, `=` compares",
        Row::Increased => b"write `x := x + 1`",
        Row::Fraction => b"numbers are whole",
        Row::Digits => b"numbers are decimal, and a name begins with a letter",
        Row::EntryCall => {
            b"an entry is called by a statement of its own, `m.p(..)` or `x := m.f(..)`"
        }
        Row::CallAlone => b"`x := m.f(..)` stands alone; go on with x in the next statement",
        Row::TwoComparisons => b"one comparison joins two sums; write `a < b and b < c`",
        Row::OneConstant => { b"here stands one number or the name of one constant; no expression" }
        Row::Begun => b"a variable begins as 0 or false; assign it behind `begin`",
        Row::NoParentheses => b" has no parentheses behind it",
        Row::Returned => b"`return` stands once, right before the `end` of a function",
        Row::Declared => b"a variable is declared before `begin`, as `var x : int`",
        Row::ArrayType => b"write `array 0 .. 9 of int`",
        Row::MonitorVariable => {
            b"variables and conditions of a monitor stand before its first entry"
        }
        Row::Reserved => b" is a word of the language and cannot be a name",
        Row::ElseIf => b"each `if` has its own `end if`, also one right behind `else`",
    }
}

/// Puts what a row says, if there is one.
fn add_said(
    message: &mut Text,
    text: &[u8],
    word: Option<Token>,
    before: Option<Token>,
    row: Option<Row>,
) -> Result<(), OutOfMemory>
    ensures { OnOk result (message.new ≡ message.old ++ said text.now word before row) }
{
    match row {
        None => Ok(()),
        Some(row) => {
            add_first_word(message, text, word, before, row)?;
            message.extend(saying(row))
        }
    }
}

/// Puts what the first row says that applies.
#[tactic(auto, unfolding(crate::specs::Rows::row_remark))]
pub(crate) fn add_row_remark(
    message: &mut Text,
    text: &[u8],
    word: Option<Token>,
    before: Option<Token>,
    found: &[Kind],
    facts: Facts,
) -> Result<(), OutOfMemory>
    ensures { OnOk result (message.new ≡
        message.old ++ row_remark text.now word before found.now facts) }
{
    add_said(message, text, word, before, first_row(found, facts))
}
