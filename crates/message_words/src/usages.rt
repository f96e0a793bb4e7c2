//! The message for words that are no call.

ghost use Rattle.std.specs.Prelude.{◌≡◌, ◌++◌, OnOk, IfOk, bytes_eq, codes, find};
ghost use Rattle.std.specs.Prelude.{map, not, option_map, string_bytes};
ghost use Rattle.command_words.specs.Words.{is_word};
ghost use Rattle.message_text.specs.Nearest.{nearest};
ghost use Rattle.message_words.specs.Usage.{no_command, rows as all_rows, table};
ghost use Rattle.message_words.specs.Usage.{told, told_of, unknown, usage, wrong};
ghost use Rattle.message_words.specs.Seen.{row_of};

use crate::rows::{Row, rows};
use crate::tables::add_table;
use message_text::{add_hint, add_quoted, nearest};
use out_of_memory::OutOfMemory;
use std::alloc::Global;
use syntax_tree::Text;

/// Whether a word is not empty, and begins with no dash.
fn is_word(word: &[u8]) -> bool
    ensures { result ≡ is_word word.now }
{
    match word {
        [] => false,
        [first, ..] => *first != b'-',
    }
}

/// Whether a word is empty or begins with a dash.
fn is_no_word(word: &String) -> bool
    ensures { result ≡ not (is_word (string_bytes word.now)) }
{
    !is_word(word.as_bytes())
}

/// The first word that is empty or begins with a dash.
fn first_no_word(words: &[String]) -> Option<&[u8]>
    ensures { option_map (λ word. word.now) result ≡
        find (λ word. not (is_word word)) (map string_bytes words.now) }
{
    for word in words {
        if is_no_word(word) {
            return Some(word.as_bytes());
        }
    }
    None
}

/// Puts what is wrong with the words of a command.
fn add_wrong(text: &mut Text, word: &[u8], words: &[String]) -> Result<(), OutOfMemory>
    ensures { OnOk result (text.new ≡ text.old ++
        wrong word.now (find (λ word. not (is_word word)) (map string_bytes words.now))) }
{
    match first_no_word(words) {
        None => {
            text.extend(b"rte: wrong words for ")?;
            add_quoted(text, word)?;
            text.extend(b"\n")
        }
        Some(other) => {
            text.extend(b"rte: no word is empty or begins with `-`: ")?;
            add_quoted(text, other)?;
            text.extend(b"\n")
        }
    }
}

/// The commands of these rows.
fn commands(alloc: Global, rows: &[Row]) -> Result<Vec<&'static [u8]>, OutOfMemory>
    ensures { IfOk result (λ all.
        map (λ command. command.now) all.items ≡ map (λ row. row.command) (map row_of rows.now)) }
{
    let mut all = Vec::new(alloc);
    for row in rows {
        all.push(row.command.as_bytes())?;
    }
    Ok(all)
}

/// The nearest command, if one is near.
fn nearest_command(alloc: Global, word: &[u8]) -> Result<Option<&'static [u8]>, OutOfMemory>
    ensures { IfOk result (λ found. option_map (λ command. command.now) found ≡
        nearest word.now (map (λ row. row.command) all_rows)) }
{
    let all = commands(alloc, rows())?;
    nearest(alloc, word, all.as_slice())
}

/// Puts that a word is no command, and the nearest one.
fn add_no_command(text: &mut Text, word: &[u8], near: Option<&[u8]>) -> Result<(), OutOfMemory>
    ensures { OnOk result (text.new ≡ text.old ++
        no_command word.now (option_map (λ command. command.now) near.entry)) }
{
    text.extend(b"rte: ")?;
    add_quoted(text, word)?;
    text.extend(b" is no command")?;
    add_hint(text, near)?;
    text.extend(b"\n")
}

/// Whether the word asks for help.
fn is_help(word: &[u8]) -> bool
    ensures { result ≡ bytes_eq word.now (codes "help") }
{
    word == b"help".as_slice()
}

/// Puts what is told of a first word that is no command.
fn add_unknown(alloc: Global, text: &mut Text, word: &[u8]) -> Result<(), OutOfMemory>
    ensures { OnOk result (text.new ≡ text.old ++ unknown word.now) }
{
    if is_help(word) {
        return Ok(());
    }
    let near = nearest_command(alloc, word)?;
    add_no_command(text, word, near)
}

/// Whether the word is the command of a row.
fn is_command(row: &Row, word: &[u8]) -> bool
    ensures { result ≡ bytes_eq row.now.command.now word.now }
{
    row.command.as_bytes() == word
}

/// The row of a command, if the word is one.
fn row_of_command(rows: &'static [Row], word: &[u8]) -> Option<&'static Row>
    ensures { option_map (λ row. row_of row.now) result ≡
        find (λ row. bytes_eq row.command word.now) (map row_of rows.now) }
{
    for row in rows {
        if is_command(row, word) {
            return Some(row);
        }
    }
    None
}

/// The row of the table whose command the word is, if it is one.
fn command_row(word: &[u8]) -> Option<&'static Row>
    ensures { option_map (λ row. row_of row.now) result ≡
        find (λ row. bytes_eq row.command word.now) all_rows }
{
    row_of_command(rows(), word)
}

/// Puts the whole table.
fn add_all(text: &mut Text) -> Result<(), OutOfMemory>
    ensures { OnOk result (text.new ≡ text.old ++ table all_rows) }
{
    add_table(text, rows())
}

/// Puts what is told of these words, whose first is this.
fn add_told(
    alloc: Global,
    text: &mut Text,
    words: &[String],
    word: &[u8],
) -> Result<(), OutOfMemory>
    ensures { OnOk result (text.new ≡ text.old ++ told (map string_bytes words.now) word.now
        (find (λ row. bytes_eq row.command word.now) all_rows)) }
{
    match command_row(word) {
        Some(row) => {
            add_wrong(text, word, words)?;
            add_table(text, &[*row])
        }
        None => {
            add_unknown(alloc, text, word)?;
            add_all(text)
        }
    }
}

/// Puts what is told of these words.
fn add_usage(alloc: Global, text: &mut Text, words: &[String]) -> Result<(), OutOfMemory>
    ensures { OnOk result (text.new ≡ text.old ++ told_of (map string_bytes words.now)) }
{
    match words {
        [] => {
            text.extend(b"rte: a command is wanted\n")?;
            add_all(text)
        }
        [word, ..] => add_told(alloc, text, words, word.as_bytes()),
    }
}

/// The message for words that are no call: what is wrong with them; the row of their command, or
/// all rows; and what the signs in these rows stand for.
#[tactic(auto, unfolding(crate::specs::Usage::usage))]
pub fn usage(alloc: Global, words: &[String]) -> Result<Text, OutOfMemory>
    ensures { IfOk result (λ text. text ≡ usage (map string_bytes words.now)) }
{
    let mut text = Text::new(alloc);
    add_usage(alloc, &mut text, words)?;
    Ok(text)
}
