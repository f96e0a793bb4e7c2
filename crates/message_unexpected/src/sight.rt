//! What is seen at a place, and what can be done there.

ghost use Rattle.std.specs.Prelude.{◌≡◌, ◌++◌, [], IfOk, OnOk, false};
ghost use Rattle.std.specs.List.{prefix_len};
ghost use Rattle.message_unexpected.specs.Remarks.{facts_at, from, has_else_if, has_pair, is_earlier};
ghost use Rattle.message_unexpected.specs.Remarks.{is_pair, note_of};
ghost use Rattle.message_unexpected.specs.Remarks.{later_remark, place_remark, remark};
ghost use Rattle.message_unexpected.specs.Remarks.{remark_note, touch, word_remark};

use crate::parts::last_open;
use crate::remarks::{add_case_remark, add_comment_remark, add_nearest_remark, foreign_remark};
use crate::rows::{Facts, add_row_remark};
use crate::tokens::line_of;
use message_expected::{Kind, is_same, kind_of, of_token};
use message_text::add_note;
use out_of_memory::OutOfMemory;
use std::alloc::Global;
use syntax::{Token, keyword, sign};
use syntax_tree::Text;

/// The sign of an assignment.
const ASSIGN: Kind = Kind::Sign { at: sign::ASSIGN };

/// The word of a conditional statement.
const IF: Kind = Kind::Keyword { at: keyword::IF };

/// The word of its second part.
const ELSE: Kind = Kind::Keyword { at: keyword::ELSE };

/// A place of a text.
#[derive(Clone, Copy)]
pub(crate) struct Sight<'a> {
    /// The text.
    pub text: &'a [u8],
    /// The line of the place, from 1.
    pub line: u32,
    /// The tokens before the place.
    pub before: &'a [Token],
    /// The token at the place; none at the end of the text.
    pub word: Option<Token>,
    /// The token behind that.
    pub behind: Option<Token>,
    /// The kinds that are expected there.
    pub found: &'a [Kind],
}

/// Whether the one token ends where the other begins.
fn touch(before: Option<Token>, word: Option<Token>) -> bool
    ensures { result ≡ touch before word }
{
    match (before, word) {
        (Some(before), Some(word)) => {
            word.start as usize == before.start as usize + before.len as usize
        }
        _ => false,
    }
}

/// Whether the word is an `if` behind an `else`.
fn is_pair(is_behind_else: bool, kind: Kind) -> bool
    ensures { result ≡ is_pair is_behind_else kind }
{
    is_behind_else && is_same(IF, kind)
}

/// Whether an `if` stands right behind an `else` among the tokens.
fn has_pair(all: &[Token]) -> bool
    ensures { result ≡ has_pair false all.now }
{
    let mut is_behind_else = false;
    for index in 0..all.len() {
        let kind = of_token(all[index]);
        if is_pair(is_behind_else, kind) {
            return true;
        }
        is_behind_else = is_same(ELSE, kind);
    }
    false
}

/// Whether the token stands before another one.
#[tactic(auto, unfolding(crate::specs::Remarks::is_earlier))]
fn is_earlier(token: Token, other: Token) -> bool
    ensures { result ≡ is_earlier other token }
{
    token.start < other.start
}

/// How many of the tokens stand before another one.
fn count_earlier(all: &[Token], other: Token) -> usize
    ensures { result ≡ prefix_len (is_earlier other) all.now }
{
    all.iter()
        .take_while(|token| is_earlier(**token, other))
        .count()
}

/// The tokens from another one on.
fn from(other: Token, all: &[Token]) -> &[Token]
    ensures { result.now ≡ from other all.now }
{
    &all[count_earlier(all, other).min(all.len())..]
}

/// Whether an `if` is open in which one stands right behind an `else`.
fn has_else_if(before: &[Token], opener: Option<Token>) -> bool
    ensures { result ≡ has_else_if before.now opener }
{
    match opener {
        None => false,
        Some(opener) => is_same(IF, of_token(opener)) && has_pair(from(opener, before)),
    }
}

/// What is seen at a place.
#[tactic(auto, unfolding(crate::specs::Remarks::facts_at))]
fn facts_at(
    line: u32,
    before: &[Token],
    word: Option<Token>,
    behind: Option<Token>,
    opener: Option<Token>,
) -> Facts
    ensures { result ≡ facts_at line before.now word behind opener }
{
    let last = before.last().copied();
    Facts {
        word: kind_of(word),
        before: kind_of(last),
        is_touching: touch(last, word),
        is_on_line: line_of(line, last) == line,
        is_assigned: is_same(ASSIGN, kind_of(behind)),
        has_else_if: has_else_if(before, opener),
    }
}

/// Puts what the words at the place say.
#[tactic(auto, unfolding(crate::specs::Remarks::place_remark))]
fn add_place_remark(alloc: Global, said: &mut Text, sight: &Sight) -> Result<(), OutOfMemory>
    requires { said.old ≡ [] }
    ensures { OnOk result (said.new ≡
        place_remark sight.now.text.now sight.now.line sight.now.before.now sight.now.word
        sight.now.behind sight.now.found.now) }
{
    said.extend(foreign_remark(sight.text, sight.line, sight.before, sight.word).as_bytes())?;
    if !said.as_bytes().is_empty() {
        return Ok(());
    }
    let opener = last_open(alloc, sight.before)?;
    let facts = facts_at(sight.line, sight.before, sight.word, sight.behind, opener);
    let last = sight.before.last().copied();
    add_row_remark(said, sight.text, sight.word, last, sight.found, facts)
}

/// Puts what is said of a keyword in another case, else what the words say.
#[tactic(auto, unfolding(crate::specs::Remarks::later_remark))]
fn add_later_remark(alloc: Global, said: &mut Text, sight: &Sight) -> Result<(), OutOfMemory>
    requires { said.old ≡ [] }
    ensures { OnOk result (said.new ≡
        later_remark sight.now.text.now sight.now.line sight.now.before.now sight.now.word
        sight.now.behind sight.now.found.now) }
{
    add_case_remark(said, sight.text, sight.before.last().copied())?;
    if !said.as_bytes().is_empty() {
        return Ok(());
    }
    add_place_remark(alloc, said, sight)
}

/// Puts what is said of a name for a word, else what comes behind.
#[tactic(auto, unfolding(crate::specs::Remarks::word_remark))]
fn add_word_remark(alloc: Global, said: &mut Text, sight: &Sight) -> Result<(), OutOfMemory>
    requires { said.old ≡ [] }
    ensures { OnOk result (said.new ≡
        word_remark sight.now.text.now sight.now.line sight.now.before.now sight.now.word
        sight.now.behind sight.now.found.now) }
{
    add_nearest_remark(alloc, said, sight.text, sight.found, sight.word)?;
    if !said.as_bytes().is_empty() {
        return Ok(());
    }
    add_later_remark(alloc, said, sight)
}

/// Puts the first of what is said of the place.
#[tactic(auto, unfolding(crate::specs::Remarks::remark))]
fn add_remark(alloc: Global, said: &mut Text, sight: &Sight) -> Result<(), OutOfMemory>
    requires { said.old ≡ [] }
    ensures { OnOk result (said.new ≡
        remark sight.now.text.now sight.now.line sight.now.before.now sight.now.word
        sight.now.behind sight.now.found.now) }
{
    let last = sight.before.last().copied();
    add_comment_remark(said, sight.text, sight.line, sight.found, last)?;
    if !said.as_bytes().is_empty() {
        return Ok(());
    }
    add_word_remark(alloc, said, sight)
}

/// What is said of the place.
fn remark(alloc: Global, sight: &Sight) -> Result<Text, OutOfMemory>
    ensures { IfOk result (λ said. said ≡
        remark sight.now.text.now sight.now.line sight.now.before.now sight.now.word
        sight.now.behind sight.now.found.now) }
{
    let mut said = Text::new(alloc);
    add_remark(alloc, &mut said, sight)?;
    Ok(said)
}

/// Puts the note of what is said, if there is something.
fn add_note_of(message: &mut Text, said: &[u8]) -> Result<(), OutOfMemory>
    ensures { OnOk result (message.new ≡ message.old ++ note_of said.now) }
{
    if said.is_empty() {
        return Ok(());
    }
    add_note(message, &[said])
}

/// Puts the note of what is said of the place, if there is something.
#[tactic(auto, unfolding(crate::specs::Remarks::remark_note))]
pub(crate) fn add_remark_note(
    alloc: Global,
    message: &mut Text,
    sight: &Sight,
) -> Result<(), OutOfMemory>
    ensures { OnOk result (message.new ≡ message.old ++
        remark_note sight.now.text.now sight.now.line sight.now.before.now sight.now.word
        sight.now.behind sight.now.found.now) }
{
    let said = remark(alloc, sight)?;
    add_note_of(message, said.as_bytes())
}
