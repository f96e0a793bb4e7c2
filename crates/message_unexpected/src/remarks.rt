//! What can be done at a place.

ghost use Rattle.std.specs.Prelude.{◌≡◌, ◌+◌, ◌++◌, ◌∷◌, [], IfOk, OnOk, drop, find, map, option_map};
ghost use Rattle.std.specs.List.{prefix_len};
ghost use Rattle.std.specs.Str.{str_eq_ignore_ascii_case};
ghost use Rattle.syntax.specs.Spellings.{keywords};
ghost use Rattle.message_unexpected.specs.Remarks.{begins_comment, candidates, case_remark};
ghost use Rattle.message_unexpected.specs.Remarks.{comment_remark, cut_off, foreign_remark, in_its_case};
ghost use Rattle.message_unexpected.specs.Remarks.{is_cut_off, is_gap, is_lettered, near};
ghost use Rattle.message_unexpected.specs.Remarks.{nearest_remark};

use crate::foreign::word_note;
use crate::tokens::{first_on, line_of, word_of};
use message_expected::{KEYWORDS, Kind, has, is_same, kind_of, spelling};
use message_text::{add_number, nearest};
use out_of_memory::OutOfMemory;
use std::alloc::Global;
use syntax::{Token, keyword, keyword_spelling};
use syntax_tree::Text;

/// The remainder of a division.
const MOD: Kind = Kind::Keyword { at: keyword::MOD };

/// Whether the byte is a blank, a tab or a CR.
#[tactic(auto, unfolding(crate::specs::Remarks::is_gap))]
fn is_gap(byte: u8) -> bool
    ensures { result ≡ is_gap byte }
{
    byte == b' ' || byte == b'\t' || byte == b'\r'
}

/// How many blanks, tabs and CRs the bytes begin with.
fn gap_size(bytes: &[u8]) -> usize
    ensures { result ≡ prefix_len is_gap bytes.now }
{
    bytes.iter().take_while(|byte| is_gap(**byte)).count()
}

/// Whether the first of the bytes that is no gap begins a comment.
fn begins_comment(bytes: &[u8]) -> bool
    ensures { result ≡ begins_comment bytes.now }
{
    bytes[gap_size(bytes).min(bytes.len())..].starts_with(b"%")
}

/// The text behind a token.
fn behind(text: &[u8], token: Token) -> &[u8]
    ensures { result.now ≡ drop (token.start + token.len) text.now }
{
    let end = token.start as usize + token.len as usize;
    &text[end.min(text.len())..]
}

/// Whether a comment behind the token cut off the rest of its line, where `mod` is expected.
fn is_cut_off(text: &[u8], line: u32, found: &[Kind], before: Token) -> bool
    ensures { result ≡ is_cut_off text.now line found.now before }
{
    before.line < line && has(found, MOD) && begins_comment(behind(text, before))
}

/// Puts that a comment cut off the rest of a line.
fn add_cut_off(message: &mut Text, line: u32) -> Result<(), OutOfMemory>
    ensures { OnOk result (message.new ≡ message.old ++ cut_off line) }
{
    message.extend(b"`%` made the rest of line ")?;
    add_number(message, line as usize)?;
    message.extend(b" a comment; the remainder is `mod`")
}

/// Puts what is said of a comment behind the last token.
#[tactic(auto, unfolding(crate::specs::Remarks::comment_remark))]
pub(crate) fn add_comment_remark(
    message: &mut Text,
    text: &[u8],
    line: u32,
    found: &[Kind],
    before: Option<Token>,
) -> Result<(), OutOfMemory>
    ensures { OnOk result
        (message.new ≡ message.old ++ comment_remark text.now line found.now before) }
{
    match before {
        None => Ok(()),
        Some(before) => {
            if is_cut_off(text, line, found, before) {
                return add_cut_off(message, before.line);
            }
            Ok(())
        }
    }
}

/// Whether the kind is that of a word of letters.
fn is_lettered(kind: Kind) -> bool
    ensures { result ≡ is_lettered kind }
{
    match kind {
        Kind::Deadline | Kind::Keyword { .. } => true,
        _ => false,
    }
}

/// Puts the word of the kind to the others, if it is one of letters.
fn add_candidate(words: &mut Vec<&'static [u8]>, kind: Kind) -> Result<(), OutOfMemory>
    ensures { OnOk result (map (λ word. word.now) words.new.items ≡
        map (λ word. word.now) words.old.items ++ candidates (kind ∷ [])) }
{
    if is_lettered(kind) {
        words.push(spelling(kind))?;
    }
    Ok(())
}

/// The words of letters that are expected.
fn candidates(alloc: Global, found: &[Kind]) -> Result<Vec<&'static [u8]>, OutOfMemory>
    ensures { IfOk result (λ words. map (λ word. word.now) words.items ≡ candidates found.now) }
{
    let mut words = Vec::new(alloc);
    for index in 0..found.len() {
        add_candidate(&mut words, found[index])?;
    }
    Ok(words)
}

/// Puts the nearest of the words that are expected.
fn add_near(message: &mut Text, name: Option<&[u8]>) -> Result<(), OutOfMemory>
    ensures { OnOk result
        (message.new ≡ message.old ++ near (option_map (λ it. it.now) name.entry)) }
{
    match name {
        None => Ok(()),
        Some(name) => {
            message.extend(b"the nearest of these is `")?;
            message.extend(name)?;
            message.extend(b"`")
        }
    }
}

/// Puts what is said of a name for a word that is expected.
#[tactic(auto, unfolding(crate::specs::Remarks::nearest_remark))]
pub(crate) fn add_nearest_remark(
    alloc: Global,
    message: &mut Text,
    text: &[u8],
    found: &[Kind],
    word: Option<Token>,
) -> Result<(), OutOfMemory>
    ensures { OnOk result
        (message.new ≡ message.old ++ nearest_remark text.now found.now word) }
{
    if !is_same(Kind::Name, kind_of(word)) {
        return Ok(());
    }
    let words = candidates(alloc, found)?;
    let near = nearest(alloc, word_of(text, word), words.as_slice())?;
    add_near(message, near)
}

/// Whether the words are one but for the case of their letters.
fn is_alike(word: &[u8], keyword: &[u8]) -> bool
    ensures { result ≡ str_eq_ignore_ascii_case word.now keyword.now }
{
    word.eq_ignore_ascii_case(keyword)
}

/// The keyword that the word is but for the case of its letters.
fn in_other_case(word: &[u8]) -> Option<&'static [u8]>
    ensures { option_map (λ found. found.now) result ≡
        find (str_eq_ignore_ascii_case word.now) keywords }
{
    for at in 0..KEYWORDS {
        let keyword = keyword_spelling(at);
        if is_alike(word, keyword) {
            return Some(keyword);
        }
    }
    None
}

/// Puts how the language writes a keyword.
fn add_in_its_case(message: &mut Text, keyword: Option<&[u8]>) -> Result<(), OutOfMemory>
    ensures { OnOk result
        (message.new ≡ message.old ++ in_its_case (option_map (λ it. it.now) keyword.entry)) }
{
    match keyword {
        None => Ok(()),
        Some(keyword) => {
            message.extend(b"the language writes `")?;
            message.extend(keyword)?;
            message.extend(b"`")
        }
    }
}

/// Puts what is said of a name that is a keyword in another case.
#[tactic(auto, unfolding(crate::specs::Remarks::case_remark))]
pub(crate) fn add_case_remark(
    message: &mut Text,
    text: &[u8],
    before: Option<Token>,
) -> Result<(), OutOfMemory>
    ensures { OnOk result (message.new ≡ message.old ++ case_remark text.now before) }
{
    if !is_same(Kind::Name, kind_of(before)) {
        return Ok(());
    }
    add_in_its_case(message, in_other_case(word_of(text, before)))
}

/// What is said of the word at the place or before it, or of the first of their lines.
#[tactic(auto, unfolding(crate::specs::Remarks::foreign_remark))]
pub(crate) fn foreign_remark(
    text: &[u8],
    line: u32,
    before: &[Token],
    word: Option<Token>,
) -> &'static str
    ensures { result.now ≡ foreign_remark text.now line before.now word }
{
    let here = word_note(word_of(text, word));
    if !here.is_empty() {
        return here;
    }
    let last = before.last().copied();
    let there = word_note(word_of(text, last));
    if !there.is_empty() {
        return there;
    }
    let first = word_note(word_of(text, first_on(line, before)));
    if !first.is_empty() {
        return first;
    }
    word_note(word_of(text, first_on(line_of(line, last), before)))
}
