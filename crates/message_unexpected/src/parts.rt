//! What is still open behind some tokens.

ghost use Rattle.std.specs.Prelude.{◌≡◌, ◌++◌, IfOk, OnOk};
ghost use Rattle.message_expected.specs.Expected.{last};
ghost use Rattle.message_expected.specs.Kinds.{has, kind_of as kind_of_word};
ghost use Rattle.message_unexpected.specs.Parts.{closer, enders as all_enders, is_told, left_brackets};
ghost use Rattle.message_unexpected.specs.Parts.{name_behind, next, note_of_part, open_note};
ghost use Rattle.message_unexpected.specs.Parts.{open_parts, openers, part_note, part_sentence, right_brackets, turn};

use crate::tokens::add_token;
use message_expected::{Kind, bytes_of, has, is_same, kind_of, of_token};
use message_text::add_note;
use out_of_memory::OutOfMemory;
use std::alloc::Global;
use syntax::{Token, keyword, sign};
use syntax_tree::Text;

/// The words that open a part of a program.
const OPENERS: [Kind; 9] = [
    Kind::Keyword {
        at: keyword::PROGRAM,
    },
    Kind::Keyword {
        at: keyword::MONITOR,
    },
    Kind::Keyword {
        at: keyword::PROCESS,
    },
    Kind::Keyword {
        at: keyword::PROCEDURE,
    },
    Kind::Keyword {
        at: keyword::FUNCTION,
    },
    Kind::Keyword { at: keyword::IF },
    Kind::Keyword { at: keyword::FOR },
    Kind::Sign {
        at: sign::LEFT_PAREN,
    },
    Kind::Sign {
        at: sign::LEFT_BRACKET,
    },
];

/// The brackets that open a part.
const LEFT_BRACKETS: [Kind; 2] = [
    Kind::Sign {
        at: sign::LEFT_PAREN,
    },
    Kind::Sign {
        at: sign::LEFT_BRACKET,
    },
];

/// The brackets that close a part.
const RIGHT_BRACKETS: [Kind; 2] = [
    Kind::Sign {
        at: sign::RIGHT_PAREN,
    },
    Kind::Sign {
        at: sign::RIGHT_BRACKET,
    },
];

/// Words before which an `end` may be missing.
const ENDERS: [Kind; 17] = [
    Kind::End,
    Kind::Keyword {
        at: keyword::PROGRAM,
    },
    Kind::Keyword { at: keyword::END },
    Kind::Keyword { at: keyword::CONST },
    Kind::Keyword {
        at: keyword::DEVICE,
    },
    Kind::Keyword { at: keyword::EVENT },
    Kind::Keyword {
        at: keyword::MONITOR,
    },
    Kind::Keyword {
        at: keyword::CONDITION,
    },
    Kind::Keyword { at: keyword::ENTRY },
    Kind::Keyword {
        at: keyword::PROCEDURE,
    },
    Kind::Keyword {
        at: keyword::FUNCTION,
    },
    Kind::Keyword {
        at: keyword::RETURN,
    },
    Kind::Keyword {
        at: keyword::PROCESS,
    },
    Kind::Keyword { at: keyword::VAR },
    Kind::Keyword { at: keyword::BEGIN },
    Kind::Keyword {
        at: keyword::HANDLER,
    },
    Kind::Keyword { at: keyword::ELSE },
];

/// The `end` of a part.
const END: Kind = Kind::Keyword { at: keyword::END };

/// The word that opens a conditional statement.
const IF: Kind = Kind::Keyword { at: keyword::IF };

/// The word that opens a loop.
const FOR: Kind = Kind::Keyword { at: keyword::FOR };

/// The bracket that opens an expression, arguments or parameters.
const PAREN: Kind = Kind::Sign {
    at: sign::LEFT_PAREN,
};

/// The bracket that opens an index.
const BRACKET: Kind = Kind::Sign {
    at: sign::LEFT_BRACKET,
};

/// Whether the word opens a part.
fn opens(kind: Kind) -> bool
    ensures { result ≡ has openers kind }
{
    has(&OPENERS, kind)
}

/// Whether the word is a bracket that opens a part.
fn is_left_bracket(kind: Kind) -> bool
    ensures { result ≡ has left_brackets kind }
{
    has(&LEFT_BRACKETS, kind)
}

/// Whether the word is a bracket that closes a part.
fn is_right_bracket(kind: Kind) -> bool
    ensures { result ≡ has right_brackets kind }
{
    has(&RIGHT_BRACKETS, kind)
}

/// Whether an `end` may be missing before the word.
fn is_ender(kind: Kind) -> bool
    ensures { result ≡ has all_enders kind }
{
    has(&ENDERS, kind)
}

/// Notes what the token opens or closes.
#[tactic(auto, unfolding(crate::specs::Parts::turn))]
fn turn(opened: &mut Vec<Token>, is_behind_end: bool, token: Token) -> Result<(), OutOfMemory>
    ensures { OnOk result (opened.new.items ≡ turn is_behind_end token opened.old.items) }
{
    let kind = of_token(token);
    if is_behind_end || is_right_bracket(kind) {
        let _closed = opened.pop();
        return Ok(());
    }
    if opens(kind) {
        opened.push(token)?;
    }
    Ok(())
}

/// The tokens that opened what is open behind these, in their order.
fn open_parts(alloc: Global, before: &[Token]) -> Result<Vec<Token>, OutOfMemory>
    ensures { IfOk result (λ opened. opened.items ≡ open_parts before.now) }
{
    let mut opened = Vec::new(alloc);
    let mut is_behind_end = false;
    for index in 0..before.len() {
        let token = before[index];
        turn(&mut opened, is_behind_end, token)?;
        is_behind_end = is_same(END, of_token(token));
    }
    Ok(opened)
}

/// The token that opened the last part that is open behind these; none where none is open.
pub(crate) fn last_open(alloc: Global, before: &[Token]) -> Result<Option<Token>, OutOfMemory>
    ensures { IfOk result (λ opener. opener ≡ last (open_parts before.now)) }
{
    let opened = open_parts(alloc, before)?;
    Ok(opened.last().copied())
}

/// Whether it is told that a part is open, where these kinds stand before and at a place.
fn is_told(part: Kind, before: Kind, word: Kind, found: &[Kind]) -> bool
    ensures { result ≡ is_told part before word found.now }
{
    is_left_bracket(part) || is_same(END, before) || has(found, END) && is_ender(word)
}

/// The first of the tokens that stands behind another one.
fn next(before: &[Token], opener: Token) -> Option<Token>
    ensures { result ≡ next before.now opener }
{
    before
        .iter()
        .copied()
        .find(|token| opener.start < token.start)
}

/// Puts the name behind the word that opens a part.
fn add_name(message: &mut Text, text: &[u8], token: Option<Token>) -> Result<(), OutOfMemory>
    ensures { OnOk result (message.new ≡ message.old ++ name_behind text.now token) }
{
    match token {
        None => Ok(()),
        Some(token) => {
            message.extend(b" ")?;
            message.extend(bytes_of(text, token))
        }
    }
}

/// Puts what closes a part.
#[tactic(auto, unfolding(crate::specs::Parts::closer))]
fn add_closer(
    message: &mut Text,
    text: &[u8],
    before: &[Token],
    opener: Token,
) -> Result<(), OutOfMemory>
    ensures { OnOk result (message.new ≡ message.old ++ closer text.now before.now opener) }
{
    let kind = of_token(opener);
    if is_same(PAREN, kind) {
        return message.extend(b")");
    }
    if is_same(BRACKET, kind) {
        return message.extend(b"]");
    }
    if is_same(IF, kind) {
        return message.extend(b"end if");
    }
    if is_same(FOR, kind) {
        return message.extend(b"end for");
    }
    message.extend(b"end")?;
    add_name(message, text, next(before, opener))
}

/// Puts that a part is open, and what closes it.
fn add_part_sentence(
    message: &mut Text,
    text: &[u8],
    before: &[Token],
    opener: Token,
) -> Result<(), OutOfMemory>
    ensures { OnOk result
        (message.new ≡ message.old ++ part_sentence text.now before.now opener) }
{
    message.extend(b"still open, up to `")?;
    add_closer(message, text, before, opener)?;
    message.extend(b"`:")
}

/// Puts the note of a part that is open.
fn add_part(
    alloc: Global,
    message: &mut Text,
    text: &[u8],
    before: &[Token],
    opener: Token,
) -> Result<(), OutOfMemory>
    ensures { OnOk result (message.new ≡ message.old ++ part_note text.now before.now opener) }
{
    let mut told = Text::new(alloc);
    add_part_sentence(&mut told, text, before, opener)?;
    add_note(message, &[told.as_bytes()])?;
    add_token(message, text, opener)
}

/// Puts the note of the last part that is open, if there is one.
fn add_part_note(
    alloc: Global,
    message: &mut Text,
    text: &[u8],
    before: &[Token],
    word: Kind,
    found: &[Kind],
    opener: Option<Token>,
) -> Result<(), OutOfMemory>
    ensures { OnOk result (message.new ≡
        message.old ++ note_of_part text.now before.now word found.now opener) }
{
    match opener {
        None => Ok(()),
        Some(opener) => {
            let last = kind_of(before.last().copied());
            if is_told(of_token(opener), last, word, found) {
                return add_part(alloc, message, text, before, opener);
            }
            Ok(())
        }
    }
}

/// Puts the note of what is still open behind these tokens of the text, where this word stands next,
/// or none at the end of the text, and these kinds are expected.
#[tactic(auto, unfolding(crate::specs::Parts::open_note))]
pub fn add_open_note(
    alloc: Global,
    message: &mut Text,
    text: &[u8],
    before: &[Token],
    word: Option<Token>,
    found: &[Kind],
) -> Result<(), OutOfMemory>
    ensures { OnOk result (message.new ≡
        message.old ++ open_note text.now before.now (kind_of_word word) found.now) }
{
    let opener = last_open(alloc, before)?;
    add_part_note(alloc, message, text, before, kind_of(word), found, opener)
}
