//! The notes at a place where a text goes on with no word of the grammar.

ghost use Rattle.std.specs.Prelude.{◌≡◌, ◌≢◌, ◌++◌, List, OnOk, slice_get};
ghost use Rattle.out_of_memory.specs.Refused.{refused};
ghost use Rattle.syntax.specs.declared.token.Token.{Token as SpecToken};
ghost use Rattle.syntax.specs.Tokens.{tokens as are_tokens};
ghost use Rattle.message_expected.specs.Expected.{IsExpectedSet, front};
ghost use Rattle.message_expected.specs.declared.kinds.Kind.{Kind as SpecKind};
ghost use Rattle.message_unexpected.specs.Unexpected.{Notes, notes_behind};

use crate::parts::add_open_note;
use crate::sight::{Sight, add_remark_note};
use crate::tokens::add_before;
use message_expected::{Kind, add_expected_note, expected, tokens_before};
use out_of_memory::OutOfMemory;
use std::alloc::Global;
use syntax::{LexFault, Token, lex};
use syntax_tree::{Place, Text};

/// The token at this place of the list, from 0.
fn token_at(all: &[Token], at: usize) -> Option<Token>
    ensures { result ≡ slice_get all.now at }
{
    all.get(at).copied()
}

/// That nothing is put for a text of this fault, which has no tokens.
fn put_nothing(fault: LexFault) -> Result<(), OutOfMemory>
    ensures { OnOk result (fault ≢ LexFault.Memory refused) }
{
    match fault {
        LexFault::Memory(error) => Err(error),
        _ => Ok(()),
    }
}

/// Puts the notes behind the first tokens, at a place of this line, where these kinds are expected.
fn add_notes(
    alloc: Global,
    message: &mut Text,
    text: &[u8],
    line: u32,
    all: &[Token],
    first: &[Token],
    found: &[Kind],
) -> Result<(), OutOfMemory>
    ensures { OnOk result
        (message.new ≡ message.old ++ notes_behind text.now line all.now first.now found.now) }
{
    let word = token_at(all, first.len());
    let behind = token_at(all, first.len() + 1);
    add_expected_note(alloc, message, text, first, found)?;
    add_before(message, text, line, first)?;
    add_open_note(alloc, message, text, first, word, found)?;
    let sight = Sight {
        text,
        line,
        before: first,
        word,
        behind,
        found,
    };
    add_remark_note(alloc, message, &sight)
}

/// Puts the notes behind the first tokens, at a place of this line.
fn add_notes_behind(
    alloc: Global,
    message: &mut Text,
    text: &[u8],
    line: u32,
    all: &[Token],
    first: &[Token],
) -> Result<(), OutOfMemory>
    ensures { OnOk result ((found : List SpecKind) × IsExpectedSet (front text.now first.now) found
        × (message.new ≡ message.old ++ notes_behind text.now line all.now first.now found)) }
{
    let found = expected(alloc, text, first)?;
    add_notes(alloc, message, text, line, all, first, found.as_slice())
}

/// Puts the notes at a place of a text where it goes on with no word of the grammar, or ends: what
/// may stand there, what is still open, and what can be done.
///
/// Nothing is put where the text has no tokens.
#[tactic(auto, unfolding(crate::specs::Unexpected::unexpected_notes))]
pub fn add_unexpected_notes(
    alloc: Global,
    message: &mut Text,
    text: &[u8],
    place: Place,
) -> Result<(), OutOfMemory>
    ensures { OnOk result ((toks : List SpecToken) → are_tokens text.now toks →
        Notes text.now toks place message.old message.new) }
{
    match lex(alloc, text) {
        Ok(tokens) => {
            let all = tokens.as_slice();
            let first = tokens_before(all, place);
            add_notes_behind(alloc, message, text, place.line, all, first)
        }
        Err(fault) => put_nothing(fault),
    }
}
