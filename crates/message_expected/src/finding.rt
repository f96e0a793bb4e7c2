//! The kinds that are expected.

ghost use Rattle.std.specs.Prelude.{◌++◌, ◌∷◌, [], ◌↔◌, IfOk, IsTrue, List, OnOk};
ghost use Rattle.message_expected.specs.Expected.{front, IsExpected, IsExpectedSet};
ghost use Rattle.message_expected.specs.Expected.{MayFollow, Picks};
ghost use Rattle.message_expected.specs.Kinds.{numbered, spelling as spelling_of};
ghost use Rattle.message_expected.specs.Leads.{HasWord, IsWord, Leads};
ghost use Rattle.message_expected.specs.Stack.{reached_of};
ghost use Rattle.message_expected.specs.declared.kinds.Kind.{Kind as SpecKind};
ghost use Rattle.message_expected.specs.declared.kinds.Kind.TheVariants as kind;

use crate::automaton::{Reached, goes_on, is_whole, read};
use crate::kinds::{KEYWORDS, Kind, SIGNS, spelling};
use crate::tokens::front;
use out_of_memory::OutOfMemory;
use std::alloc::Global;
use syntax::Token;

/// A text has at most this many bytes.
const LONGEST_TEXT: usize = 1_048_576;

/// Whether a word of the kind may stand behind the text, which leads there.
fn may_follow(text: &[u8], reached: &Reached, kind: Kind) -> bool
    requires leads { Leads text.now (reached_of reached.now) }
    requires word { HasWord kind }
    ensures { IsTrue result ↔ MayFollow text.now (spelling_of kind) }
{
    if spelling(kind).len() >= LONGEST_TEXT.saturating_sub(text.len()) {
        return false;
    }
    goes_on(reached, kind)
}

/// Whether `deadline` is expected behind the text, which leads there.
fn is_deadline_expected(text: &[u8], reached: &Reached) -> bool
    requires { Leads text.now (reached_of reached.now) }
    ensures { IsTrue result ↔ IsExpected text.now kind.Deadline }
{
    if may_follow(text, reached, Kind::Name) {
        return false;
    }
    may_follow(text, reached, Kind::Deadline)
}

/// Whether the kind is expected behind the text, which leads there.
fn is_expected(text: &[u8], reached: &Reached, kind: Kind) -> bool
    requires leads { Leads text.now (reached_of reached.now) }
    requires word { IsWord kind }
    ensures { IsTrue result ↔ IsExpected text.now kind }
{
    match kind {
        Kind::End => is_whole(reached),
        Kind::Deadline => is_deadline_expected(text, reached),
        _ => may_follow(text, reached, kind),
    }
}

/// Puts the kind to the others if it is expected behind the text.
fn add_expected(
    text: &[u8],
    reached: &Reached,
    kind: Kind,
    found: &mut Vec<Kind>,
) -> Result<(), OutOfMemory>
    requires leads { Leads text.now (reached_of reached.now) }
    requires word { IsWord kind }
    ensures { OnOk result ((all : List SpecKind) →
        Picks (IsExpected text.now) all found.old.items →
        Picks (IsExpected text.now) (all ++ kind ∷ []) found.new.items) }
{
    if is_expected(text, reached, kind) {
        found.push(kind)?;
    }
    Ok(())
}

/// Puts the keywords to the others that are expected behind the text.
fn add_keywords(text: &[u8], reached: &Reached, found: &mut Vec<Kind>) -> Result<(), OutOfMemory>
    requires { Leads text.now (reached_of reached.now) }
    ensures { OnOk result ((all : List SpecKind) →
        Picks (IsExpected text.now) all found.old.items →
        Picks (IsExpected text.now) (all ++ numbered kind.Keyword KEYWORDS) found.new.items) }
{
    for at in 0..KEYWORDS {
        add_expected(text, reached, Kind::Keyword { at }, found)?;
    }
    Ok(())
}

/// Puts the signs to the others that are expected behind the text.
fn add_signs(text: &[u8], reached: &Reached, found: &mut Vec<Kind>) -> Result<(), OutOfMemory>
    requires { Leads text.now (reached_of reached.now) }
    ensures { OnOk result ((all : List SpecKind) →
        Picks (IsExpected text.now) all found.old.items →
        Picks (IsExpected text.now) (all ++ numbered kind.Sign SIGNS) found.new.items) }
{
    for at in 0..SIGNS {
        add_expected(text, reached, Kind::Sign { at }, found)?;
    }
    Ok(())
}

/// The kinds of what may stand behind these tokens of the text, in the order of the kinds: the end
/// of the text, a name, a number, `deadline`, the keywords, the signs.
///
/// The tokens are the first ones of the text, those before the token at which the grammar's fault
/// stands, or all of them where it stands at the end.
pub fn expected(alloc: Global, text: &[u8], before: &[Token]) -> Result<Vec<Kind>, OutOfMemory>
    ensures { IfOk result (λ found. IsExpectedSet (front text.now before.now) found.items) }
{
    let text = front(text, before);
    let reached = read(alloc, text)?;
    let mut found = Vec::new(alloc);
    add_expected(text, &reached, Kind::End, &mut found)?;
    add_expected(text, &reached, Kind::Name, &mut found)?;
    add_expected(text, &reached, Kind::Number, &mut found)?;
    add_expected(text, &reached, Kind::Deadline, &mut found)?;
    add_keywords(text, &reached, &mut found)?;
    add_signs(text, &reached, &mut found)?;
    Ok(found)
}
