//! The kinds of what may stand at a place.

ghost use Rattle.std.specs.Prelude.{◌≡◌, ◌++◌, OnOk, []};
ghost use Rattle.std.specs.List.{slice_index_or};
ghost use Rattle.syntax.specs.Spellings.{keywords, signs};
ghost use Rattle.message_expected.specs.Kinds.{has, kind_of, of_token, same, spelling, told};

use message_text::add_quoted;
use out_of_memory::OutOfMemory;
use syntax::{Token, TokenKind, keyword_spelling, sign_spelling};
use syntax_tree::Text;

/// How many keywords there are.
pub const KEYWORDS: u8 = 51;

/// How many signs there are.
pub(crate) const SIGNS: u8 = 18;

/// A kind of what may stand at a place of a text.
#[derive(Clone, Copy, Debug)]
pub enum Kind {
    /// The end of the text.
    End,
    /// A name.
    Name,
    /// A number.
    Number,
    /// The word `deadline`, where no other name may stand.
    Deadline,
    /// The keyword at this place of the list of keywords, from 0.
    Keyword { at: u8 },
    /// The sign at this place of the list of signs, from 0.
    Sign { at: u8 },
}

/// The bytes of a keyword; none where there is no such keyword.
fn keyword_bytes(at: u8) -> &'static [u8]
    ensures { result.now ≡ slice_index_or keywords at [] }
{
    if at < KEYWORDS {
        keyword_spelling(at)
    } else {
        &[]
    }
}

/// The bytes of a sign; none where there is no such sign.
fn sign_bytes(at: u8) -> &'static [u8]
    ensures { result.now ≡ slice_index_or signs at [] }
{
    if at < SIGNS { sign_spelling(at) } else { &[] }
}

/// The bytes of a word of the kind; none for the end.
pub fn spelling(kind: Kind) -> &'static [u8]
    ensures { result.now ≡ spelling kind }
{
    match kind {
        Kind::End => &[],
        Kind::Name => b"a",
        Kind::Number => b"1",
        Kind::Deadline => b"deadline",
        Kind::Keyword { at } => keyword_bytes(at),
        Kind::Sign { at } => sign_bytes(at),
    }
}

/// Puts what the kind is called.
pub(crate) fn add_told(text: &mut Text, kind: Kind) -> Result<(), OutOfMemory>
    ensures { OnOk result (text.new ≡ text.old ++ told kind) }
{
    match kind {
        Kind::End => text.extend(b"the end of the text"),
        Kind::Name => text.extend(b"a name"),
        Kind::Number => text.extend(b"a number"),
        Kind::Deadline => add_quoted(text, b"deadline"),
        Kind::Keyword { at } => add_quoted(text, keyword_bytes(at)),
        Kind::Sign { at } => add_quoted(text, sign_bytes(at)),
    }
}

/// Whether the kinds are one.
pub fn is_same(kind: Kind, other: Kind) -> bool
    ensures { result ≡ same kind other }
{
    match (kind, other) {
        (Kind::End, Kind::End)
        | (Kind::Name, Kind::Name)
        | (Kind::Number, Kind::Number)
        | (Kind::Deadline, Kind::Deadline) => true,
        (Kind::Keyword { at }, Kind::Keyword { at: other }) => at == other,
        (Kind::Sign { at }, Kind::Sign { at: other }) => at == other,
        _ => false,
    }
}

/// Whether the kind is among these.
pub fn has(found: &[Kind], kind: Kind) -> bool
    ensures { result ≡ has found.now kind }
{
    found.iter().any(|other| is_same(kind, *other))
}

/// The kind of a token.
pub fn of_token(token: Token) -> Kind
    ensures { result ≡ of_token token.kind }
{
    match token.kind {
        TokenKind::Ident => Kind::Name,
        TokenKind::Keyword { at } => Kind::Keyword { at },
        TokenKind::Literal { .. } => Kind::Number,
        TokenKind::Sign { at } => Kind::Sign { at },
    }
}

/// The kind of a token, or of the end where there is none.
pub fn kind_of(token: Option<Token>) -> Kind
    ensures { result ≡ kind_of token }
{
    match token {
        None => Kind::End,
        Some(token) => of_token(token),
    }
}
