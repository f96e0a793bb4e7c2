//! The tokens before a place, and the bytes of one.

ghost use Rattle.std.specs.Prelude.{◌≡◌};
ghost use Rattle.std.specs.List.{prefix_len};
ghost use Rattle.syntax.specs.Tokens.{bytes_of};
ghost use Rattle.message_expected.specs.Expected.{before, front, is_elsewhere};

use syntax::Token;
use syntax_tree::Place;

/// Whether the token stands at another place.
#[tactic(auto, unfolding(crate::specs::Expected::is_elsewhere))]
fn is_elsewhere(token: Token, place: Place) -> bool
    ensures { result ≡ is_elsewhere place token }
{
    token.line != place.line || token.col != place.col
}

/// How many tokens stand before the first one at the place.
fn count_before(all: &[Token], place: Place) -> usize
    ensures { result ≡ prefix_len (is_elsewhere place) all.now }
{
    all.iter()
        .take_while(|token| is_elsewhere(**token, place))
        .count()
}

/// The tokens before the first one that stands at the place; all of them where none does.
pub fn tokens_before(all: &[Token], place: Place) -> &[Token]
    ensures { result.now ≡ before all.now place }
{
    &all[..count_before(all, place).min(all.len())]
}

/// The text up to the end of the last of these tokens.
pub(crate) fn front<'a>(text: &'a [u8], before: &[Token]) -> &'a [u8]
    ensures { result.now ≡ front text.now before.now }
{
    match before.last() {
        None => &[],
        Some(token) => {
            let end = token.start as usize + token.len as usize;
            &text[..end.min(text.len())]
        }
    }
}

/// The bytes of the text that are the token.
pub fn bytes_of(text: &[u8], token: Token) -> &[u8]
    ensures { result.now ≡ bytes_of text.now token }
{
    let start = (token.start as usize).min(text.len());
    let behind = &text[start..];
    let len = (token.len as usize).min(behind.len());
    &behind[..len]
}
