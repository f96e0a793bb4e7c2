//! How a token is shown, and which tokens stand on a line.

ghost use Rattle.std.specs.Prelude.{◌≡◌, ◌++◌, OnOk};
ghost use Rattle.message_expected.specs.Expected.{last};
ghost use Rattle.message_unexpected.specs.Parts.{show_before, show_token};
ghost use Rattle.message_unexpected.specs.Remarks.{first_on, line_of};
ghost use Rattle.message_unexpected.specs.Rows.{word_of};

use message_expected::bytes_of;
use message_text::add_show;
use out_of_memory::OutOfMemory;
use syntax::Token;
use syntax_tree::Text;

/// Puts the line of the token, with carets below it.
pub(crate) fn add_token(message: &mut Text, text: &[u8], token: Token) -> Result<(), OutOfMemory>
    ensures { OnOk result (message.new ≡ message.old ++ show_token text.now token) }
{
    add_show(
        message,
        text,
        token.line as usize,
        token.col as usize,
        token.len as usize,
    )
}

/// Puts the line of the last of these tokens, where it stands before this one.
pub(crate) fn add_before(
    message: &mut Text,
    text: &[u8],
    line: u32,
    before: &[Token],
) -> Result<(), OutOfMemory>
    ensures { OnOk result
        (message.new ≡ message.old ++ show_before text.now line (last before.now)) }
{
    match before.last() {
        None => Ok(()),
        Some(token) => {
            if token.line < line {
                return add_token(message, text, *token);
            }
            Ok(())
        }
    }
}

/// The bytes of a token, if there is one.
pub(crate) fn word_of(text: &[u8], token: Option<Token>) -> &[u8]
    ensures { result.now ≡ word_of text.now token }
{
    match token {
        None => &[],
        Some(token) => bytes_of(text, token),
    }
}

/// The first of the tokens on a line.
pub(crate) fn first_on(line: u32, all: &[Token]) -> Option<Token>
    ensures { result ≡ first_on line all.now }
{
    all.iter().copied().find(|token| token.line == line)
}

/// The line of a token, or this line where there is none.
pub(crate) fn line_of(line: u32, token: Option<Token>) -> u32
    ensures { result ≡ line_of line token }
{
    match token {
        None => line,
        Some(token) => token.line,
    }
}
