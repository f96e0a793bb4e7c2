//! The lexer.

ghost use Rattle.std.specs.Prelude.{◌≡◌, ◌+◌, ◌<◌, ◌≤◌, ◌^◌, ◌++◌, ◌∷◌, [], List as Listed, length, drop, ◌⊎◌, if◌then◌else◌, IfOk, IfErr, OnOk, IsErrOf, IsErrAnd, IsOkUnless};
ghost use Rattle.out_of_memory.specs.Refused.{refused};
ghost use Rattle.syntax.specs.declared.token.Token.{Token};
ghost use Rattle.syntax.specs.declared.fault.LexFault.{LexFault};
ghost use Rattle.syntax.specs.Faults.{Faulty};
ghost use Rattle.syntax.specs.Reading.{IsRead, fault_of};
ghost use Rattle.syntax.specs.Tokens.{is_line_feed, tokens, IsEnd, longest_text};

use crate::fault::LexFault;
use crate::front::{Cause, Front, read};
use crate::token::{Token, Tokens};
use std::alloc::Global;
use syntax_tree::{List, Place};

/// How many bytes a text has at most.
const LONGEST_TEXT: usize = 1_048_576;

/// A byte of a text, by its offset, with its line and its byte in that line.
#[derive(Clone, Copy)]
struct Spot {
    at: usize,
    line: u32,
    col: u32,
}

impl Spot {
    /// The spot past some bytes of the same line.
    fn past(self, len: usize) -> Spot
        requires at { self.at + len < 2 ^ 32 }
        requires col { self.col + len < 2 ^ 32 }
        ensures at { result.at ≡ self.at + len }
        ensures line { result.line ≡ self.line }
        ensures col { result.col ≡ self.col + len }
    {
        Spot {
            at: self.at + len,
            line: self.line,
            col: self.col + len as u32,
        }
    }

    /// The spot past a blank, which may end the line.
    fn past_blank(self, blank: u8) -> Spot
        requires at { self.at + 1 < 2 ^ 32 }
        requires line { self.line + 1 < 2 ^ 32 }
        requires col { self.col + 1 < 2 ^ 32 }
        ensures at { result.at ≡ self.at + 1 }
        ensures line { result.line ≡ (if is_line_feed blank then self.line + 1 else self.line) }
        ensures col { result.col ≡ (if is_line_feed blank then 1 else self.col + 1) }
    {
        if blank == b'\n' {
            Spot {
                at: self.at + 1,
                line: self.line + 1,
                col: 1,
            }
        } else {
            self.past(1)
        }
    }
}

/// The fault that the cause makes where it stands.
fn fault(cause: Cause, spot: Spot) -> LexFault
    ensures { result ≡ fault_of cause spot.line spot.col }
{
    let Spot { line, col, .. } = spot;
    match cause {
        Cause::Byte => LexFault::Byte { line, col },
        Cause::Literal => LexFault::Literal { line, col },
        Cause::Ident => LexFault::Ident { line, col },
    }
}

/// The bytes of the text from an offset on.
fn bytes_from(text: &[u8], at: usize) -> &[u8]
    requires { at ≤ length text.now }
    ensures { result.now ≡ drop at text.now }
{
    &text[at..]
}

/// Puts the token at the end of the list.
fn add(toks: &mut List<Token>, token: Token) -> Result<(), LexFault>
    ensures ok { OnOk result (toks.new ≡ toks.old ++ token ∷ []) }
    ensures err { IfErr result (λ e. e ≡ LexFault.Memory refused) }
{
    match toks.push(token) {
        Ok(()) => Ok(()),
        Err(error) => Err(LexFault::Memory(error)),
    }
}

/// Reads one more piece of the text, adds it to the tokens if it is one, and gives the spot past
/// it.
fn step(text: &[u8], spot: Spot, toks: &mut List<Token>) -> Result<Spot, LexFault>
    requires short { length text.now ≤ longest_text }
    requires more { spot.at < length text.now }
    requires read { IsRead text.now spot toks.old }
    ensures read { IfOk result (λ next. IsRead text.now next toks.new) }
    ensures further { IfOk result (λ next. spot.at < next.at) }
    ensures err { IfErr result (λ e. (e ≡ LexFault.Memory refused) ⊎ Faulty text.now e) }
{
    let rest = bytes_from(text, spot.at);
    match read(rest) {
        Ok(Front::Blank) => Ok(spot.past_blank(rest[0])),
        Ok(Front::Comment { len }) => Ok(spot.past(len)),
        Ok(Front::Token { kind, len }) => {
            let token = Token {
                kind,
                start: spot.at as u32,
                len: len as u32,
                line: spot.line,
                col: spot.col,
            };
            add(toks, token)?;
            Ok(spot.past(len))
        }
        Err(cause) => Err(fault(cause, spot)),
    }
}

/// The tokens of the text, in one pass over its bytes.
///
/// A text is blanks, comments and tokens in turn, each token by longest match, and has at most one
/// list of tokens. `Ok` holds exactly that list, with the place one past the last byte. A text with
/// no such list has one fault, which is the answer:
/// - `Long` where it has more than 1,048,576 bytes, which comes before all others;
/// - `Byte`, `Literal` or `Ident` where the first piece stands that is none: a byte that begins no
///   blank, no comment and no token, a literal above 2147483647, an identifier of more than 63
///   bytes.
///
/// `Memory` may stand in place of any answer but `Long`, where there is no room for the tokens.
pub fn lex(alloc: Global, text: &[u8]) -> Result<Tokens, LexFault>
    ensures list { IfOk result (λ toks. tokens text.now toks.list) }
    ensures end { IfOk result (λ toks. IsEnd text.now toks.end) }
    ensures cause { IfErr result (λ fault. (fault ≡ LexFault.Memory refused) ⊎
        Faulty text.now fault) }
    ensures long { longest_text < length text.now → IsErrOf result LexFault.Long }
    ensures only { (toks : Listed Token) → tokens text.now toks →
        IsOkUnless result (LexFault.Memory refused) }
    ensures only_fault { (fault : LexFault) → Faulty text.now fault →
        IsErrAnd result (λ given. (given ≡ fault) ⊎ (given ≡ LexFault.Memory refused)) }
{
    if text.len() > LONGEST_TEXT {
        return Err(LexFault::Long);
    }
    let mut list = List::new(alloc);
    let mut spot = Spot {
        at: 0,
        line: 1,
        col: 1,
    };
    while spot.at < text.len() {
        spot = step(text, spot, &mut list)?;
    }
    let end = Place {
        line: spot.line,
        col: spot.col,
    };
    Ok(Tokens::new(list, end))
}
