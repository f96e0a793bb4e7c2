//! The tokens that are left, and the reading of one of them.

ghost use Rattle.std.specs.Prelude.{◌≡◌, length, suc, IfOk, IfErr, IsTrue, ◌↔◌};
ghost use Rattle.syntax.specs.Tokens.{bytes_of as bytes_of_token};
ghost use Rattle.syntax.specs.Words.{Word, keyword as keyword_word, sign as sign_word, DEADLINE};
ghost use Rattle.syntax_reading.specs.ExprReading as reading;
ghost use Rattle.syntax_parser.specs.Reads.{Reads, kind_at};

use crate::fault::{Refusal, made};
use std::alloc::Global;
use std::marker::Model;
use syntax::{Token, TokenKind};
use syntax_tree::{Name, Place};

/// The tokens of a text that are left. Contracts see them as words with places.
#[derive(Drop)]
pub struct Parser<'a> {
    pub(crate) text: &'a [u8],
    pub(crate) toks: &'a [Token],
}

impl<'a> Model for Parser<'a> {
    ghost use Rattle.std.specs.Prelude.{List};
    ghost use Rattle.syntax_tree.specs.declared.place.Place.{Place};
    ghost use Rattle.syntax.specs.Words.{Tok, toks_of};

    ghost Value = { List (Tok Place) };

    ghost view = { λ p. toks_of p.text.now p.toks.now };
}

fn place_of(token: &Token) -> Place
    ensures line { result.line ≡ token.now.line }
    ensures col { result.col ≡ token.now.col }
{
    Place {
        line: token.line,
        col: token.col,
    }
}

/// The bytes of the text that are the token.
fn bytes_of<'a>(text: &'a [u8], token: &Token) -> &'a [u8]
    ensures { result.now ≡ bytes_of_token text.now token.now }
{
    let start = (token.start as usize).min(text.len());
    let len = (token.len as usize).min(text.len() - start);
    &text[start..start + len]
}

impl Parser<'_> {
    pub(crate) fn left(&self) -> usize
        ensures { result ≡ length self.now }
    {
        self.toks.len()
    }

    pub(crate) fn kind(&self) -> Option<TokenKind>
        ensures { result ≡ kind_at self.now }
    {
        match self.toks.first() {
            Some(token) => Some(token.kind),
            None => None,
        }
    }

    pub(crate) fn is_keyword(&self, at: u8) -> bool
        ensures { result ≡ reading.is_at (keyword_word at) self.now }
    {
        match self.kind() {
            Some(TokenKind::Keyword { at: found }) => found == at,
            _ => false,
        }
    }

    pub(crate) fn is_sign(&self, at: u8) -> bool
        ensures { result ≡ reading.is_at (sign_word at) self.now }
    {
        match self.kind() {
            Some(TokenKind::Sign { at: found }) => found == at,
            _ => false,
        }
    }

    pub(crate) fn is_name(&self) -> bool
        ensures { result ≡ reading.is_name self.now }
    {
        match self.kind() {
            Some(TokenKind::Ident) => true,
            _ => false,
        }
    }

    pub(crate) fn is_literal(&self) -> bool
        ensures { result ≡ reading.is_literal self.now }
    {
        match self.kind() {
            Some(TokenKind::Literal { .. }) => true,
            _ => false,
        }
    }

    /// Passes a token.
    pub(crate) fn next(&mut self)
        ensures { self.new ≡ reading.next self.old }
    {
        if let Some((_, others)) = self.toks.split_first() {
            self.toks = others;
        }
    }

    /// Passes the next token, where it is the one that is looked for, and gives its place.
    #[tactic(auto, unfolding(syntax_reading::specs::ExprReading::expect))]
    fn pass(&mut self, matches: bool) -> Result<Place, Refusal>
        ensures { (word : Word) → matches ≡ reading.is_at word self.old →
            Reads (λ p. p) (reading.expect word self.old) result self.new }
    {
        if let Some((token, others)) = self.toks.split_first() {
            if matches {
                self.toks = others;
                return Ok(place_of(token));
            }
        }
        Err(Refusal::Syntax { left: self.left() })
    }

    /// Passes this keyword, and gives its place.
    pub(crate) fn expect_keyword(&mut self, at: u8) -> Result<Place, Refusal>
        ensures { Reads (λ p. p) (reading.expect (keyword_word at) self.old) result self.new }
    {
        let matches = self.is_keyword(at);
        self.pass(matches)
    }

    /// Passes this sign, and gives its place.
    pub(crate) fn expect_sign(&mut self, at: u8) -> Result<Place, Refusal>
        ensures { Reads (λ p. p) (reading.expect (sign_word at) self.old) result self.new }
    {
        let matches = self.is_sign(at);
        self.pass(matches)
    }

    /// Whether the name `deadline` is next, which begins a deadline where one may stand.
    pub(crate) fn is_deadline(&self) -> bool
        ensures { result ≡ reading.is_at DEADLINE self.now }
    {
        match self.toks.first() {
            Some(token) => match token.kind {
                TokenKind::Ident => bytes_of(self.text, token) == b"deadline".as_slice(),
                _ => false,
            },
            None => false,
        }
    }

    /// Passes the name `deadline`, and gives its place.
    pub(crate) fn expect_deadline(&mut self) -> Result<Place, Refusal>
        ensures { Reads (λ p. p) (reading.expect DEADLINE self.old) result self.new }
    {
        let matches = self.is_deadline();
        self.pass(matches)
    }

    /// Passes a name, and gives it with its place.
    #[tactic(auto, unfolding(syntax_reading::specs::ExprReading::name))]
    pub(crate) fn name(&mut self, alloc: Global) -> Result<(Name, Place), Refusal>
        ensures { Reads (λ n. n) (reading.name self.old) result self.new }
    {
        let matches = self.is_name();
        if let Some((token, others)) = self.toks.split_first() {
            if matches {
                let name = made!(Name::new(alloc, bytes_of(self.text, token)));
                self.toks = others;
                return Ok((name, place_of(token)));
            }
        }
        Err(Refusal::Syntax { left: self.left() })
    }

    /// Passes a literal, and gives its value with its place.
    #[tactic(auto, unfolding(syntax_reading::specs::ExprReading::numeral))]
    pub(crate) fn numeral(&mut self) -> Result<(u32, Place), Refusal>
        ensures { Reads (λ n. n) (reading.numeral self.old) result self.new }
    {
        if let Some((token, others)) = self.toks.split_first() {
            if let TokenKind::Literal { value } = token.kind {
                self.toks = others;
                return Ok((value, place_of(token)));
            }
        }
        Err(Refusal::Syntax { left: self.left() })
    }

    /// How many levels are left inside the next token, which opens one.
    pub(crate) fn deeper(&self, depth: usize) -> Result<usize, Refusal>
        ensures ok { IfOk result (λ d. depth ≡ suc d) }
        ensures err { IfErr result (λ e. (e ≡ Refusal.Nesting (length self.now)) × (depth ≡ 0)) }
    {
        if depth == 0 {
            return Err(Refusal::Nesting { left: self.left() });
        }
        Ok(depth - 1)
    }
}
