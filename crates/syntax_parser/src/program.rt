//! Reading a whole text.

ghost use Rattle.std.specs.Prelude.{◌≡◌, List, ◌∷◌, ◌++◌, length, ◌⊎◌, IfOk, IfErr, MatchResult};
ghost use Rattle.out_of_memory.specs.Refused.{refused};
ghost use Rattle.syntax_tree.specs.Placed.{placed, Prog as SpecProg};
ghost use Rattle.syntax_tree.specs.declared.place.Place.{Place as SpecPlace};
ghost use Rattle.syntax.specs.declared.token.Token.{Token as SpecToken};
ghost use Rattle.syntax.specs.Words.{toks_of};
ghost use Rattle.syntax.specs.Grammar.{MOST_LEVELS, tree};
ghost use Rattle.syntax_reading.specs.Reading as reading;
ghost use Rattle.syntax_parser.specs.Reads.{Gives};
ghost use Rattle.syntax_parser.specs.Faults.{place, IsPlaceIn, StandsIn, OpensAt, StopsAt};

use crate::fault::{Refusal, SyntaxFault, tri};
use crate::parser::Parser;
use std::alloc::Global;
use syntax::{Token, Tokens};
use syntax_tree::{Place, Program};

/// The program that all the tokens are.
#[tactic(auto, unfolding(syntax_reading::specs::Reading::whole))]
fn read(alloc: Global, text: &[u8], toks: &[Token]) -> Result<Program, Refusal>
    ensures { Gives placed (reading.whole MOST_LEVELS (toks_of text.now toks.now)) result }
{
    let mut parser = Parser { text, toks };
    let prog = tri!(parser.prog(alloc));
    if parser.left() == 0 {
        return Ok(prog);
    }
    Err(Refusal::Syntax {
        left: parser.left(),
    })
}

/// The place of the token with this many left from it on, or of the text's end.
fn place_of(tokens: &Tokens, left: usize) -> Place
    ensures found { IsPlaceIn tokens.now result }
    ensures last { left ≡ 0 → result ≡ tokens.now.end }
    ensures at { (before after : List SpecToken) (t : SpecToken) → tokens.now.list ≡ before ++ t ∷
        after → left ≡ length (t ∷ after) → result ≡ place t }
{
    let all = tokens.as_slice();
    match all.get(all.len().saturating_sub(left)) {
        Some(token) => Place {
            line: token.line,
            col: token.col,
        },
        None => {
            let (line, col) = tokens.end();
            Place { line, col }
        }
    }
}

/// The tree of the tokens of a text, by the grammar of programs, with at most 64 levels of nesting.
///
/// # Errors
///
/// `Syntax` or `Nesting` exactly where the tokens have no tree: `Nesting` exactly where a token
/// opens level 65, at the first that does; else `Syntax`, at the first token with which the tokens
/// read no longer begin a program, or at the text's end. `Memory` where there is not enough memory
/// for the tree.
pub fn parse(alloc: Global, text: &[u8], tokens: &Tokens) -> Result<Program, SyntaxFault>
    // What is read has these tokens.
    ensures found { IfOk result (λ g. tree text.now tokens.now.list (placed g)) }
    // What has these tokens is read, unless memory runs out.
    ensures only { (g : SpecProg SpecPlace) → tree text.now tokens.now.list g →
        MatchResult result (λ p. placed p ≡ g) (λ f. f ≡ SyntaxFault.Memory refused) }
    // A fault stands at a token or at the end.
    ensures place { IfErr result (λ f. StandsIn tokens.now f) }
    // A fault of the grammar stands at the token with which the tokens read no longer begin a
    // program, or at the text's end.
    ensures syntax { (p : SpecPlace) → result ≡ Err (SyntaxFault.Syntax p) →
        StopsAt text.now tokens.now p }
    // A fault of nesting stands at the token that opens level 65.
    ensures nesting { (p : SpecPlace) → result ≡ Err (SyntaxFault.Nesting p) →
        OpensAt text.now tokens.now.list p }
    // Where a token opens level 65 it is the fault, unless memory runs out.
    ensures too_deep { (p : SpecPlace) → OpensAt text.now tokens.now.list p →
        (result ≡ Err (SyntaxFault.Nesting p)) ⊎ (result ≡ Err (SyntaxFault.Memory refused)) }
{
    match read(alloc, text, tokens.as_slice()) {
        Ok(prog) => Ok(prog),
        Err(Refusal::Memory(error)) => Err(SyntaxFault::Memory(error)),
        Err(Refusal::Syntax { left }) => Err(SyntaxFault::Syntax(place_of(tokens, left))),
        Err(Refusal::Nesting { left }) => Err(SyntaxFault::Nesting(place_of(tokens, left))),
    }
}
