//! Laws: the place of a fault is one.
//!
//! A text's tokens stop beginning a program at most at one token, and at most one token opens a
//! level beyond the last.

ghost use Rattle.std.specs.Prelude.{◌≡◌, ℕ, List};
ghost use Rattle.syntax.specs.declared.token.Token.{Token};
ghost use Rattle.syntax.specs.declared.token.Tokens.{Tokens};
ghost use Rattle.syntax_tree.specs.declared.place.Place.{Place};
ghost use Rattle.syntax_parser.specs.Faults.{OpensAt, StopsAt};

/// A list of tokens has at most one place at which a token opens a level beyond the last.
pub fn one_opening()
    ensures { (text : List ℕ) (toks : List Token) (p q : Place) → OpensAt text toks p →
        OpensAt text toks q → p ≡ q }
{}

/// A list of tokens has at most one place for a fault of the grammar: that of the token with which
/// the tokens read no longer begin a program, or the text's end where all of them begin one.
pub fn one_place()
    ensures { (text : List ℕ) (toks : Tokens) (p q : Place) → StopsAt text toks p →
        StopsAt text toks q → p ≡ q }
{}
