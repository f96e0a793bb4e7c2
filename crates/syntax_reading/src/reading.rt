//! Reading tokens: the grammar as a function from the tokens that are left.
//!
//! `specs/Reading.antt` and its kin say how a list of tokens is read, from left to right with no
//! step back. The lemmas show that this finds exactly the tree that the grammar gives; the parser
//! equals it.
//!
//! Promised: a list of tokens has at most one tree, and trees that are equal apart from places have
//! equal tokens.
//!
//! Laws of the grammar.

ghost use Rattle.std.specs.Prelude.{◌≡◌, ℕ, List};
ghost use Rattle.syntax.specs.declared.token.Token.{Token};
ghost use Rattle.syntax_tree.specs.declared.place.Place.{Place};
ghost use Rattle.syntax_tree.specs.Placed.{Prog};
ghost use Rattle.syntax_tree.specs.Bare.{bare};
ghost use Rattle.syntax.specs.Words.{toks_of, words_of};
ghost use Rattle.syntax.specs.Grammar.{tree};

/// The tokens of a text have at most one tree.
pub fn one_tree()
    ensures { (text : List ℕ) (toks : List Token) (g h : Prog Place) → tree text toks g →
        tree text toks h → g ≡ h }
{}

/// Trees that are equal apart from places have equal tokens: the same keywords, signs, names and
/// values in the same order.
pub fn one_list()
    ensures { (text other : List ℕ) (toks others : List Token) (g h : Prog Place) →
        tree text toks g → tree other others h
        → bare g ≡ bare h → words_of (toks_of text toks) ≡ words_of (toks_of other others) }
{}
