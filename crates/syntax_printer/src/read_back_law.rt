//! Laws of the canonical text. These functions do nothing; their contracts are the laws.

ghost use Rattle.std.specs.Prelude.{ℕ, List};
ghost use Rattle.syntax_tree.specs.declared.place.Place.{Place};
ghost use Rattle.syntax_tree.specs.Placed.{Prog};
ghost use Rattle.syntax_tree.specs.Bare.{bare};
ghost use Rattle.syntax.specs.declared.token.Token.{Token};
ghost use Rattle.syntax.specs.Tokens.{tokens};
ghost use Rattle.syntax_printer.specs.Canonical.{canonical};
ghost use Rattle.syntax_printer.specs.ReadBack.{AreSpelled, HasTree, IsPrinted};

/// The canonical text of the tree of some tokens, where it has at most 1,048,576 bytes, has tokens,
/// and these have that tree, apart from places.
pub fn reads_back()
    ensures tokens { (g : Prog Place) → IsPrinted g → (toks : List Token) ×
        tokens (canonical (bare g)) toks }
    ensures tree { (g : Prog Place) → IsPrinted g → (toks : List Token) →
        tokens (canonical (bare g)) toks → HasTree (canonical (bare g)) toks g }
{}

/// The tokens of a text are spelled as their kinds are.
pub fn tokens_are_spelled()
    ensures { (text : List ℕ) (toks : List Token) → tokens text toks → AreSpelled text toks }
{}
