//! Laws of mismatches. These functions do nothing; their contracts are the laws.

ghost use Rattle.std.specs.Prelude.{◌≡◌, ℕ, ◌↔◌, IsSome, is_none};
ghost use Rattle.syntax_tree.specs.Placed.{Expr, Prog, Stmt};
ghost use Rattle.syntax_tree.specs.declared.place.Place.{Place};
ghost use Rattle.static_types.specs.Rules.{StatementFails};
ghost use Rattle.static_types.specs.Sorts.{Named, agrees};
ghost use Rattle.static_types.specs.Types.{is_of, stmt_agrees};
ghost use Rattle.static_declarations.specs.declared.sort.Sort.{Sort};
ghost use Rattle.message_types.specs.Mismatches.{Spot, mismatch, stmt_mismatch, unfit};
ghost use Rattle.message_types.specs.Told.{type_sentence};

/// A mismatch is found exactly where the rule for types and numbers of arguments fails: in an
/// expression, in one of which a sort is wanted, and in a statement.
pub fn mismatches_are_failures()
    ensures expressions { (named : Named) (e : Expr Place) →
        is_none (mismatch named e) ≡ agrees named e }
    ensures wanted { (named : Named) (spot : Spot) (s : Sort) (e : Expr Place) →
        is_none (unfit named spot s e) ≡ is_of named s e }
    ensures statements { (named : Named) (s : Stmt Place) →
        is_none (stmt_mismatch named s) ≡ stmt_agrees named s }
{}

/// There is a sentence exactly for that rule, and exactly at the places at which it fails.
pub fn sentences_are_failures()
    ensures { (g : Prog Place) (number : ℕ) (place : Place) →
        IsSome (type_sentence g number place) ↔ ((number ≡ 30) × StatementFails g number place) }
{}
