//! Laws of the statements of a program: where no rule for names and statements fails, each text is
//! well formed as the meaning sees it.
//!
//! Laws of the statements of a program. These functions do nothing; their contracts are the laws.

ghost use Rattle.std.specs.Prelude.{Option, List, [], Contains};
ghost use Rattle.syntax_tree.specs.Placed.{Scalar, Expr, Stmts, Process, Prog, plain_scalar, plain_expr, plain_stmts};
ghost use Rattle.syntax_tree.specs.declared.place.Place.{Place};
ghost use Rattle.static_names.specs.Reach.{Site};
ghost use Rattle.static_names.specs.Occurrences.{expr_names, stmts_names};
ghost use Rattle.static_declarations.specs.declared.home.Where.{Where};
ghost use Rattle.static_declarations.specs.Parts.{answer, stmts_parts, parts};
ghost use Rattle.static_semantics.specs.Here.{Here, scalar_sort};
ghost use Rattle.static_semantics.specs.Typed.{IsOf};
ghost use Rattle.static_semantics.specs.Statements.{AllFit};
ghost use Rattle.static_semantics.specs.Written.{ExprWritten, StmtsWritten};
ghost use Rattle.static_semantics.specs.Mirrors.{Mirrors};
ghost use Rattle.static_semantics.specs.Judged.{IsKept, IsPlaced, AreNames, AreParts};

/// The result of a function has its sort.
pub fn answers_fit()
    ensures { (g : Prog Place) (p : Process Place) (at : Option Place) (site : Site) (c : Here)
        (name : Place) (s : Scalar Place) (e : Expr Place) → IsKept g → Mirrors g p at site c
        → ExprWritten e → AreNames g (expr_names site e []) → Contains (parts g) (answer name s e) →
        IsOf c (scalar_sort (plain_scalar s)) (plain_expr e) }
{}

/// The statements of a text fit.
pub fn bodies_fit()
    ensures { (g : Prog Place) (p : Process Place) (at : Option Place) (site : Site) (c : Here)
        (w : Where) (ss : Stmts Place) → IsKept g → Mirrors g p at site c → IsPlaced w at c
        → StmtsWritten ss → AreNames g (stmts_names site ss []) → AreParts g (stmts_parts w ss []) →
        AllFit c (plain_stmts ss) }
{}
