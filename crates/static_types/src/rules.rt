//! All rules, tried on one statement or one result.

ghost use Rattle.std.specs.Prelude.{◌≡◌};
ghost use Rattle.syntax_tree.specs.Placed.{placed, placed_stmt, placed_ref, placed_scalar, placed_expr};
ghost use Rattle.static_rule.specs.Parts.{note};
ghost use Rattle.static_declarations.specs.Things.{named_at};
ghost use Rattle.static_declarations.specs.declared.home.Where.{Where};
ghost use Rattle.static_declarations.specs.Parts.{statement, answer};
ghost use Rattle.static_types.specs.Types.{mistyped as mistyped_at};
ghost use Rattle.static_types.specs.Conduct.{misplaced as misplaced_at};
ghost use Rattle.static_types.specs.Rules.{statement_rules};

use crate::conduct::{
    answer_strays, bad_limit, bad_number, crossed_loop, endless_loop, long_loop, misdirected,
    stmt_strays,
};
use crate::types::{answer_agrees, stmt_agrees};
use static_declarations::{Declarations, Where};
use static_parts::stmt_place;
use static_rule::{Violation, blame, rule};
use syntax_tree::{Expr, Place, Scalar, Stmt};

/// The place of a statement whose types or numbers of arguments do not agree.
fn mistyped(declarations: &Declarations<'_>, s: &Stmt) -> Option<Place>
    ensures { (here : Where) → result ≡ mistyped_at (named_at (placed declarations.now))
        (statement here (placed_stmt s.now)) }
{
    if stmt_agrees(declarations, s) {
        None
    } else {
        Some(stmt_place(s))
    }
}

/// The place of a statement that stands where it may not.
fn misplaced(declarations: &Declarations<'_>, here: Where, s: &Stmt) -> Option<Place>
    ensures { result ≡ misplaced_at (named_at (placed declarations.now))
        (statement here (placed_stmt s.now)) }
{
    if stmt_strays(declarations, here, s) {
        Some(stmt_place(s))
    } else {
        None
    }
}

/// Tries the rules on a statement, the statements in it aside.
#[tactic(auto, unfolding(crate::specs::Rules::statement_rules))]
pub fn try_stmt(
    first: &mut Option<Violation>,
    declarations: &Declarations<'_>,
    here: Where,
    s: &Stmt,
)
    ensures { first.new ≡ note (statement_rules (placed declarations.now)) first.old
        (statement here (placed_stmt s.now)) }
{
    blame(first, rule::WRONG_TYPE, mistyped(declarations, s));
    blame(first, rule::CROSSED_BOUNDS, crossed_loop(declarations, s));
    blame(first, rule::CROSSED_BOUNDS, endless_loop(declarations, s));
    blame(first, rule::LONG_LOOP, long_loop(declarations, s));
    blame(first, rule::MISPLACED, misplaced(declarations, here, s));
    blame(first, rule::WRONG_DIRECTION, misdirected(declarations, s));
    blame(first, rule::WRONG_NUMBER, bad_number(declarations, s));
    blame(first, rule::WAIT_LIMIT, bad_limit(declarations, s));
}

/// Tries the rules on the result of a function, by the place of its name.
#[tactic(auto, unfolding(crate::specs::Rules::statement_rules))]
pub fn try_answer(
    first: &mut Option<Violation>,
    declarations: &Declarations<'_>,
    name: Place,
    kind: &Scalar,
    value: &Expr,
)
    ensures { first.new ≡ note (statement_rules (placed declarations.now)) first.old
        (answer name (placed_scalar kind.now) (placed_expr value.now)) }
{
    if !answer_agrees(declarations, kind, value) {
        blame(first, rule::WRONG_TYPE, Some(name));
    }
    if answer_strays(declarations, value) {
        blame(first, rule::MISPLACED, Some(name));
    }
}
