//! The numbers in statements.

ghost use Rattle.std.specs.Prelude.{◌≡◌};
ghost use Rattle.syntax_tree.specs.Placed.{placed, placed_stmt};
ghost use Rattle.static_declarations.specs.Values.{value};
ghost use Rattle.static_declarations.specs.declared.home.Where.{Where};
ghost use Rattle.static_declarations.specs.Parts.{statement};
ghost use Rattle.static_types.specs.Numbers.{crossed_loop as crossed_at, endless_loop as endless_at, long_loop as long_at, bad_number as bad_number_at, bad_limit as bad_limit_at};

use static_declarations::Declarations;
use syntax_tree::{Place, Stmt};

/// The most turns that a loop may have.
const MOST_TURNS: i64 = 1_000_000;

/// The greatest word.
const GREATEST_WORD: i64 = 2_147_483_647;

/// The least and the greatest number of an exception that a statement raises.
const NUMBERS: (u32, u32) = (10, 999);

/// The least and the greatest limit of a wait.
const LIMITS: (u32, u32) = (1, 1_000_000_000);

/// The lower bound of a loop that is above the upper bound.
pub fn crossed_loop(declarations: &Declarations<'_>, s: &Stmt) -> Option<Place>
    ensures { (here : Where) → result ≡ crossed_at (value (placed declarations.now))
        (statement here (placed_stmt s.now)) }
{
    match s {
        Stmt::For { low, high, .. } if declarations.value(high) < declarations.value(low) => {
            Some(low.place)
        }
        _ => None,
    }
}

/// The upper bound of a loop that is the greatest word.
pub fn endless_loop(declarations: &Declarations<'_>, s: &Stmt) -> Option<Place>
    ensures { (here : Where) → result ≡ endless_at (value (placed declarations.now))
        (statement here (placed_stmt s.now)) }
{
    match s {
        Stmt::For { high, .. } if declarations.value(high) == GREATEST_WORD => Some(high.place),
        _ => None,
    }
}

/// The place of a loop of more turns than it may have.
pub fn long_loop(declarations: &Declarations<'_>, s: &Stmt) -> Option<Place>
    ensures { (here : Where) → result ≡ long_at (value (placed declarations.now))
        (statement here (placed_stmt s.now)) }
{
    match s {
        Stmt::For {
            place,
            low,
            high,
            ..
        } if declarations.value(low) + MOST_TURNS <= declarations.value(high) => Some(*place),
        _ => None,
    }
}

/// The number of an exception that is raised, by `except` or where a wait ends at its limit, if it
/// is not among those that a statement may raise.
pub fn bad_number(declarations: &Declarations<'_>, s: &Stmt) -> Option<Place>
    ensures { (here : Where) → result ≡ bad_number_at (value (placed declarations.now))
        (statement here (placed_stmt s.now)) }
{
    match s {
        Stmt::Except { number, .. } => declarations.out_of(NUMBERS.0, NUMBERS.1, number),
        Stmt::Wait { number, .. } => declarations.out_of(NUMBERS.0, NUMBERS.1, number),
        _ => None,
    }
}

/// The limit of a wait, if it is out of its range.
pub fn bad_limit(declarations: &Declarations<'_>, s: &Stmt) -> Option<Place>
    ensures { (here : Where) → result ≡ bad_limit_at (value (placed declarations.now))
        (statement here (placed_stmt s.now)) }
{
    match s {
        Stmt::Wait { limit, .. } => declarations.out_of(LIMITS.0, LIMITS.1, limit),
        _ => None,
    }
}
