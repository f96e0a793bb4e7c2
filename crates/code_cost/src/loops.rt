//! How many loops statements have; each has a word of the frame.

ghost use Rattle.std.specs.Prelude.{◌≡◌, ◌+◌};
ghost use Rattle.syntax_tree.specs.Placed.{placed_stmt, placed_stmts, plain_stmt, plain_stmts};
ghost use Rattle.code_spec.specs.Layout.{loops, loops_in};
ghost use Rattle.code_cost.specs.Sums.{held};

use crate::measure::{MOST, hold};
use syntax_tree::Stmt;

/// The loops of a statement, behind so many.
#[cycle(count)]
fn count_in(before: u64, stmt: &Stmt) -> u64
    ensures { result ≡ held (before + loops_in (plain_stmt (placed_stmt stmt.now))) }
{
    match stmt {
        Stmt::If { first, second, .. } => {
            let first = count_from(before, first.as_slice());
            match second {
                None => first,
                Some(second) => count_from(first, second.as_slice()),
            }
        }
        Stmt::For { body, .. } => count_from(hold(before, 1), body.as_slice()),
        _ => before.min(MOST),
    }
}

/// The loops of statements, behind so many, up to `MOST`.
#[cycle(count)]
pub fn count_from(before: u64, stmts: &[Stmt]) -> u64
    ensures { result ≡ held (before + loops (plain_stmts (placed_stmts stmts.now))) }
{
    let mut count = before.min(MOST);
    for stmt in stmts {
        count = count_in(count, stmt);
    }
    count
}
