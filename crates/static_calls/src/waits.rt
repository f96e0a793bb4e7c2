//! Statements that wait.

ghost use Rattle.std.specs.Prelude.{◌≡◌};
ghost use Rattle.syntax_tree.specs.Placed.{placed_stmt, placed_stmts};
ghost use Rattle.static_calls.specs.Calls.{stmt_waits as stmt_has_wait, stmts_wait as stmts_have_wait};

use syntax_tree::Stmt;

/// Whether there is a wait among the statements.
#[cycle(waits)]
pub fn stmts_wait(list: &[Stmt]) -> bool
    ensures { result ≡ stmts_have_wait (placed_stmts list.now) }
{
    for stmt in list {
        if stmt_waits(stmt) {
            return true;
        }
    }
    false
}

#[cycle(waits)]
fn stmt_waits(stmt: &Stmt) -> bool
    ensures { result ≡ stmt_has_wait (placed_stmt stmt.now) }
{
    match stmt {
        Stmt::Wait { .. } => true,
        Stmt::If {
            first,
            second: None,
            ..
        } => stmts_wait(first.as_slice()),
        Stmt::If {
            first,
            second: Some(second),
            ..
        } => stmts_wait(first.as_slice()) || stmts_wait(second.as_slice()),
        Stmt::For { body, .. } => stmts_wait(body.as_slice()),
        Stmt::Assign { .. }
        | Stmt::AssignEntry { .. }
        | Stmt::AssignEmpty { .. }
        | Stmt::Call { .. }
        | Stmt::CallEntry { .. }
        | Stmt::ExitWhen { .. }
        | Stmt::Get { .. }
        | Stmt::Put { .. }
        | Stmt::Signal { .. }
        | Stmt::Broadcast { .. }
        | Stmt::Except { .. }
        | Stmt::Assert { .. } => false,
    }
}
