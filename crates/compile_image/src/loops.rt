//! How many loops a process has: each has a word of its frame.

ghost use Rattle.std.specs.Prelude.{◌≡◌, ◌+◌, ◌≤◌};
ghost use Rattle.syntax_tree.specs.Placed.{placed_process, placed_stmt, placed_stmts, plain_process, plain_stmt, plain_stmts};
ghost use Rattle.code_spec.specs.Layout.{frame_words, loops, loops_in};

use syntax_tree::{Process, Stmt};

/// The loops of a statement, behind so many.
#[cycle(count)]
fn count_in(before: u32, stmt: &Stmt) -> u32
    requires { before + loops_in (plain_stmt (placed_stmt stmt.now)) ≤ 4096 }
    ensures { result ≡ before + loops_in (plain_stmt (placed_stmt stmt.now)) }
{
    match stmt {
        Stmt::If { first, second, .. } => {
            let first = count_from(before, first.as_slice());
            match second {
                None => first,
                Some(second) => count_from(first, second.as_slice()),
            }
        }
        Stmt::For { body, .. } => count_from(before + 1, body.as_slice()),
        _ => before,
    }
}

/// The loops of statements, behind so many.
#[cycle(count)]
fn count_from(before: u32, stmts: &[Stmt]) -> u32
    requires { before + loops (plain_stmts (placed_stmts stmts.now)) ≤ 4096 }
    ensures { result ≡ before + loops (plain_stmts (placed_stmts stmts.now)) }
{
    let mut count = before;
    for stmt in stmts {
        count = count_in(count, stmt);
    }
    count
}

/// The words of a process's frame: one for each loop of its body and its handler.
pub fn frame(process: &Process) -> u32
    requires { frame_words (plain_process (placed_process process.now)) ≤ 4096 }
    ensures { result ≡ frame_words (plain_process (placed_process process.now)) }
{
    let body = count_from(0, process.body.as_slice());
    match &process.handler {
        None => body,
        Some(handler) => count_from(body, handler.body.as_slice()),
    }
}
