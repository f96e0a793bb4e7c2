//! Conduct: what may stand where in a program, and the numbers in its statements.
mod expr;
mod numbers;
mod stmt;

pub use expr::answer_strays;
pub use numbers::{bad_limit, bad_number, crossed_loop, endless_loop, long_loop};
pub use stmt::{misdirected, stmt_strays};
