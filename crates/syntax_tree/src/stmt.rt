//! Statements.

use crate::expr::{Constant, Expr};
use crate::list::List;
use crate::name::Name;
use crate::place::Place;

/// What is assigned to: a variable, or an element where there is an index.
#[derive(Debug, Drop)]
pub struct Ref {
    pub place: Place,
    pub name: Name,
    pub index: Option<Box<Expr>>,
}

/// A statement. Its place is that of its first token: `place`, or that of `target` where the
/// statement is an assignment. What is large and rare stands in a box, so that a statement is cheap
/// to move.
#[derive(Debug, Drop)]
pub enum Stmt {
    Assign {
        target: Ref,
        value: Expr,
    },
    /// An assignment of what an entry of a monitor answers.
    AssignEntry {
        target: Ref,
        mon: Name,
        mon_place: Place,
        entry: Name,
        entry_place: Place,
        args: List<Expr>,
    },
    /// An assignment of whether nobody waits for a condition.
    AssignEmpty {
        target: Ref,
        cond: Name,
        cond_place: Place,
    },
    /// A call of a procedure.
    Call {
        place: Place,
        name: Name,
        args: List<Expr>,
    },
    /// A call of an entry of a monitor; `place` is that of the monitor's name.
    CallEntry {
        place: Place,
        mon: Name,
        entry: Name,
        entry_place: Place,
        args: List<Expr>,
    },
    /// A choice. An `else` with no statements is another tree than no `else`.
    If {
        place: Place,
        test: Expr,
        first: List<Stmt>,
        second: Option<List<Stmt>>,
    },
    For {
        place: Place,
        name: Name,
        name_place: Place,
        low: Box<Constant>,
        high: Box<Constant>,
        body: List<Stmt>,
    },
    ExitWhen {
        place: Place,
        test: Expr,
    },
    Get {
        place: Place,
        device: Name,
        device_place: Place,
        target: Ref,
    },
    Put {
        place: Place,
        device: Name,
        device_place: Place,
        value: Expr,
    },
    Wait {
        place: Place,
        cond: Name,
        cond_place: Place,
        limit: Box<Constant>,
        number: Box<Constant>,
    },
    Signal {
        place: Place,
        cond: Name,
        cond_place: Place,
    },
    Broadcast {
        place: Place,
        cond: Name,
        cond_place: Place,
    },
    Except {
        place: Place,
        number: Constant,
    },
    Assert {
        place: Place,
        test: Expr,
    },
}
