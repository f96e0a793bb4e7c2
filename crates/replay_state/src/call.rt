//! Calls in progress.

use crate::turns::TurnsLeft;
use crate::variables::Slot;
use syntax_tree::{Expr, Name, Scalar, Stmt};

/// Whose text a call is in, which says which variables it names beside its own.
#[derive(Clone, Copy)]
pub enum CallOwner {
    Program,
    Process,
    /// The monitor of this number.
    Monitor(usize),
}

/// A variable to be stored to, its index evaluated.
#[derive(Clone, Copy)]
pub struct Target<'a> {
    pub name: &'a Name,
    pub index: Option<i64>,
}

/// The type and the expression of a function's result.
#[derive(Clone, Copy)]
pub struct ResultExpr<'a> {
    pub kind: &'a Scalar,
    pub value: &'a Expr,
}

/// What remains to be done in a call.
#[derive(Clone, Copy)]
pub enum Item<'a> {
    DoAll(&'a [Stmt]),
    /// A loop with turns left.
    TurnsLeft {
        name: &'a Name,
        turns: TurnsLeft,
        body: &'a [Stmt],
    },
    /// A store whose value is still to come.
    Receive(Target<'a>),
    /// A store whose value has come.
    Store {
        target: Target<'a>,
        value: i64,
    },
    /// The end of a wait.
    EnterAgain {
        mon: usize,
    },
    /// The end of an entry: its answer, if any, and the monitor is left.
    LeaveWith {
        answers: Option<ResultExpr<'a>>,
        mon: usize,
    },
    /// A value is given back.
    Give(i64),
}

/// A call in progress: its variables, and what remains of it, the next first.
#[derive(Drop)]
pub struct Call<'a> {
    pub home: CallOwner,
    pub own: Vec<Slot<'a>>,
    pub rest: Vec<Item<'a>>,
}

/// What a process does that others can see.
#[derive(Clone, Copy)]
pub enum Action {
    Gets {
        dev: usize,
    },
    Puts {
        dev: usize,
        value: i64,
    },
    Enters {
        mon: usize,
    },
    Leaves {
        mon: usize,
    },
    Waits {
        condition: usize,
        limit: u32,
        number: u32,
    },
    Signals {
        condition: usize,
    },
    Broadcasts {
        condition: usize,
    },
    AsksEmpty {
        condition: usize,
    },
    Raises {
        number: u32,
    },
    Ends,
}

/// The next action of a process, its calls in progress after it, the innermost first, and the
/// variables of the process and of the monitor that it is inside.
#[derive(Drop)]
pub struct NextAction<'a> {
    pub action: Action,
    pub calls: Vec<Call<'a>>,
    pub process: Vec<Slot<'a>>,
    pub monitor: Vec<Slot<'a>>,
}
