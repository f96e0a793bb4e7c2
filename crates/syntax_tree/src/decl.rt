//! Declarations and programs.

use crate::expr::{Constant, Expr};
use crate::list::List;
use crate::name::Name;
use crate::place::Place;
use crate::stmt::Stmt;

/// The type of a word.
#[derive(Debug, Drop)]
pub enum Scalar {
    Int,
    Boolean,
    Subrange { low: Constant, high: Constant },
}

/// The type of a variable.
#[derive(Debug, Drop)]
pub enum Type {
    Scalar(Scalar),
    Array {
        low: Constant,
        high: Constant,
        element: Scalar,
    },
}

/// A variable of a process, monitor or routine.
#[derive(Debug, Drop)]
pub struct Var {
    pub name: Name,
    pub place: Place,
    pub kind: Type,
}

/// A parameter of a routine.
#[derive(Debug, Drop)]
pub struct Param {
    pub name: Name,
    pub place: Place,
    pub kind: Scalar,
}

#[derive(Clone, Copy, Debug, PartialEq, Eq)]
pub enum RoutineKind {
    Procedure,
    Function,
}

/// A procedure, or a function with the type and the expression of its result.
///
/// A procedure has neither `result` nor `value`, a function has both.
#[derive(Debug, Drop)]
pub struct Routine {
    pub kind: RoutineKind,
    pub name: Name,
    pub place: Place,
    pub params: List<Param>,
    pub result: Option<Scalar>,
    pub vars: List<Var>,
    pub body: List<Stmt>,
    pub value: Option<Expr>,
    pub close: Name,
    pub close_place: Place,
}

/// A variable or a condition of a monitor.
#[derive(Debug, Drop)]
pub enum Member {
    Var(Var),
    Condition { name: Name, place: Place },
}

/// A monitor, with its variables and conditions in the order of the text.
#[derive(Debug, Drop)]
pub struct Monitor {
    pub name: Name,
    pub place: Place,
    pub members: List<Member>,
    pub entries: List<Routine>,
    pub close: Name,
    pub close_place: Place,
}

/// When a process is released, and by when an activation has to end: within its deadline, which is
/// its frame where none is told.
#[derive(Debug, Drop)]
pub enum Trigger {
    Periodic {
        frame: Constant,
        deadline: Option<Constant>,
        first: Option<Constant>,
    },
    AtEvent {
        event: Name,
        event_place: Place,
        frame: Constant,
        deadline: Option<Constant>,
    },
}

/// The numbers that start a handler, one or more, and its statements.
#[derive(Debug, Drop)]
pub struct Handler {
    pub numbers: List<Constant>,
    pub body: List<Stmt>,
}

#[derive(Debug, Drop)]
pub struct Process {
    pub name: Name,
    pub place: Place,
    pub activation: Trigger,
    pub vars: List<Var>,
    pub routines: List<Routine>,
    pub body: List<Stmt>,
    pub handler: Option<Handler>,
    pub close: Name,
    pub close_place: Place,
}

/// A declaration of a program. Its place is that of its name.
#[derive(Debug, Drop)]
pub enum Declaration {
    Const {
        name: Name,
        place: Place,
        value: Constant,
    },
    Device {
        name: Name,
        place: Place,
        is_out: bool,
    },
    Event {
        name: Name,
        place: Place,
    },
    Routine(Routine),
    Monitor(Monitor),
    Process(Process),
}

/// A program: its name, its declarations in the order of the text, and its closing name.
#[derive(Debug, Drop)]
pub struct Program {
    pub name: Name,
    pub place: Place,
    pub decls: List<Declaration>,
    pub close: Name,
    pub close_place: Place,
}
