//! What remains of an expression, of its statement and of its call while a part is evaluated.

use crate::results::RunResult;
use replay_calls::{Answer, CowSlots, ResolvedRoutine};
use replay_state::{CallOwner, Item, ResultExpr, Slot, Target, TurnsLeft};
use syntax_tree::{Expr, Name, Op, Param, Scalar, Stmt};

/// Arguments of a call, one of which is being evaluated.
#[derive(Drop)]
pub struct Binding<'a> {
    /// The variables of the parameters before.
    pub own: Vec<Slot<'a>>,
    /// The parameter of this argument.
    pub param: &'a Param,
    pub params: &'a [Param],
    pub args: &'a [Expr],
}

/// A call, an argument of which is being evaluated.
#[derive(Drop)]
pub struct AwaitingCall<'a> {
    pub found: ResolvedRoutine<'a>,
    pub binding: Binding<'a>,
}

/// How far the arguments of a call are bound.
#[derive(Drop)]
pub enum BoundSoFar<'a> {
    /// The exception of an argument.
    Raised(u32),
    /// An argument is to be evaluated.
    Next(&'a Expr, Binding<'a>),
    All(Vec<Slot<'a>>),
}

/// What remains of an expression once a part of it is evaluated.
#[derive(Drop)]
pub enum ExprItem<'a> {
    /// The element of this variable.
    Element(&'a Name),
    Minus,
    Not,
    /// A row of operators, right of this part.
    Row(&'a [(Op, Expr)]),
    /// An operator left of this part, and the row right of it.
    Operand {
        left: i64,
        op: Op,
        rest: &'a [(Op, Expr)],
    },
    /// A call of a function with this argument.
    Argument {
        found: ResolvedRoutine<'a>,
        binding: Binding<'a>,
    },
}

/// What is done to a variable, once it is known which element.
#[derive(Clone, Copy)]
pub enum TargetUse<'a> {
    /// The value of an expression is stored.
    Value(&'a Expr),
    /// The answer of an entry.
    Entry {
        mon: &'a Name,
        entry: &'a Name,
        args: &'a [Expr],
    },
    /// Whether nobody waits for the condition.
    Empty(&'a Name),
    /// What comes from the device.
    Device(&'a Name),
}

/// What remains of a statement once its expression is evaluated.
#[derive(Drop)]
pub enum StmtItem<'a> {
    /// An element of the variable is stored to, at this index.
    Index {
        name: &'a Name,
        then: TargetUse<'a>,
    },
    Store(Target<'a>),
    Choice {
        first: &'a [Stmt],
        second: &'a [Stmt],
    },
    Exit,
    Assertion,
    /// The value goes to the device.
    Put(&'a Name),
    /// A call of a procedure with this argument.
    Perform(Box<AwaitingCall<'a>>),
    /// A call of an entry with this argument; its answer, if any, is to be stored.
    Enter {
        call: Box<AwaitingCall<'a>>,
        mon: usize,
        target: Option<Target<'a>>,
    },
    /// The end of an entry that answers a value of this type.
    Leave {
        mon: usize,
        kind: &'a Scalar,
    },
    /// The end of a function.
    Result(&'a Scalar),
}

/// What remains of an expression, the outermost first, and of its statement.
#[derive(Drop)]
pub struct Remains<'a> {
    pub exprs: Vec<ExprItem<'a>>,
    pub stmt: StmtItem<'a>,
}

/// A routine that is called, with the variables of its own.
#[derive(Drop)]
pub struct CalledRoutine<'a> {
    pub found: ResolvedRoutine<'a>,
    pub own: Vec<Slot<'a>>,
}

/// What an item comes to: what its statements come to, or a value that is given back.
#[derive(Drop)]
pub enum ItemResult<'a> {
    Ran(RunResult<'a>),
    Gives(i64),
}

/// A part of an expression: it is to be evaluated, has this answer, or is a call of a function.
#[derive(Drop)]
pub enum Part<'a> {
    Expr(&'a Expr),
    Answer(Answer),
    Call(CalledRoutine<'a>),
}

/// What a call does next.
#[derive(Drop)]
pub enum Step<'a> {
    /// A part of an expression, and what remains after it.
    Part(Part<'a>, Remains<'a>),
    CallsProcedure(CalledRoutine<'a>),
    Does(&'a [Stmt]),
    /// A loop with turns left.
    Turns {
        name: &'a Name,
        turns: TurnsLeft,
        body: &'a [Stmt],
    },
    Came(ItemResult<'a>),
}

/// The variables of the process and of the monitor, before a function changed them.
#[derive(Drop)]
pub struct Beside<'s, 'a> {
    pub process: CowSlots<'s, 'a>,
    pub monitor: CowSlots<'s, 'a>,
}

/// A caller that waits for a procedure, with the home of the procedure.
#[derive(Drop)]
pub struct ProcedureCaller<'a> {
    pub callee: CallOwner,
    pub home: CallOwner,
    pub depth: usize,
    pub own: Vec<Slot<'a>>,
    pub rest: Vec<Item<'a>>,
}

/// A caller that waits for the value of a function, with the home of the function and its result
/// that is still to be evaluated.
#[derive(Drop)]
pub struct FunctionCaller<'s, 'a> {
    pub callee: CallOwner,
    pub result: Option<ResultExpr<'a>>,
    pub home: CallOwner,
    pub depth: usize,
    pub own: Vec<Slot<'a>>,
    pub rest: Vec<Item<'a>>,
    pub remains: Remains<'a>,
    pub kept: Option<Beside<'s, 'a>>,
}

/// A caller that waits.
#[derive(Drop)]
pub enum Caller<'s, 'a> {
    OfProcedure(ProcedureCaller<'a>),
    OfFunction(FunctionCaller<'s, 'a>),
}

/// The call that runs: whose text it is in, how deep calls inside it can be nested, its items that
/// remain, the outermost first, what the innermost function has changed beside its own variables as
/// it was before, and the callers that wait, the outermost first.
#[derive(Drop)]
pub struct Running<'s, 'a> {
    pub home: CallOwner,
    pub depth: usize,
    pub rest: Vec<Item<'a>>,
    pub kept: Option<Beside<'s, 'a>>,
    pub callers: Vec<Caller<'s, 'a>>,
}

/// How a function is over: its result is still to be evaluated, or this is its answer.
#[derive(Clone, Copy)]
pub enum FunctionEnd<'a> {
    Evaluates(ResultExpr<'a>),
    Answers(Answer),
}

/// Where a run is: over, or at this step of the call that runs.
#[derive(Drop)]
pub enum Driven<'a> {
    Over(ItemResult<'a>),
    At(Step<'a>),
}
