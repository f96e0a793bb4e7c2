//! Constants and expressions.

use crate::list::List;
use crate::name::Name;
use crate::place::Place;

/// An operator between two operands.
#[derive(Clone, Copy, Debug, PartialEq, Eq)]
pub enum Op {
    Or,
    And,
    Equal,
    Unequal,
    Less,
    LessEqual,
    Greater,
    GreaterEqual,
    Add,
    Sub,
    Mul,
    Div,
    Mod,
}

/// A literal or a name where a constant stands.
#[derive(Debug, Drop)]
pub enum Value {
    Literal(u32),
    Name(Name),
}

/// A constant: a literal or the name of a constant, with or without a minus.
///
/// `place` is that of its first token, `value_place` that of the literal or name. The two are
/// equal where there is no minus.
#[derive(Debug, Drop)]
pub struct Constant {
    pub place: Place,
    pub minus: bool,
    pub value: Value,
    pub value_place: Place,
}

/// An expression. Each variant but `Chain` has the place of its first token.
///
/// Parentheses are a variant of their own, and a row of operators of one level is one `Chain`, so
/// each tree has one list of tokens. The parser makes no `Chain` with an empty `rest`.
#[derive(Debug, Drop)]
pub enum Expr {
    Literal {
        place: Place,
        value: u32,
    },
    True {
        place: Place,
    },
    False {
        place: Place,
    },
    /// A variable, parameter, loop variable or constant.
    Variable {
        place: Place,
        name: Name,
    },
    /// An element of an array.
    Element {
        place: Place,
        name: Name,
        index: Box<Expr>,
    },
    /// A function and its arguments.
    Call {
        place: Place,
        name: Name,
        args: List<Expr>,
    },
    Minus {
        place: Place,
        operand: Box<Expr>,
    },
    Not {
        place: Place,
        operand: Box<Expr>,
    },
    /// An expression in parentheses; the place is that of the opening one.
    Paren {
        place: Place,
        inner: Box<Expr>,
    },
    /// A first operand, and operators of one level, each with its right operand.
    Chain {
        first: Box<Expr>,
        rest: List<(Op, Expr)>,
    },
}
