//! How statements begin with a word.

ghost use Rattle.std.specs.Prelude.{◌≡◌, ◌≤◌};
ghost use Rattle.message_expected.specs.Automaton as automaton;
ghost use Rattle.message_expected.specs.Automaton.{operators as operators_to, operators_behind};
ghost use Rattle.message_expected.specs.Stack.{head_of, turn_of};

use crate::kinds::Kind;
use crate::phrases::{factor, level_of, named_factor};
use crate::symbols::{Head, Symbol, Turn};
use syntax::{keyword, sign};

const ASSIGN: Symbol = Symbol::Sign { at: sign::ASSIGN };

const COLON: Symbol = Symbol::Sign { at: sign::COLON };

const END: Symbol = Symbol::Keyword { at: keyword::END };

const IF: Symbol = Symbol::Keyword { at: keyword::IF };

const RANGE: Symbol = Symbol::Sign { at: sign::RANGE };

const RIGHT_BRACKET: Symbol = Symbol::Sign {
    at: sign::RIGHT_BRACKET,
};

const RIGHT_PAREN: Symbol = Symbol::Sign {
    at: sign::RIGHT_PAREN,
};

/// The operators of all levels.
const OPERATORS: [Symbol; 5] = [
    Symbol::Operators { level: 1 },
    Symbol::Operators { level: 2 },
    Symbol::Operators { level: 3 },
    Symbol::Operators { level: 4 },
    Symbol::Operators { level: 5 },
];

/// What may stand behind the factors of an expression.
pub(crate) fn operators() -> &'static [Symbol]
    ensures { result.now ≡ operators_to 5 }
{
    &OPERATORS
}

/// What may stand behind the factor behind an operator of this level.
fn operators_behind(level: u8) -> &'static [Symbol]
    requires { level ≤ 5 }
    ensures { result.now ≡ operators_behind level }
{
    match level {
        0 => &[],
        1 => &OPERATORS[..1],
        2 | 3 => &OPERATORS[..2],
        4 => &OPERATORS[..4],
        _ => &OPERATORS,
    }
}

/// A statement.
#[tactic(auto, unfolding(crate::specs::Automaton::statement))]
pub(crate) fn statement(kind: Kind) -> Head
    ensures { head_of result ≡ automaton.statement kind }
{
    match kind {
        Kind::Name | Kind::Deadline => Head::Along {
            symbols: &[Symbol::NamedStatement],
        },
        Kind::Keyword { at: keyword::IF } => Head::Inside {
            symbols: &[
                Symbol::Expression,
                Symbol::Keyword { at: keyword::THEN },
                Symbol::Statements,
                Symbol::Else,
            ],
        },
        Kind::Keyword { at: keyword::FOR } => Head::Inside {
            symbols: &[
                Symbol::Name,
                COLON,
                Symbol::Constant,
                RANGE,
                Symbol::Constant,
                Symbol::Keyword { at: keyword::DO },
                Symbol::Statements,
                END,
                Symbol::Keyword { at: keyword::FOR },
            ],
        },
        Kind::Keyword { at: keyword::EXIT } => Head::Along {
            symbols: &[Symbol::Keyword { at: keyword::WHEN }, Symbol::Expression],
        },
        Kind::Keyword { at: keyword::GET } => Head::Along {
            symbols: &[Symbol::Name, Symbol::Name, Symbol::Index],
        },
        Kind::Keyword { at: keyword::PUT } => Head::Along {
            symbols: &[Symbol::Name, Symbol::Expression],
        },
        Kind::Keyword {
            at: keyword::ASSERT,
        } => Head::Along {
            symbols: &[Symbol::Expression],
        },
        Kind::Keyword { at: keyword::WAIT } => Head::Along {
            symbols: &[
                Symbol::Name,
                Symbol::Keyword {
                    at: keyword::NO_LONGER_THAN,
                },
                Symbol::Constant,
                COLON,
                Symbol::Constant,
            ],
        },
        Kind::Keyword {
            at: keyword::SIGNAL,
        }
        | Kind::Keyword {
            at: keyword::BROADCAST,
        } => {
            Head::Along {
                symbols: &[Symbol::Name],
            }
        }
        Kind::Keyword {
            at: keyword::EXCEPT,
        } => Head::Along {
            symbols: &[Symbol::Constant],
        },
        _ => Head::Refused,
    }
}

/// A statement, behind the name that begins it.
#[tactic(auto, unfolding(crate::specs::Automaton::named_statement))]
pub(crate) fn named_statement(kind: Kind) -> Turn
    ensures { turn_of result ≡ automaton.named_statement kind }
{
    match kind {
        Kind::Sign {
            at: sign::LEFT_PAREN,
        } => Turn {
            head: Head::Inside {
                symbols: &[Symbol::FirstArgument],
            },
            behind: &[],
        },
        Kind::Sign { at: sign::DOT } => Turn {
            head: Head::Along {
                symbols: &[Symbol::Name, Symbol::Arguments],
            },
            behind: &[],
        },
        Kind::Sign {
            at: sign::LEFT_BRACKET,
        } => Turn {
            head: Head::Inside {
                symbols: &[Symbol::Expression, RIGHT_BRACKET],
            },
            behind: &[ASSIGN, Symbol::Assigned],
        },
        Kind::Sign { at: sign::ASSIGN } => Turn {
            head: Head::Along {
                symbols: &[Symbol::Assigned],
            },
            behind: &[],
        },
        _ => Turn {
            head: Head::Refused,
            behind: &[],
        },
    }
}

/// The end of a branch, with its other statements, if any.
#[tactic(auto, unfolding(crate::specs::Automaton::else_part))]
pub(crate) fn else_part(kind: Kind) -> Head
    ensures { head_of result ≡ automaton.else_part kind }
{
    match kind {
        Kind::Keyword { at: keyword::ELSE } => Head::Along {
            symbols: &[Symbol::Statements, END, IF],
        },
        Kind::Keyword { at: keyword::END } => Head::Along { symbols: &[IF] },
        _ => Head::Refused,
    }
}

/// What is assigned.
#[tactic(auto, unfolding(crate::specs::Automaton::assigned))]
pub(crate) fn assigned(kind: Kind) -> Turn
    ensures { turn_of result ≡ automaton.assigned kind }
{
    match kind {
        Kind::Keyword { at: keyword::EMPTY } => Turn {
            head: Head::Along {
                symbols: &[Symbol::Name],
            },
            behind: &[],
        },
        Kind::Name | Kind::Deadline => Turn {
            head: Head::Along {
                symbols: &[Symbol::AssignedName],
            },
            behind: &[],
        },
        _ => Turn {
            head: factor(kind),
            behind: operators(),
        },
    }
}

/// What is assigned, behind the name that begins it: an entry, or else what may stand behind a name
/// in an expression.
#[tactic(auto, unfolding(crate::specs::Automaton::assigned_name))]
pub(crate) fn assigned_name(kind: Kind) -> Turn
    ensures { turn_of result ≡ automaton.assigned_name kind }
{
    match kind {
        Kind::Sign { at: sign::DOT } => Turn {
            head: Head::Along {
                symbols: &[Symbol::Name, Symbol::Arguments],
            },
            behind: &[],
        },
        Kind::Sign {
            at: sign::LEFT_BRACKET,
        }
        | Kind::Sign {
            at: sign::LEFT_PAREN,
        } => Turn {
            head: named_factor(kind),
            behind: operators(),
        },
        _ => behind_operator(level_of(kind)),
    }
}

/// Behind an operator of this level, which stands behind the first factor of an expression.
#[tactic(auto, unfolding(crate::specs::Automaton::behind_operator))]
fn behind_operator(level: u8) -> Turn
    ensures { turn_of result ≡ automaton.behind_operator level }
{
    match level {
        0 => Turn {
            head: Head::Refused,
            behind: &[],
        },
        3 => Turn {
            head: Head::Along {
                symbols: &[Symbol::Factor],
            },
            behind: &[
                Symbol::Operators { level: 1 },
                Symbol::Operators { level: 2 },
                Symbol::Operators { level: 4 },
                Symbol::Operators { level: 5 },
            ],
        },
        _ => Turn {
            head: Head::Along {
                symbols: &[Symbol::Factor],
            },
            behind: operators(),
        },
    }
}

/// An operator of this level.
pub(crate) fn operator(level: u8, kind: Kind) -> Turn
    ensures { turn_of result ≡ automaton.operator level kind }
{
    if level_of(kind) != level {
        return Turn {
            head: Head::Refused,
            behind: &[],
        };
    }
    Turn {
        head: Head::Along {
            symbols: &[Symbol::Factor],
        },
        behind: operators_behind(level),
    }
}

/// An argument, or the closing parenthesis.
#[tactic(auto, unfolding(crate::specs::Automaton::first_argument))]
pub(crate) fn first_argument(kind: Kind) -> Turn
    ensures { turn_of result ≡ automaton.first_argument kind }
{
    match kind {
        Kind::Sign {
            at: sign::RIGHT_PAREN,
        } => Turn {
            head: Head::Along { symbols: &[] },
            behind: &[],
        },
        _ => Turn {
            head: factor(kind),
            behind: &[
                Symbol::Operators { level: 1 },
                Symbol::Operators { level: 2 },
                Symbol::Operators { level: 3 },
                Symbol::Operators { level: 4 },
                Symbol::Operators { level: 5 },
                Symbol::MoreArguments,
                RIGHT_PAREN,
            ],
        },
    }
}
