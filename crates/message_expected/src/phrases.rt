//! How the symbols begin with a word.

ghost use Rattle.std.specs.Prelude.{◌≡◌, ◌≤◌};
ghost use Rattle.message_expected.specs.Automaton as automaton;
ghost use Rattle.message_expected.specs.Automaton.{is_name as is_name_kind};
ghost use Rattle.message_expected.specs.Stack.{head_of};

use crate::kinds::Kind;
use crate::symbols::{Head, Symbol};
use syntax::{keyword, sign};

const ASSIGN: Symbol = Symbol::Sign { at: sign::ASSIGN };

const BEGIN: Symbol = Symbol::Keyword { at: keyword::BEGIN };

const COLON: Symbol = Symbol::Sign { at: sign::COLON };

const END: Symbol = Symbol::Keyword { at: keyword::END };

const FRAME: Symbol = Symbol::Keyword { at: keyword::FRAME };

const LEFT_PAREN: Symbol = Symbol::Sign {
    at: sign::LEFT_PAREN,
};

const RANGE: Symbol = Symbol::Sign { at: sign::RANGE };

const RIGHT_BRACKET: Symbol = Symbol::Sign {
    at: sign::RIGHT_BRACKET,
};

const RIGHT_PAREN: Symbol = Symbol::Sign {
    at: sign::RIGHT_PAREN,
};

/// Whether the word is a name.
pub(crate) fn is_name(kind: Kind) -> bool
    ensures { result ≡ is_name_kind kind }
{
    match kind {
        Kind::Name | Kind::Deadline => true,
        _ => false,
    }
}

/// The level of an operator, 0 of what is none.
#[tactic(auto, unfolding(crate::specs::Automaton::level_of))]
pub(crate) fn level_of(kind: Kind) -> u8
    ensures is { result ≡ automaton.level_of kind }
    ensures most { result ≤ 5 }
{
    match kind {
        Kind::Sign { at: sign::TIMES }
        | Kind::Keyword { at: keyword::DIV }
        | Kind::Keyword { at: keyword::MOD } => 1,
        Kind::Sign { at: sign::PLUS } | Kind::Sign { at: sign::MINUS } => 2,
        Kind::Sign { at: sign::EQUAL }
        | Kind::Sign { at: sign::UNEQUAL }
        | Kind::Sign { at: sign::LESS }
        | Kind::Sign {
            at: sign::LESS_EQUAL,
        }
        | Kind::Sign { at: sign::GREATER }
        | Kind::Sign {
            at: sign::GREATER_EQUAL,
        } => 3,
        Kind::Keyword { at: keyword::AND } => 4,
        Kind::Keyword { at: keyword::OR } => 5,
        _ => 0,
    }
}

/// Behind the name of a factor.
#[tactic(auto, unfolding(crate::specs::Automaton::named_factor))]
pub(crate) fn named_factor(kind: Kind) -> Head
    ensures { head_of result ≡ automaton.named_factor kind }
{
    match kind {
        Kind::Sign {
            at: sign::LEFT_BRACKET,
        } => Head::Inside {
            symbols: &[Symbol::Expression, RIGHT_BRACKET],
        },
        Kind::Sign {
            at: sign::LEFT_PAREN,
        } => Head::Inside {
            symbols: &[Symbol::FirstArgument],
        },
        _ => Head::Refused,
    }
}

/// A factor.
#[tactic(auto, unfolding(crate::specs::Automaton::factor))]
pub(crate) fn factor(kind: Kind) -> Head
    ensures { head_of result ≡ automaton.factor kind }
{
    match kind {
        Kind::Name | Kind::Deadline => Head::Along {
            symbols: &[Symbol::NamedFactor],
        },
        Kind::Sign {
            at: sign::LEFT_PAREN,
        } => Head::Inside {
            symbols: &[Symbol::Expression, RIGHT_PAREN],
        },
        Kind::Sign { at: sign::MINUS } | Kind::Keyword { at: keyword::NOT } => Head::Inside {
            symbols: &[Symbol::Factor],
        },
        Kind::Number | Kind::Keyword { at: keyword::TRUE } | Kind::Keyword { at: keyword::FALSE } =>
            Head::Along { symbols: &[] },
        _ => Head::Refused,
    }
}

/// A constant behind its minus.
#[tactic(auto, unfolding(crate::specs::Automaton::unsigned))]
pub(crate) fn unsigned(kind: Kind) -> Head
    ensures { head_of result ≡ automaton.unsigned kind }
{
    match kind {
        Kind::Name | Kind::Deadline | Kind::Number => Head::Along { symbols: &[] },
        _ => Head::Refused,
    }
}

/// A constant.
#[tactic(auto, unfolding(crate::specs::Automaton::constant))]
pub(crate) fn constant(kind: Kind) -> Head
    ensures { head_of result ≡ automaton.constant kind }
{
    match kind {
        Kind::Sign { at: sign::MINUS } => Head::Along {
            symbols: &[Symbol::Unsigned],
        },
        _ => unsigned(kind),
    }
}

/// A type that is no array.
#[tactic(auto, unfolding(crate::specs::Automaton::scalar))]
pub(crate) fn scalar(kind: Kind) -> Head
    ensures { head_of result ≡ automaton.scalar kind }
{
    match kind {
        Kind::Keyword { at: keyword::INT }
        | Kind::Keyword {
            at: keyword::BOOLEAN,
        } => { Head::Along { symbols: &[] } }
        Kind::Sign { at: sign::MINUS } => Head::Along {
            symbols: &[Symbol::Unsigned, RANGE, Symbol::Constant],
        },
        Kind::Name | Kind::Deadline | Kind::Number => Head::Along {
            symbols: &[RANGE, Symbol::Constant],
        },
        _ => Head::Refused,
    }
}

/// The type of a variable.
#[tactic(auto, unfolding(crate::specs::Automaton::variable_type))]
pub(crate) fn variable_type(kind: Kind) -> Head
    ensures { head_of result ≡ automaton.variable_type kind }
{
    match kind {
        Kind::Keyword { at: keyword::ARRAY } => Head::Along {
            symbols: &[
                Symbol::Constant,
                RANGE,
                Symbol::Constant,
                Symbol::Keyword { at: keyword::OF },
                Symbol::Scalar,
            ],
        },
        _ => scalar(kind),
    }
}

/// A variable or a condition of a monitor.
#[tactic(auto, unfolding(crate::specs::Automaton::member))]
pub(crate) fn member(kind: Kind) -> Head
    ensures { head_of result ≡ automaton.member kind }
{
    match kind {
        Kind::Keyword { at: keyword::VAR } => Head::Along {
            symbols: &[Symbol::Name, COLON, Symbol::VariableType],
        },
        Kind::Keyword {
            at: keyword::CONDITION,
        } => Head::Along {
            symbols: &[Symbol::Name],
        },
        _ => Head::Refused,
    }
}

/// A parameter, or the closing parenthesis.
#[tactic(auto, unfolding(crate::specs::Automaton::first_parameter))]
pub(crate) fn first_parameter(kind: Kind) -> Head
    ensures { head_of result ≡ automaton.first_parameter kind }
{
    match kind {
        Kind::Sign {
            at: sign::RIGHT_PAREN,
        } => Head::Along { symbols: &[] },
        Kind::Name | Kind::Deadline => Head::Along {
            symbols: &[COLON, Symbol::Scalar, Symbol::MoreParameters, RIGHT_PAREN],
        },
        _ => Head::Refused,
    }
}

/// A procedure or a function.
#[tactic(auto, unfolding(crate::specs::Automaton::routine))]
pub(crate) fn routine(kind: Kind) -> Head
    ensures { head_of result ≡ automaton.routine kind }
{
    match kind {
        Kind::Keyword {
            at: keyword::PROCEDURE,
        } => Head::Along {
            symbols: &[Symbol::Procedure],
        },
        Kind::Keyword {
            at: keyword::FUNCTION,
        } => Head::Along {
            symbols: &[Symbol::Function],
        },
        _ => Head::Refused,
    }
}

/// A procedure, behind its keyword.
#[tactic(auto, unfolding(crate::specs::Automaton::procedure))]
pub(crate) fn procedure(kind: Kind) -> Head
    ensures { head_of result ≡ automaton.procedure kind }
{
    if !is_name(kind) {
        return Head::Refused;
    }
    Head::Along {
        symbols: &[
            LEFT_PAREN,
            Symbol::FirstParameter,
            Symbol::Variables,
            BEGIN,
            Symbol::Statements,
            END,
            Symbol::Name,
        ],
    }
}

/// A function, behind its keyword.
#[tactic(auto, unfolding(crate::specs::Automaton::function))]
pub(crate) fn function(kind: Kind) -> Head
    ensures { head_of result ≡ automaton.function kind }
{
    if !is_name(kind) {
        return Head::Refused;
    }
    Head::Along {
        symbols: &[
            LEFT_PAREN,
            Symbol::FirstParameter,
            Symbol::Keyword {
                at: keyword::RETURNS,
            },
            Symbol::Scalar,
            Symbol::Variables,
            BEGIN,
            Symbol::Statements,
            Symbol::Keyword {
                at: keyword::RETURN,
            },
            Symbol::Expression,
            END,
            Symbol::Name,
        ],
    }
}

/// What activates a process.
#[tactic(auto, unfolding(crate::specs::Automaton::activation))]
pub(crate) fn activation(kind: Kind) -> Head
    ensures { head_of result ≡ automaton.activation kind }
{
    match kind {
        Kind::Keyword {
            at: keyword::PERIODIC,
        } => Head::Along {
            symbols: &[FRAME, Symbol::Constant, Symbol::Deadline, Symbol::First],
        },
        Kind::Keyword {
            at: keyword::AT_EVENT,
        } => Head::Along {
            symbols: &[Symbol::Name, FRAME, Symbol::Constant, Symbol::Deadline],
        },
        _ => Head::Refused,
    }
}

/// A declaration.
#[tactic(auto, unfolding(crate::specs::Automaton::declaration))]
pub(crate) fn declaration(kind: Kind) -> Head
    ensures { head_of result ≡ automaton.declaration kind }
{
    match kind {
        Kind::Keyword { at: keyword::CONST } => Head::Along {
            symbols: &[Symbol::Name, ASSIGN, Symbol::Constant],
        },
        Kind::Keyword {
            at: keyword::DEVICE,
        } => Head::Along {
            symbols: &[Symbol::Name, COLON, Symbol::Way],
        },
        Kind::Keyword { at: keyword::EVENT } => Head::Along {
            symbols: &[Symbol::Name],
        },
        Kind::Keyword {
            at: keyword::MONITOR,
        } => Head::Along {
            symbols: &[
                Symbol::Name,
                Symbol::Members,
                Symbol::Entries,
                END,
                Symbol::Name,
            ],
        },
        Kind::Keyword {
            at: keyword::PROCESS,
        } => Head::Along {
            symbols: &[
                Symbol::Name,
                COLON,
                Symbol::Activation,
                Symbol::Variables,
                Symbol::Routines,
                BEGIN,
                Symbol::Statements,
                Symbol::Handler,
                END,
                Symbol::Name,
            ],
        },
        _ => routine(kind),
    }
}
