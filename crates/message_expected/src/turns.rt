//! What a word does to each symbol.

ghost use Rattle.std.specs.Prelude.{◌≡◌};
ghost use Rattle.message_expected.specs.Automaton as automaton;
ghost use Rattle.message_expected.specs.Kinds.{same};
ghost use Rattle.message_expected.specs.declared.kinds.Kind.TheVariants as SpecKind;
ghost use Rattle.message_expected.specs.Stack.{head_of, turn_of};

use crate::kinds::Kind;
use crate::phrases::{
    activation, constant, declaration, factor, first_parameter, function, is_name, member,
    named_factor, procedure, routine, scalar, unsigned, variable_type,
};
use crate::statements::{
    assigned, assigned_name, else_part, first_argument, named_statement, operator, operators,
    statement,
};
use crate::symbols::{Head, Symbol, Turn};
use syntax::{keyword, sign};

/// With nothing behind.
fn alone(head: Head) -> Turn
    ensures { turn_of result ≡ automaton.alone (head_of head) }
{
    Turn { head, behind: &[] }
}

/// These where the test holds.
fn where_so(so: bool, symbols: &'static [Symbol]) -> Turn
    ensures { turn_of result ≡ automaton.alone (automaton.where_so so symbols.now) }
{
    if so {
        return alone(Head::Along { symbols });
    }
    alone(Head::Refused)
}

/// Whether the word is this keyword.
fn is_key(kind: Kind, at: u8) -> bool
    ensures { result ≡ automaton.is_key at kind }
{
    match kind {
        Kind::Keyword { at: found } => found == at,
        _ => false,
    }
}

/// Whether the word is this sign.
fn is_sign(kind: Kind, at: u8) -> bool
    ensures { result ≡ automaton.is_sign at kind }
{
    match kind {
        Kind::Sign { at: found } => found == at,
        _ => false,
    }
}

/// Whether the word is `deadline`.
fn is_deadline(kind: Kind) -> bool
    ensures { result ≡ same kind SpecKind.Deadline }
{
    match kind {
        Kind::Deadline => true,
        _ => false,
    }
}

/// An index, if there is one.
fn index(kind: Kind) -> Head
    ensures { head_of result ≡ automaton.index kind }
{
    match kind {
        Kind::Sign {
            at: sign::LEFT_BRACKET,
        } => Head::Inside {
            symbols: &[
                Symbol::Expression,
                Symbol::Sign {
                    at: sign::RIGHT_BRACKET,
                },
            ],
        },
        _ => Head::Refused,
    }
}

/// Arguments in parentheses.
fn arguments(kind: Kind) -> Head
    ensures { head_of result ≡ automaton.arguments kind }
{
    match kind {
        Kind::Sign {
            at: sign::LEFT_PAREN,
        } => Head::Inside {
            symbols: &[Symbol::FirstArgument],
        },
        _ => Head::Refused,
    }
}

/// What a word does to a symbol.
#[tactic(auto, unfolding(crate::specs::Automaton::turn))]
pub(crate) fn turn(symbol: Symbol, kind: Kind) -> Turn
    ensures { turn_of result ≡ automaton.turn symbol kind }
{
    match symbol {
        Symbol::Name => where_so(is_name(kind), &[]),
        Symbol::Keyword { at } => where_so(is_key(kind, at), &[]),
        Symbol::Sign { at } => where_so(is_sign(kind, at), &[]),
        Symbol::Declarations => Turn {
            head: declaration(kind),
            behind: &[Symbol::Declarations],
        },
        Symbol::Procedure => alone(procedure(kind)),
        Symbol::Function => alone(function(kind)),
        Symbol::Routine => alone(routine(kind)),
        Symbol::Routines => Turn {
            head: routine(kind),
            behind: &[Symbol::Routines],
        },
        Symbol::Entries => where_so(
            is_key(kind, keyword::ENTRY),
            &[Symbol::Routine, Symbol::Entries],
        ),
        Symbol::Members => Turn {
            head: member(kind),
            behind: &[Symbol::Members],
        },
        Symbol::Variables => where_so(
            is_key(kind, keyword::VAR),
            &[
                Symbol::Name,
                Symbol::Sign { at: sign::COLON },
                Symbol::VariableType,
                Symbol::Variables,
            ],
        ),
        Symbol::VariableType => alone(variable_type(kind)),
        Symbol::Scalar => alone(scalar(kind)),
        Symbol::Constant => alone(constant(kind)),
        Symbol::Unsigned => alone(unsigned(kind)),
        Symbol::FirstParameter => alone(first_parameter(kind)),
        Symbol::MoreParameters => where_so(
            is_sign(kind, sign::COMMA),
            &[
                Symbol::Name,
                Symbol::Sign { at: sign::COLON },
                Symbol::Scalar,
                Symbol::MoreParameters,
            ],
        ),
        Symbol::MoreNumbers => where_so(
            is_sign(kind, sign::COMMA),
            &[Symbol::Constant, Symbol::MoreNumbers],
        ),
        Symbol::Activation => alone(activation(kind)),
        Symbol::Deadline => where_so(is_deadline(kind), &[Symbol::Constant]),
        Symbol::First => where_so(
            is_key(kind, keyword::FIRST),
            &[
                Symbol::Keyword {
                    at: keyword::ACTIVATION,
                },
                Symbol::Keyword {
                    at: keyword::AT_TIME,
                },
                Symbol::Constant,
            ],
        ),
        Symbol::Handler => where_so(
            is_key(kind, keyword::HANDLER),
            &[
                Symbol::Sign {
                    at: sign::LEFT_PAREN,
                },
                Symbol::Constant,
                Symbol::MoreNumbers,
                Symbol::Sign {
                    at: sign::RIGHT_PAREN,
                },
                Symbol::Statements,
            ],
        ),
        Symbol::Way => where_so(is_key(kind, keyword::OUT) || is_key(kind, keyword::IN), &[]),
        Symbol::Statements => Turn {
            head: statement(kind),
            behind: &[Symbol::Statements],
        },
        Symbol::NamedStatement => named_statement(kind),
        Symbol::Else => alone(else_part(kind)),
        Symbol::Index => alone(index(kind)),
        Symbol::Assigned => assigned(kind),
        Symbol::AssignedName => assigned_name(kind),
        Symbol::Expression => Turn {
            head: factor(kind),
            behind: operators(),
        },
        Symbol::Factor => alone(factor(kind)),
        Symbol::NamedFactor => alone(named_factor(kind)),
        Symbol::Arguments => alone(arguments(kind)),
        Symbol::FirstArgument => first_argument(kind),
        Symbol::MoreArguments => where_so(
            is_sign(kind, sign::COMMA),
            &[Symbol::Expression, Symbol::MoreArguments],
        ),
        Symbol::Operators { level } => operator(level, kind),
        Symbol::Leave { .. } => alone(Head::Refused),
    }
}

/// Whether nothing at all may stand for the symbol.
pub(crate) fn is_optional(symbol: Symbol) -> bool
    ensures { result ≡ automaton.is_optional symbol }
{
    match symbol {
        Symbol::Declarations
        | Symbol::Routines
        | Symbol::Entries
        | Symbol::Members
        | Symbol::Variables
        | Symbol::MoreParameters
        | Symbol::MoreNumbers
        | Symbol::Deadline
        | Symbol::First
        | Symbol::Handler
        | Symbol::Statements
        | Symbol::Index
        | Symbol::AssignedName
        | Symbol::NamedFactor
        | Symbol::MoreArguments
        | Symbol::Operators { .. }
        | Symbol::Leave { .. } => true,
        _ => false,
    }
}
