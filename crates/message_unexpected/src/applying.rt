//! Which rows apply.

ghost use Rattle.std.specs.Prelude.{◌≡◌, List};
ghost use Rattle.message_unexpected.specs.Rows.{applies, is_comparison, is_keyword, is_operator};
ghost use Rattle.message_expected.specs.declared.kinds.Kind.{Kind as SpecKind};
ghost use Rattle.message_unexpected.specs.declared.rows.Row.TheVariants as row;

use crate::rows::{Facts, Row};
use message_expected::{Group, Kind, has, is_same, members};
use syntax::{keyword, sign};

/// `and`
const AND: Kind = Kind::Keyword { at: keyword::AND };

/// `boolean`
const BOOLEAN: Kind = Kind::Keyword {
    at: keyword::BOOLEAN,
};

/// `condition`
const CONDITION: Kind = Kind::Keyword {
    at: keyword::CONDITION,
};

/// `entry`
const ENTRY: Kind = Kind::Keyword { at: keyword::ENTRY };

/// `int`
const INT: Kind = Kind::Keyword { at: keyword::INT };

/// `put`
const PUT: Kind = Kind::Keyword { at: keyword::PUT };

/// `return`
const RETURN: Kind = Kind::Keyword {
    at: keyword::RETURN,
};

/// `var`
const VAR: Kind = Kind::Keyword { at: keyword::VAR };

/// `:=`
const ASSIGN: Kind = Kind::Sign { at: sign::ASSIGN };

/// `.`
const DOT: Kind = Kind::Sign { at: sign::DOT };

/// `=`
const EQUAL: Kind = Kind::Sign { at: sign::EQUAL };

/// `[`
const LEFT_BRACKET: Kind = Kind::Sign {
    at: sign::LEFT_BRACKET,
};

/// `(`
const LEFT_PAREN: Kind = Kind::Sign {
    at: sign::LEFT_PAREN,
};

/// `)`
const RIGHT_PAREN: Kind = Kind::Sign {
    at: sign::RIGHT_PAREN,
};

/// Whether the kind is that of an operator other than a comparison.
fn is_operator(kind: Kind) -> bool
    ensures { result ≡ is_operator kind }
{
    has(members(Group::Operator), kind)
}

/// Whether the kind is that of a comparison.
fn is_comparison(kind: Kind) -> bool
    ensures { result ≡ is_comparison kind }
{
    has(members(Group::Comparison), kind)
}

/// Whether the kind is that of a keyword.
fn is_keyword(kind: Kind) -> bool
    ensures { result ≡ is_keyword kind }
{
    match kind {
        Kind::Keyword { .. } => true,
        _ => false,
    }
}

/// Whether two signs `=` touch.
#[tactic(auto, unfolding(crate::specs::Rows::applies))]
fn is_second_equal(facts: Facts) -> bool
    ensures { (found : List SpecKind) → result ≡ applies found facts row.OneEqual }
{
    is_same(EQUAL, facts.word) && is_same(EQUAL, facts.before) && facts.is_touching
}

/// Whether a `=` stands for a `:=`.
#[tactic(auto, unfolding(crate::specs::Rows::applies))]
fn is_for_assignment(found: &[Kind], facts: Facts) -> bool
    ensures { result ≡ applies found.now facts row.Assigned }
{
    is_same(EQUAL, facts.word) && has(found, ASSIGN)
}

/// Whether an operator stands for a `:=`.
#[tactic(auto, unfolding(crate::specs::Rows::applies))]
fn is_in_target(found: &[Kind], facts: Facts) -> bool
    ensures { result ≡ applies found.now facts row.Increased }
{
    is_operator(facts.word) && has(found, ASSIGN)
}

/// Whether a point stands behind a number.
#[tactic(auto, unfolding(crate::specs::Rows::applies))]
fn is_fraction(facts: Facts) -> bool
    ensures { (found : List SpecKind) → result ≡ applies found facts row.Fraction }
{
    is_same(DOT, facts.word) && is_same(Kind::Number, facts.before)
}

/// Whether letters stand right behind a number.
#[tactic(auto, unfolding(crate::specs::Rows::applies))]
fn is_in_number(facts: Facts) -> bool
    ensures { (found : List SpecKind) → result ≡ applies found facts row.Digits }
{
    is_same(Kind::Name, facts.word) && is_same(Kind::Number, facts.before) && facts.is_touching
}

/// Whether a point stands behind a name.
#[tactic(auto, unfolding(crate::specs::Rows::applies))]
fn is_entry_call(facts: Facts) -> bool
    ensures { (found : List SpecKind) → result ≡ applies found facts row.EntryCall }
{
    is_same(DOT, facts.word) && is_same(Kind::Name, facts.before)
}

/// Whether an operator stands behind a call of an entry.
#[tactic(auto, unfolding(crate::specs::Rows::applies))]
fn is_behind_call(found: &[Kind], facts: Facts) -> bool
    ensures { result ≡ applies found.now facts row.CallAlone }
{
    (is_operator(facts.word) || is_comparison(facts.word))
        && is_same(RIGHT_PAREN, facts.before)
        && has(found, PUT)
        && !has(found, AND)
}

/// Whether a comparison stands behind another.
#[tactic(auto, unfolding(crate::specs::Rows::applies))]
fn is_second_comparison(found: &[Kind], facts: Facts) -> bool
    ensures { result ≡ applies found.now facts row.TwoComparisons }
{
    is_comparison(facts.word) && has(found, AND)
}

/// Whether an operator stands behind a constant.
#[tactic(auto, unfolding(crate::specs::Rows::applies))]
fn is_behind_constant(found: &[Kind], facts: Facts) -> bool
    ensures { result ≡ applies found.now facts row.OneConstant }
{
    is_operator(facts.word)
        && has(&[Kind::Name, Kind::Number], facts.before)
        && !(has(found, AND) || has(found, Kind::Number))
}

/// Whether a value stands where a variable is declared.
#[tactic(auto, unfolding(crate::specs::Rows::applies))]
fn is_begun(found: &[Kind], facts: Facts) -> bool
    ensures { result ≡ applies found.now facts row.Begun }
{
    has(&[ASSIGN, EQUAL], facts.word) && has(found, VAR)
}

/// Whether a parenthesis stands behind a keyword.
#[tactic(auto, unfolding(crate::specs::Rows::applies))]
fn is_behind_keyword(facts: Facts) -> bool
    ensures { (found : List SpecKind) → result ≡ applies found facts row.NoParentheses }
{
    is_same(LEFT_PAREN, facts.word) && is_keyword(facts.before)
}

/// Whether a variable is declared among the statements.
#[tactic(auto, unfolding(crate::specs::Rows::applies))]
fn is_declared(found: &[Kind], facts: Facts) -> bool
    ensures { result ≡ applies found.now facts row.Declared }
{
    has(&[VAR, INT, BOOLEAN], facts.word) && (has(found, PUT) || has(found, VAR))
}

/// Whether an index stands behind a type.
#[tactic(auto, unfolding(crate::specs::Rows::applies))]
fn is_array(facts: Facts) -> bool
    ensures { (found : List SpecKind) → result ≡ applies found facts row.ArrayType }
{
    is_same(LEFT_BRACKET, facts.word) && has(&[INT, BOOLEAN], facts.before)
}

/// Whether a variable of a monitor stands behind an entry.
#[tactic(auto, unfolding(crate::specs::Rows::applies))]
fn is_late_variable(found: &[Kind], facts: Facts) -> bool
    ensures { result ≡ applies found.now facts row.MonitorVariable }
{
    has(&[VAR, CONDITION], facts.word) && has(found, ENTRY)
}

/// Whether a keyword stands for a name.
#[tactic(auto, unfolding(crate::specs::Rows::applies))]
fn is_reserved(found: &[Kind], facts: Facts) -> bool
    ensures { result ≡ applies found.now facts row.Reserved }
{
    is_keyword(facts.word)
        && has(found, Kind::Name)
        && !has(found, Kind::Number)
        && (facts.is_on_line && !has(found, PUT) || facts.is_assigned)
}

/// Whether a `return` stands among the statements.
#[tactic(auto, unfolding(crate::specs::Rows::applies))]
fn is_returned(facts: Facts) -> bool
    ensures { (found : List SpecKind) → result ≡ applies found facts row.Returned }
{
    is_same(RETURN, facts.word)
}

/// Whether an `if` stands behind an `else`.
#[tactic(auto, unfolding(crate::specs::Rows::applies))]
fn is_else_if(facts: Facts) -> bool
    ensures { (found : List SpecKind) → result ≡ applies found facts row.ElseIf }
{
    facts.has_else_if
}

/// Whether the row applies, where these kinds are expected.
pub(crate) fn applies(found: &[Kind], facts: Facts, row: Row) -> bool
    ensures { result ≡ applies found.now facts row }
{
    match row {
        Row::OneEqual => is_second_equal(facts),
        Row::Assigned => is_for_assignment(found, facts),
        Row::Increased => is_in_target(found, facts),
        Row::Fraction => is_fraction(facts),
        Row::Digits => is_in_number(facts),
        Row::EntryCall => is_entry_call(facts),
        Row::CallAlone => is_behind_call(found, facts),
        Row::TwoComparisons => is_second_comparison(found, facts),
        Row::OneConstant => is_behind_constant(found, facts),
        Row::Begun => is_begun(found, facts),
        Row::NoParentheses => is_behind_keyword(facts),
        Row::Returned => is_returned(facts),
        Row::Declared => is_declared(found, facts),
        Row::ArrayType => is_array(facts),
        Row::MonitorVariable => is_late_variable(found, facts),
        Row::Reserved => is_reserved(found, facts),
        Row::ElseIf => is_else_if(facts),
    }
}
