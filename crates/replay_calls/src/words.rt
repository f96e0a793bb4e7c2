//! Answers: words, and the numbers of exceptions.

ghost use Rattle.std.specs.Prelude.{◌≡◌, ◌<◌, ◌^◌};
ghost use Rattle.base.specs.Words.{is_word as is_a_word, is_true as is_truth, sum, difference, product, quotient, remainder, negated as negative, of_bool, word};
ghost use Rattle.syntax_tree.specs.Placed.{op_of};
ghost use Rattle.source_semantics.specs.Operators.{operated as operated_on};
ghost use Rattle.replay_calls.specs.Seen.{answer_of, value_in};

use syntax_tree::Op;

/// A value, or the number of the exception that is raised.
#[derive(Clone, Copy)]
pub enum Answer {
    Word(i64),
    Raised(u32),
}

/// The number where it is a word, else overflow.
fn in_word(value: Option<i64>) -> Answer
    ensures { answer_of result ≡ value_in value }
{
    match value {
        Some(value) if -2_147_483_648 <= value && value <= 2_147_483_647 => Answer::Word(value),
        _ => Answer::Raised(1),
    }
}

pub fn truth(holds: bool) -> Answer
    ensures { answer_of result ≡ word (of_bool holds) }
{
    Answer::Word(if holds { 1 } else { 0 })
}

pub fn is_true(value: i64) -> bool
    ensures { result ≡ is_truth value }
{
    value != 0
}

/// The exact negation; 1 where it is no word.
#[tactic(auto, using(crate::proofs::NoWord::no_word))]
pub fn negated(value: i64) -> Answer
    ensures { answer_of result ≡ negative value }
{
    in_word(value.checked_neg())
}

#[tactic(auto, using(crate::proofs::NoWord::no_word))]
fn added(a: i64, b: i64) -> Answer
    ensures { answer_of result ≡ sum a b }
{
    in_word(a.checked_add(b))
}

#[tactic(auto, using(crate::proofs::NoWord::no_word))]
fn less(a: i64, b: i64) -> Answer
    ensures { answer_of result ≡ difference a b }
{
    in_word(a.checked_sub(b))
}

#[tactic(auto, using(crate::proofs::NoWord::no_word))]
fn times(a: i64, b: i64) -> Answer
    ensures { answer_of result ≡ product a b }
{
    in_word(a.checked_mul(b))
}

#[tactic(auto, using(crate::proofs::NoWord::no_word))]
fn divided(a: i64, b: i64) -> Answer
    ensures { answer_of result ≡ quotient a b }
{
    if b == 0 {
        return Answer::Raised(2);
    }
    in_word(a.checked_div(b))
}

fn left_of(a: i64, b: i64) -> Answer
    ensures { answer_of result ≡ remainder a b }
{
    match b {
        0 => Answer::Raised(2),
        -1 => Answer::Word(0),
        _ => Answer::Word(a % b),
    }
}

/// What an operator makes of two words.
pub fn operated(op: Op, a: i64, b: i64) -> Answer
    ensures { answer_of result ≡ operated_on (op_of op) a b }
{
    match op {
        Op::Or => truth(is_true(a) || is_true(b)),
        Op::And => truth(is_true(a) && is_true(b)),
        Op::Equal => truth(a == b),
        Op::Unequal => truth(a != b),
        Op::Less => truth(a < b),
        Op::LessEqual => truth(a <= b),
        Op::Greater => truth(b < a),
        Op::GreaterEqual => truth(b <= a),
        Op::Add => added(a, b),
        Op::Sub => less(a, b),
        Op::Mul => times(a, b),
        Op::Div => divided(a, b),
        Op::Mod => left_of(a, b),
    }
}
