//! Operators on answers: an exception stays what it is.

ghost use Rattle.std.specs.Prelude.{◌≡◌};
ghost use Rattle.base.specs.Words.{negated as negative, with_word};
ghost use Rattle.syntax_tree.specs.Placed.{op_of};
ghost use Rattle.source_semantics.specs.Operators.{operated as operated_on};
ghost use Rattle.source_semantics.specs.Run.{operated_not};
ghost use Rattle.replay_calls.specs.Seen.{answer_of};

use crate::{Answer, is_true, negated, operated, truth};
use syntax_tree::Op;

/// The exact negation.
pub fn minus(answer: Answer) -> Answer
    ensures { answer_of result ≡ with_word (answer_of answer) (λ v. negative v) }
{
    match answer {
        Answer::Raised(_) => answer,
        Answer::Word(word) => negated(word),
    }
}

/// The other truth value.
pub fn opposite(answer: Answer) -> Answer
    ensures { answer_of result ≡ with_word (answer_of answer) (λ v. operated_not v) }
{
    match answer {
        Answer::Raised(_) => answer,
        Answer::Word(word) => truth(!is_true(word)),
    }
}

/// What an operator makes of a word and of the answer right of it.
fn word_joined(op: Op, left: i64, right: Answer) -> Answer
    ensures { answer_of result ≡ with_word (answer_of right) (λ w. operated_on (op_of op) left w) }
{
    match right {
        Answer::Raised(_) => right,
        Answer::Word(word) => operated(op, left, word),
    }
}

/// What an operator makes of two answers, of which the left one comes first.
pub fn joined(op: Op, left: Answer, right: Answer) -> Answer
    ensures { answer_of result ≡ with_word (answer_of left) (λ v.
        with_word (answer_of right) (λ w. operated_on (op_of op) v w)) }
{
    match left {
        Answer::Raised(_) => left,
        Answer::Word(word) => word_joined(op, word, right),
    }
}
