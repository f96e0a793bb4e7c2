//! What the definitions find. These functions do nothing; their contracts are the laws.

ghost use Rattle.message_conduct.specs.Laws.{FindsMisplaced, FindsMisdirected, TellsEach};

/// Something is found wrong with a statement or a result exactly where the rule fails of it.
pub fn finds_each()
    ensures misplaced { FindsMisplaced }
    ensures misdirected { FindsMisdirected }
{}

/// A sentence is there exactly where one of the two rules fails.
pub fn tells_each()
    ensures { TellsEach }
{
    finds_each();
}
