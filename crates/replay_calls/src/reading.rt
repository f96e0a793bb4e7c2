//! What variables hold.

ghost use Rattle.std.specs.Prelude.{◌≡◌};
ghost use Rattle.base.specs.Words.{with_word};
ghost use Rattle.source_semantics.specs.Store.{read as read_held, read_at as read_held_at};
ghost use Rattle.source_semantics.specs.Run.{read_element, slot_in, value_of};
ghost use Rattle.replay_state.specs.View.{held_of, home_of};
ghost use Rattle.replay_calls.specs.Seen.{answer_of};
ghost use Rattle.replay_calls.specs.Reach.{memory_of, site_of};

use crate::memory::Memory;
use crate::{Answer, EvalContext, place_at};
use replay_state::{CallOwner, SlotValue};
use syntax_tree::Name;

/// What a variable holds, 0 for a whole array.
fn read(held: &SlotValue) -> Answer
    ensures { answer_of result ≡ read_held (held_of held.now) }
{
    match held {
        SlotValue::One(word) => Answer::Word(*word),
        SlotValue::Many(_) => Answer::Word(0),
    }
}

/// What an element of a variable holds.
fn read_at(held: &SlotValue, index: i64) -> Answer
    ensures { answer_of result ≡ read_held_at (held_of held.now) index }
{
    match held {
        SlotValue::One(word) => Answer::Word(*word),
        SlotValue::Many(words) => match place_at(words.low, words.items.as_slice(), index) {
            None => Answer::Raised(3),
            Some(at) => Answer::Word(words.items[at]),
        },
    }
}

/// What a name is worth: what the variable in reach holds, else the value of the constant.
pub fn name_value(
    scope: &EvalContext<'_>,
    home: CallOwner,
    depth: usize,
    memory: &Memory<'_, '_>,
    name: &Name,
) -> Answer
    ensures { answer_of result ≡
        value_of (site_of scope.now home depth) (memory_of memory.now) name.now }
{
    match memory.slot_in(home, name) {
        Some(slot) => read(&slot.held),
        None => Answer::Word(scope.declarations.constant(name)),
    }
}

/// What the element at an index holds, where the index is no exception.
pub fn element(home: CallOwner, memory: &Memory<'_, '_>, name: &Name, index: Answer) -> Answer
    ensures { answer_of result ≡ with_word (answer_of index) (λ v. read_element
        (slot_in (home_of home) (memory_of memory.now) name.now) v) }
{
    match index {
        Answer::Raised(_) => index,
        Answer::Word(at) => match memory.slot_in(home, name) {
            None => Answer::Word(0),
            Some(slot) => read_at(&slot.held, at),
        },
    }
}
