//! Lists of variables.

ghost use Rattle.std.specs.Prelude.{◌≡◌, IfOk, map, option_map};
ghost use Rattle.source_semantics.specs.Store.{slot_named as named_slot};
ghost use Rattle.replay_state.specs.View.{held_of, slot_of, vars_of};
ghost use Rattle.replay_calls.specs.Places.{IsPlace};

use crate::equal;
use out_of_memory::OutOfMemory;
use replay_state::{Slot, SlotValue, Words};
use std::alloc::Global;
use syntax_tree::Name;

/// The first variable of that name.
pub fn slot_named<'s, 'a>(name: &Name, slots: &'s [Slot<'a>]) -> Option<&'s Slot<'a>>
    ensures { option_map (λ s. slot_of s.now) result ≡ named_slot name.now (vars_of slots.now) }
{
    for slot in slots {
        if equal(slot.name, name) {
            return Some(slot);
        }
    }
    None
}

/// The place of the first variable of that name.
pub fn place_named(name: &Name, slots: &[Slot<'_>]) -> Option<usize>
    ensures { IsPlace name.now (vars_of slots.now) result }
{
    for at in 0..slots.len() {
        if equal(slots[at].name, name) {
            return Some(at);
        }
    }
    None
}

/// The same words once more.
fn held_copied(alloc: Global, held: &SlotValue) -> Result<SlotValue, OutOfMemory>
    ensures { IfOk result (λ copy. held_of copy ≡ held_of held.now) }
{
    match held {
        SlotValue::One(word) => Ok(SlotValue::One(*word)),
        SlotValue::Many(words) => {
            let items = Vec::from_slice(alloc, words.items.as_slice())?;
            Ok(SlotValue::Many(Words {
                low: words.low,
                items,
            }))
        }
    }
}

/// The same variable once more.
fn slot_copied<'a>(alloc: Global, slot: &Slot<'a>) -> Result<Slot<'a>, OutOfMemory>
    ensures { IfOk result (λ copy. slot_of copy ≡ slot_of slot.now) }
{
    let held = held_copied(alloc, &slot.held)?;
    Ok(Slot {
        name: slot.name,
        range: slot.range,
        held,
    })
}

/// The same variables once more.
pub fn slots_copied<'a>(alloc: Global, slots: &[Slot<'a>]) -> Result<Vec<Slot<'a>>, OutOfMemory>
    ensures { IfOk result (λ copies. vars_of copies.items ≡ vars_of slots.now) }
{
    let mut copies = Vec::new(alloc);
    for slot in slots {
        let copy = slot_copied(alloc, slot)?;
        copies.push(copy)?;
    }
    Ok(copies)
}
