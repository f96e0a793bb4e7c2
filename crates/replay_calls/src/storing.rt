//! Stores to variables.

ghost use Rattle.std.specs.Prelude.{◌≡◌, ◌<◌, IfOk, option_map, vec_len};
ghost use Rattle.source_semantics.specs.Store.{in_range as is_in_range, stored};
ghost use Rattle.source_semantics.specs.Run.{store_to as store_in_reach};
ghost use Rattle.replay_state.specs.View.{held_of, home_of, range_of, slot_of, target_of, vars_of};
ghost use Rattle.replay_calls.specs.Reach.{area_of, memory_of};
ghost use Rattle.replay_calls.specs.Stores.{IsStored, IsStoredAt, IsTried, accepted, put_named, put_slot, store_run};

use crate::memory::{CowSlots, Memory};
use crate::place_at;
use crate::slots::place_named;
use out_of_memory::OutOfMemory;
use replay_state::{CallOwner, Slot, SlotValue, Subrange, Target};
use std::alloc::Global;
use syntax_tree::Name;

/// What a store to one of a list of variables came to.
#[derive(Clone, Copy)]
pub enum StoreResult {
    /// None of them has that name.
    Absent,
    /// The value is out of its range, or the index out of its bounds.
    Refused,
    Done,
}

/// Whether a value keeps to the range, if there is one.
pub fn in_range(range: Option<Subrange>, value: i64) -> bool
    ensures { result ≡ is_in_range (option_map range_of range) value }
{
    match range {
        None => true,
        Some(range) => range.low <= value && value <= range.high,
    }
}

/// Stores a word, where the index is within its bounds.
fn put_word(held: &mut SlotValue, index: Option<i64>, value: i64) -> bool
    ensures { IsTried (stored (held_of held.old) index value) (held_of held.old) result
        (held_of held.new) }
{
    match held {
        SlotValue::One(word) => {
            *word = value;
            true
        }
        SlotValue::Many(words) => match index {
            None => true,
            Some(index) => match place_at(words.low, words.items.as_slice(), index) {
                None => false,
                Some(at) => {
                    words.items[at] = value;
                    true
                }
            },
        },
    }
}

/// Stores a word, where it keeps to the range and the index is within its bounds.
fn put_slot_word(slot: &mut Slot<'_>, index: Option<i64>, value: i64) -> bool
    ensures { IsTried (put_slot index value (slot_of slot.old)) (slot_of slot.old) result
        (slot_of slot.new) }
{
    if in_range(slot.range, value) {
        put_word(&mut slot.held, index, value)
    } else {
        false
    }
}

/// A store to the variable at a place.
fn store_at(slots: &mut Vec<Slot<'_>>, at: usize, index: Option<i64>, value: i64) -> bool
    requires { at < vec_len slots.old }
    ensures { IsStoredAt (vars_of slots.old.items) at index value result
        (vars_of slots.new.items) }
{
    put_slot_word(&mut slots[at], index, value)
}

/// A store to the first variable of that name.
fn store_in(slots: &mut Vec<Slot<'_>>, name: &Name, index: Option<i64>, value: i64) -> StoreResult
    ensures { IsStored (put_named name.now index value (vars_of slots.old.items))
        (vars_of slots.old.items) result (vars_of slots.new.items) }
{
    match place_named(name, slots.as_slice()) {
        None => StoreResult::Absent,
        Some(at) => {
            if store_at(slots, at, index, value) {
                StoreResult::Done
            } else {
                StoreResult::Refused
            }
        }
    }
}

/// A store to the first variable of that name beside the call's own.
fn store_beside<'a>(
    alloc: Global,
    area: &mut CowSlots<'_, 'a>,
    name: &Name,
    index: Option<i64>,
    value: i64,
) -> Result<StoreResult, OutOfMemory>
    ensures { IfOk result (λ stored. IsStored (put_named name.now index value (area_of area.old))
        (area_of area.old) stored (area_of area.new)) }
{
    let mut slots = area.take(alloc)?;
    let stored = store_in(&mut slots, name, index, value);
    area.keep(slots);
    Ok(stored)
}

/// Whether what was to be stored is stored, or there is no such variable.
fn is_accepted(stored: StoreResult) -> bool
    ensures { result ≡ accepted stored }
{
    match stored {
        StoreResult::Refused => false,
        StoreResult::Absent | StoreResult::Done => true,
    }
}

/// A store to a variable in reach: false where the value is out of its range or the index out of
/// its bounds.
pub fn store_to<'a>(
    alloc: Global,
    memory: &mut Memory<'_, 'a>,
    home: CallOwner,
    target: Target<'a>,
    value: i64,
) -> Result<bool, OutOfMemory>
    ensures { IfOk result (λ done. store_run done (memory_of memory.new) ≡
        store_in_reach (home_of home) (memory_of memory.old) (target_of target.entry) value) }
{
    match store_in(&mut memory.own, target.name, target.index, value) {
        StoreResult::Done => Ok(true),
        StoreResult::Refused => Ok(false),
        StoreResult::Absent => match home {
            CallOwner::Program => Ok(true),
            CallOwner::Process => {
                let area = &mut memory.process;
                let stored = store_beside(alloc, area, target.name, target.index, value)?;
                Ok(is_accepted(stored))
            }
            CallOwner::Monitor(_) => {
                let area = &mut memory.monitor;
                let stored = store_beside(alloc, area, target.name, target.index, value)?;
                Ok(is_accepted(stored))
            }
        },
    }
}
