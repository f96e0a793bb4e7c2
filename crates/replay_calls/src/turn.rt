//! Variables of loops.

ghost use Rattle.std.specs.Prelude.{◌≡◌, ◌-ℤ◌, ◌≤ℤ◌, OnOk, negsuc, pos};
ghost use Rattle.source_semantics.specs.Store.{up_to};
ghost use Rattle.source_semantics.specs.Run as run_of;
ghost use Rattle.replay_state.specs.View.{vars_of};

use out_of_memory::OutOfMemory;
use replay_state::{Slot, SlotValue};
use syntax_tree::Name;

/// The loop's variable comes into reach.
pub fn push_turn<'a>(own: &mut Vec<Slot<'a>>, name: &'a Name, value: i64) -> Result<(), OutOfMemory>
    ensures { OnOk result ((m : run_of.Memory) →
        run_of.with_turn name.now value (run_of.with_own m (vars_of own.old.items)) ≡
        run_of.with_own m (vars_of own.new.items)) }
{
    let slot = Slot {
        name,
        range: None,
        held: SlotValue::One(value),
    };
    own.insert(0, slot)?;
    Ok(())
}

/// The loop's variable goes out of reach.
pub fn drop_turn(own: &mut Vec<Slot<'_>>)
    ensures { (m : run_of.Memory) → run_of.without_turn
        (run_of.with_own m (vars_of own.old.items)) ≡ run_of.with_own m (vars_of own.new.items) }
{
    if !own.is_empty() {
        own.remove(0);
    }
}

/// How many turns a loop has.
pub fn turn_count(low: i64, high: i64) -> u64
    requires low { (negsuc 4294967294 ≤ℤ low) × (low ≤ℤ pos 4294967295) }
    requires high { (negsuc 4294967294 ≤ℤ high) × (high ≤ℤ pos 4294967295) }
    ensures { result ≡ up_to (high -ℤ low) }
{
    let more = high - low;
    if more < 0 { 0 } else { more.unsigned_abs() + 1 }
}
