//! The events of a turn.

ghost use Rattle.std.specs.Prelude.{◌≡◌, ◌<◌, ◌+◌, ◌++◌, ◌∷◌, []};
ghost use Rattle.arrayvec.specs.ArrayVec.{array_vec_len};

use arrayvec::ArrayVec;
use base::{Act, Event};

/// The most events of a tick: a start of each of 64 processes, and one act.
pub const MOST: usize = 65;

/// The events of a turn, in order.
pub type EventBuffer = ArrayVec<Event, MOST>;

/// Adds an act of a process at a tick.
#[inline(always)]
pub fn tell(fired: &mut EventBuffer, tick: u64, proc: u16, act: Act)
    requires { array_vec_len fired.old < 65 }
    ensures events { fired.new.items ≡ fired.old.items ++
        record { tick = tick; proc = proc; act = act } ∷ [] }
    ensures len { array_vec_len fired.new ≡ array_vec_len fired.old + 1 }
{
    fired.push(Event { tick, proc, act });
}
