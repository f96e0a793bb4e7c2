//! What slots of due ticks are to the code above.

ghost use Rattle.std.specs.Prelude.{◌≡◌, ◌<◌, ℕ, List, Option, None, length, slice_set, slice_index_or};
ghost use Rattle.vm_stretch.specs.Due.{least};

/// By slot the tick at which something is due, if it is. No call takes memory.
pub trait Due {
    ghost ticks: { Self → List (Option ℕ) };

    /// The least of the ticks; `None` exactly where all are `None`.
    fn next(&self) -> Option<u64>
        ensures { result ≡ least (ticks self.now) };

    /// Makes the slot hold the tick, and leaves the others.
    fn set(&mut self, slot: usize, tick: Option<u64>)
        requires { slot < length (ticks self.old) }
        ensures { ticks self.new ≡ slice_set (ticks self.old) slot tick };

    /// The tick of the slot.
    fn at(&self, slot: usize) -> Option<u64>
        requires { slot < length (ticks self.now) }
        ensures { result ≡ slice_index_or (ticks self.now) slot None };
}
