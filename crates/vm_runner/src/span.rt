//! How long nothing starts.

ghost use Rattle.std.specs.Prelude.{◌≡◌, ◌≤◌, ◌<◌, ◌+◌, ◌⊎◌, Some};
ghost use Rattle.vm_stretch.specs.Due.{least};
ghost use Rattle.vm_stretch.specs.StretchDue.{NoneBefore};

use vm_releases::Timers;

/// The ticks from this one up to the end or to the next at which something is due.
#[inline(always)]
pub(crate) fn span(agenda: &Timers, tick: u64, end: u64) -> u64
    requires before { tick < end }
    requires later { NoneBefore (tick + 1) agenda.now.slots }
    ensures some { 1 ≤ result }
    ensures within { tick + result ≤ end }
    ensures clear { NoneBefore (tick + result) agenda.now.slots }
    ensures reach { (tick + result ≡ end) ⊎ (least agenda.now.slots ≡ Some (tick + result)) }
{
    match agenda.next_due() {
        Some(due) => due.min(end) - tick,
        None => end - tick,
    }
}
