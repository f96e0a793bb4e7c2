//! What the slots of due ticks tell of the start events of a tick.
//!
//! `specs/StartLawsDue.antt` says when slots are right before the start events of a tick (`HasDue`), and how
//! they are moved on (`AreMoved`). The laws of `specs/StartLaws.antt`: slots that are right after the
//! start events of one tick are right before those of the next at which one is due; only what is
//! due starts; and slots that are moved on are right after the start events. The laws alone stand
//! here; nothing can run.
//!
//! The laws, for every image, every script and every state.

ghost use Rattle.vm_stretch.specs.StartLaws.{DueAreReleased, MovedAreSlots, SlotsAreDue, StartsAreFew, WaitKeepsSlots};

/// Up to the least of the slots they are right before each tick.
pub fn slots_are_due()
    ensures { SlotsAreDue }
{}

/// The clock releases exactly those processes whose slot is due.
pub fn due_are_released()
    ensures { DueAreReleased }
{}

/// Once what was due is moved on, the slots are right after the start events.
pub fn moved_are_slots()
    ensures { MovedAreSlots }
{}

/// No more start events fall than there are processes.
pub fn starts_are_few()
    ensures { StartsAreFew }
{}

/// As a process begins to wait, or waits no more, its slot alone is set.
pub fn wait_keeps_slots()
    ensures { WaitKeepsSlots }
{}
