//! The variables in reach.

ghost use Rattle.std.specs.Prelude.{◌≡◌, IfOk, option_map};
ghost use Rattle.source_semantics.specs.Run.{slot_in as slot_in_reach};
ghost use Rattle.replay_state.specs.View.{home_of, slot_of, vars_of};
ghost use Rattle.replay_calls.specs.Reach.{area_of, memory_of};

use crate::slots::{slot_named, slots_copied};
use out_of_memory::OutOfMemory;
use replay_state::{CallOwner, Slot};
use std::alloc::Global;
use std::mem;
use syntax_tree::Name;

/// Variables beside a call's own: lent, and a copy of them once something was stored to one.
#[derive(Drop)]
pub struct CowSlots<'s, 'a> {
    pub lent: &'s [Slot<'a>],
    pub kept: Option<Vec<Slot<'a>>>,
}

/// A call's own variables, the process's, and those of the monitor that it is inside.
#[derive(Drop)]
pub struct Memory<'s, 'a> {
    pub own: Vec<Slot<'a>>,
    pub process: CowSlots<'s, 'a>,
    pub monitor: CowSlots<'s, 'a>,
}

/// Variables that are lent.
pub fn lent<'s, 'a>(slots: &'s [Slot<'a>]) -> CowSlots<'s, 'a>
    ensures { area_of result ≡ vars_of slots.now }
{
    CowSlots {
        lent: slots,
        kept: None,
    }
}

impl<'s, 'a> CowSlots<'s, 'a> {
    /// The variables.
    pub fn as_slice(&self) -> &[Slot<'a>]
        ensures { vars_of result.now ≡ area_of self.now }
    {
        match &self.kept {
            None => self.lent,
            Some(slots) => slots.as_slice(),
        }
    }

    /// The variables as a list of their own, which the area does not keep any more.
    pub fn take(&mut self, alloc: Global) -> Result<Vec<Slot<'a>>, OutOfMemory>
        ensures { IfOk result (λ slots. vars_of slots.items ≡ area_of self.old) }
    {
        match mem::replace(&mut self.kept, None) {
            None => slots_copied(alloc, self.lent),
            Some(slots) => Ok(slots),
        }
    }

    /// The variables are these now.
    pub fn keep(&mut self, slots: Vec<Slot<'a>>)
        ensures { area_of self.new ≡ vars_of slots.entry.items }
    {
        self.kept = Some(slots);
    }
}

impl<'s, 'a> Memory<'s, 'a> {
    /// The first variable of that name in reach.
    pub fn slot_in(&self, home: CallOwner, name: &Name) -> Option<&Slot<'a>>
        ensures { option_map (λ s. slot_of s.now) result ≡
            slot_in_reach (home_of home) (memory_of self.now) name.now }
    {
        match slot_named(name, self.own.as_slice()) {
            Some(slot) => Some(slot),
            None => match home {
                CallOwner::Program => None,
                CallOwner::Process => slot_named(name, self.process.as_slice()),
                CallOwner::Monitor(_) => slot_named(name, self.monitor.as_slice()),
            },
        }
    }
}
