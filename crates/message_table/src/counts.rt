//! No process, and processes, monitors and stays that are too many.

ghost use Rattle.std.specs.Prelude.{◌≡◌, ◌&&◌, IfOk, OnOk, bytes_eq, map, not};
ghost use Rattle.std.specs.List.{list_any};
ghost use Rattle.message_table.specs.Counts.{count_found as count_in, if_full as fault_if};
ghost use Rattle.message_table.specs.Counts.{is_known as known_in, key_fault as key_fault_in};
ghost use Rattle.message_table.specs.Counts.{miscounted as miscounted_at, name_fault as name_fault_in};
ghost use Rattle.message_table.specs.Counts.{with_key, with_monitor, with_name, with_word};
ghost use Rattle.message_table.specs.Counts.{word_fault as word_fault_in};
ghost use Rattle.message_table.specs.Seen.{mark_of, room_of};

use crate::fault::{CountFault, Fault, Found};
use crate::mark::Marked;
use crate::part::{Part, Role};
use out_of_memory::OutOfMemory;
use std::alloc::Global;

/// How many more processes and stays may come, and the monitors so far, each once.
#[derive(Drop)]
struct Room<'a> {
    processes: u16,
    stays: u16,
    monitors: Vec<&'a [u8]>,
}

/// The fault, if there is no room.
fn if_full(is_full: bool, fault: CountFault) -> Option<CountFault>
    ensures { result ≡ fault_if is_full fault }
{
    if is_full { Some(fault) } else { None }
}

/// Whether a word is one of these.
fn is_among(words: &[&[u8]], word: &[u8]) -> bool
    ensures { result ≡ list_any (λ other. bytes_eq other word.now)
        (map (λ other. other.now) words.now) }
{
    for other in words {
        if *other == word {
            return true;
        }
    }
    false
}

impl<'a> Room<'a> {
    /// Whether a monitor is named already.
    fn is_known(&self, word: &[u8]) -> bool
        ensures { result ≡ known_in (room_of self.now) word.now }
    {
        is_among(self.monitors.as_slice(), word)
    }

    /// What the key of a part is too much of.
    fn key_fault(&self, of: Part) -> Option<CountFault>
        ensures { result ≡ key_fault_in (room_of self.now) of }
    {
        match of {
            Part::End => if_full(self.processes == 64, CountFault::NoProcess),
            Part::Process => if_full(self.processes == 0, CountFault::Process),
            Part::Stay => if_full(self.stays == 0, CountFault::Stay),
            _ => None,
        }
    }

    /// What the name in a part is too much of.
    fn name_fault(&self, of: Part, word: &[u8]) -> Option<CountFault>
        ensures { result ≡ name_fault_in (room_of self.now) of word.now }
    {
        if !of.is_stay() {
            return None;
        }
        if_full(
            self.monitors.len() == 64 && !self.is_known(word),
            CountFault::Monitor,
        )
    }

    /// What a word is too much of.
    fn word_fault(&self, role: Role, word: &[u8]) -> Option<CountFault>
        ensures { result ≡ word_fault_in (room_of self.now) role word.now }
    {
        match role {
            Role::Key { of } => self.key_fault(of),
            Role::Name { of } => self.name_fault(of, word),
            Role::Ticks { .. } | Role::NoKey { .. } | Role::NoTicks { .. } => None,
        }
    }

    /// Takes the room of the key of a part.
    fn add_key(&mut self, of: Part)
        ensures { room_of self.new ≡ with_key (room_of self.old) of }
    {
        match of {
            Part::Process => self.processes = self.processes.saturating_sub(1),
            Part::Stay => self.stays = self.stays.saturating_sub(1),
            _ => {}
        }
    }

    /// Takes the room of the name in a part.
    fn add_name(&mut self, of: Part, word: &'a [u8]) -> Result<(), OutOfMemory>
        ensures { OnOk result (room_of self.new ≡ with_name (room_of self.old) of word.entry.now) }
    {
        if of.is_stay() && !self.is_known(word) {
            self.monitors.push(word)?;
        }
        Ok(())
    }

    /// Takes the room of a word.
    fn add_word(&mut self, role: Role, word: &'a [u8]) -> Result<(), OutOfMemory>
        ensures { OnOk result
            (room_of self.new ≡ with_word (room_of self.old) role word.entry.now) }
    {
        match role {
            Role::Key { of } => {
                self.add_key(of);
                Ok(())
            }
            Role::Name { of } => self.add_name(of, word),
            Role::Ticks { .. } | Role::NoKey { .. } | Role::NoTicks { .. } => Ok(()),
        }
    }
}

/// What is wrong at a word that is too much.
fn miscounted(mark: &Marked<'_>, fault: CountFault) -> Found
    ensures { result ≡ miscounted_at (mark_of mark.now) fault }
{
    Found {
        column: mark.column,
        width: mark.word.len(),
        fault: Fault::Count { fault },
    }
}

/// The first word that is too much.
pub(crate) fn count_found(alloc: Global, marks: &[Marked<'_>]) -> Result<Option<Found>, OutOfMemory>
    ensures { IfOk result (λ found. found ≡ count_in (map mark_of marks.now)) }
{
    let mut room = Room {
        processes: 64,
        stays: 512,
        monitors: Vec::new(alloc),
    };
    for mark in marks {
        if let Some(fault) = room.word_fault(mark.role, mark.word) {
            return Ok(Some(miscounted(mark, fault)));
        }
        room.add_word(mark.role, mark.word)?;
    }
    Ok(None)
}
