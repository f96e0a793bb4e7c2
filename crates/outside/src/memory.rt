//! Files in memory, with calls that fail as told.

ghost use Rattle.std.specs.Prelude.{◌≡◌, ◌≢◌, ℕ, List, [], Some, None, OnOk, OnErr};
ghost use Rattle.std.specs.Option.{option_copied};
ghost use Rattle.out_of_memory.specs.Refused.{refused};
ghost use Rattle.outside.specs.Calls.{HasFailed, ReadAnswers, ReadsAs, WriteAnswers, next, next_fails, read_failed, write_failed};
ghost use Rattle.outside.specs.Kept.{count_of, names_in};
ghost use Rattle.outside.specs.Memory.{held_of, names_read, names_written, read_faults_of, write_faults_of, reads_of, state_of, writes_of};
ghost use Rattle.outside.specs.Outside.{AllStay, CountsFailure, IsAdded, IsAddedAtMost, NoneFell, OneMore, OthersStay, Rose, SameCounts};

use crate::outside::{Files, ReadFault, WriteFault};
use out_of_memory::OutOfMemory;
use std::alloc::Global;
use std::collections::BTreeMap;

/// Named files in memory. Reads and writes are counted apart, from 1, and one whose number stands
/// in its list fails. A read of a missing name fails too. The names are kept; where there is no
/// memory for one, nothing is tried.
#[derive(Drop)]
pub struct MemoryFiles {
    alloc: Global,
    store: BTreeMap<String, Vec<u8>>,
    bad_reads: Vec<u64>,
    bad_writes: Vec<u64>,
    reads: u64,
    writes: u64,
    names_read: Vec<String>,
    names_written: Vec<String>,
    failed_reads: Vec<String>,
    failed_writes: Vec<String>,
}

/// Keeps the name of a call.
pub(crate) fn keep(alloc: Global, names: &mut Vec<String>, name: &str) -> Result<(), OutOfMemory>
    ensures kept { OnOk result (OneMore (count_of names.old.items)
        (count_of names.new.items) name.now) }
    ensures err { OnErr result (SameCounts (count_of names.old.items) (count_of names.new.items)) }
    ensures counts { NoneFell (count_of names.old.items) (count_of names.new.items) }
    ensures added { OnOk result (IsAdded (names_in names.old.items)
        (names_in names.new.items) name.now) }
    ensures same { OnErr result (names_in names.new.items ≡ names_in names.old.items) }
{
    names.push(String::from_str(alloc, name)?)?;
    Ok(())
}

/// The answer of a read that fails.
fn refuse(alloc: Global, names: &mut Vec<String>, name: &str) -> Result<Vec<u8>, ReadFault>
    ensures refused { HasFailed result }
    ensures failed { result ≡ Err ReadFault.Failed →
        Rose (count_of names.old.items name.now) (count_of names.new.items name.now) }
    ensures faults { CountsFailure (read_failed result) (count_of names.old.items)
        (count_of names.new.items) name.now }
    ensures counts { NoneFell (count_of names.old.items) (count_of names.new.items) }
{
    match keep(alloc, names, name) {
        Ok(()) => Err(ReadFault::Failed),
        Err(error) => Err(ReadFault::Memory(error)),
    }
}

/// A copy of the bytes, where they are at most `most`.
pub(crate) fn copy_within(alloc: Global, bytes: &[u8], most: usize) -> Result<Vec<u8>, ReadFault>
    ensures { ReadsAs bytes.now most result }
{
    if bytes.len() > most {
        return Err(ReadFault::Long);
    }
    Vec::from_slice(alloc, bytes).map_err(|error| ReadFault::Memory(OutOfMemory::from(error)))
}

impl MemoryFiles {
    /// No files yet. The lists have the numbers of the reads and of the writes that fail. It takes
    /// no memory.
    pub fn new(alloc: Global, bad_reads: Vec<u64>, bad_writes: Vec<u64>) -> MemoryFiles
        ensures empty { (name : List ℕ) → held_of result name ≡ None }
        ensures reads { reads_of result ≡ record { made = 0; failing = bad_reads.items } }
        ensures writes { writes_of result ≡ record { made = 0; failing = bad_writes.items } }
        ensures read_counts { (name : List ℕ) → read_faults_of result name ≡ 0 }
        ensures write_counts { (name : List ℕ) → write_faults_of result name ≡ 0 }
        ensures unread { names_read result ≡ [] }
        ensures unwritten { names_written result ≡ [] }
    {
        MemoryFiles {
            alloc,
            store: BTreeMap::new(alloc),
            bad_reads,
            bad_writes,
            reads: 0,
            writes: 0,
            names_read: Vec::new(alloc),
            names_written: Vec::new(alloc),
            failed_reads: Vec::new(alloc),
            failed_writes: Vec::new(alloc),
        }
    }

    /// Makes the name hold the bytes, which counts as no write. A refusal leaves all files as they
    /// were.
    pub fn place(&mut self, name: &str, bytes: &[u8]) -> Result<(), OutOfMemory>
        ensures placed { OnOk result (held_of self.new name.now ≡ Some bytes.now) }
        ensures others { OthersStay (held_of self.old) (held_of self.new) name.now }
        ensures err { OnErr result (AllStay (held_of self.old) (held_of self.new)) }
        ensures reads { reads_of self.new ≡ reads_of self.old }
        ensures writes { writes_of self.new ≡ writes_of self.old }
        ensures read_counts { SameCounts (read_faults_of self.old) (read_faults_of self.new) }
        ensures write_counts { SameCounts (write_faults_of self.old) (write_faults_of self.new) }
        ensures names_read { names_read self.new ≡ names_read self.old }
        ensures names_written { names_written self.new ≡ names_written self.old }
    {
        let key = String::from_str(self.alloc, name)?;
        let copy = Vec::from_slice(self.alloc, bytes)?;
        self.store.insert(key, copy)?;
        Ok(())
    }

    /// What the name holds, and `None` exactly where it is missing.
    pub fn held(&self, name: &str) -> Option<&[u8]>
        ensures { option_copied result ≡ held_of self.now name.now }
    {
        match self.store.get(name) {
            None => None,
            Some(bytes) => Some(bytes.as_slice()),
        }
    }
}

impl Files for MemoryFiles {
    ghost use Rattle.std.specs.Prelude.{true};

    ghost tells = { true };

    ghost state = { state_of };

    fn read(&mut self, name: &str, most: usize) -> Result<Vec<u8>, ReadFault>
        ensures answer { ReadAnswers (next_fails (reads_of self.old))
            (held_of self.old name.now) most result }
        ensures reads { reads_of self.new ≡ next (reads_of self.old) }
        ensures writes { writes_of self.new ≡ writes_of self.old }
        ensures read_faults { CountsFailure (read_failed result) (read_faults_of self.old)
            (read_faults_of self.new) name.now }
        ensures write_faults { SameCounts (write_faults_of self.old) (write_faults_of self.new) }
        ensures failed { result ≡ Err ReadFault.Failed →
            Rose (read_faults_of self.old name.now) (read_faults_of self.new name.now) }
        ensures files { AllStay (held_of self.old) (held_of self.new) }
        ensures read_counts { NoneFell (read_faults_of self.old) (read_faults_of self.new) }
        ensures tried { result ≢ Err (ReadFault.Memory refused) →
            IsAdded (names_read self.old) (names_read self.new) name.now }
        ensures once { IsAddedAtMost (names_read self.old) (names_read self.new) name.now }
        ensures names_written { names_written self.new ≡ names_written self.old }
    {
        self.reads = self.reads.saturating_add(1);
        if let Err(error) = keep(self.alloc, &mut self.names_read, name) {
            return Err(ReadFault::Memory(error));
        }
        if self.bad_reads.contains(&self.reads) {
            return refuse(self.alloc, &mut self.failed_reads, name);
        }
        match self.store.get(name) {
            None => refuse(self.alloc, &mut self.failed_reads, name),
            Some(bytes) => copy_within(self.alloc, bytes.as_slice(), most),
        }
    }

    fn write(&mut self, name: &str, bytes: &[u8]) -> Result<(), WriteFault>
        ensures answer { WriteAnswers (next_fails (writes_of self.old)) result }
        ensures stored { OnOk result (held_of self.new name.now ≡ Some bytes.now) }
        ensures refused { OnErr result (AllStay (held_of self.old) (held_of self.new)) }
        ensures reads { reads_of self.new ≡ reads_of self.old }
        ensures writes { writes_of self.new ≡ next (writes_of self.old) }
        ensures read_faults { SameCounts (read_faults_of self.old) (read_faults_of self.new) }
        ensures write_faults { CountsFailure (write_failed result) (write_faults_of self.old)
            (write_faults_of self.new) name.now }
        ensures failed { result ≡ Err WriteFault.Failed →
            Rose (write_faults_of self.old name.now) (write_faults_of self.new name.now) }
        ensures others { OthersStay (held_of self.old) (held_of self.new) name.now }
        ensures write_counts { NoneFell (write_faults_of self.old) (write_faults_of self.new) }
        ensures tried { result ≢ Err (WriteFault.Memory refused) →
            IsAdded (names_written self.old) (names_written self.new) name.now }
        ensures once { IsAddedAtMost (names_written self.old) (names_written self.new) name.now }
        ensures names_read { names_read self.new ≡ names_read self.old }
    {
        self.writes = self.writes.saturating_add(1);
        if let Err(error) = keep(self.alloc, &mut self.names_written, name) {
            return Err(WriteFault::Memory(error));
        }
        if self.bad_writes.contains(&self.writes) {
            return match keep(self.alloc, &mut self.failed_writes, name) {
                Ok(()) => Err(WriteFault::Failed),
                Err(error) => Err(WriteFault::Memory(error)),
            };
        }
        match self.place(name, bytes) {
            Ok(()) => Ok(()),
            Err(error) => Err(WriteFault::Memory(error)),
        }
    }
}
