//! Files and a sink that never fail, but for memory.

ghost use Rattle.std.specs.Prelude.{◌≡◌, ◌≢◌, ◌⊎◌, ◌≤◌, ◌+◌, ◌^◌, ◌-◌, ℕ, List, [], Some, None, min, OnOk, OnErr, IsOk, length};
ghost use Rattle.std.specs.Option.{option_copied};
ghost use Rattle.out_of_memory.specs.Refused.{refused};
ghost use Rattle.outside.specs.Calls.{ReadsAs};
ghost use Rattle.outside.specs.Kept.{names_in};
ghost use Rattle.outside.specs.Memory.{counted, placed_in, shown_in};
ghost use Rattle.outside.specs.Outside.{AllStay, IsAdded, IsAddedAtMost, OthersStay};

use crate::memory::{copy_within, keep};
use crate::outside::{Files, ReadFault, Sink, SinkFailed, WriteFault};
use out_of_memory::OutOfMemory;
use std::alloc::Global;
use std::collections::BTreeMap;

/// Named files in memory, whose calls never fail. A missing name reads as empty.
#[derive(Drop)]
pub struct SureFiles {
    alloc: Global,
    store: BTreeMap<String, Vec<u8>>,
    names_read: Vec<String>,
    names_written: Vec<String>,
}

/// Counts bytes and keeps none.
#[derive(Drop)]
pub struct SureSink {
    count: u64,
}

impl SureFiles {
    /// No files yet. It takes no memory.
    pub fn new(alloc: Global) -> SureFiles
        ensures empty { (name : List ℕ) → placed_in result name ≡ None }
        ensures shown { (name : List ℕ) → shown_in result name ≡ [] }
        ensures unread { (⟦<SureFiles as Files>⟧.state result).reads ≡ [] }
        ensures unwritten { (⟦<SureFiles as Files>⟧.state result).writes ≡ [] }
    {
        SureFiles {
            alloc,
            store: BTreeMap::new(alloc),
            names_read: Vec::new(alloc),
            names_written: Vec::new(alloc),
        }
    }

    /// Makes the name hold the bytes. A refusal leaves all files as they were.
    pub fn place(&mut self, name: &str, bytes: &[u8]) -> Result<(), OutOfMemory>
        ensures placed { OnOk result (placed_in self.new name.now ≡ Some bytes.now) }
        ensures others { OthersStay (placed_in self.old) (placed_in self.new) name.now }
        ensures err { OnErr result (AllStay (placed_in self.old) (placed_in self.new)) }
        ensures read { self.new.names_read.items ≡ self.old.names_read.items }
        ensures written { self.new.names_written.items ≡ self.old.names_written.items }
    {
        let key = String::from_str(self.alloc, name)?;
        let copy = Vec::from_slice(self.alloc, bytes)?;
        self.store.insert(key, copy)?;
        Ok(())
    }

    /// What the name holds, and `None` exactly where nothing was placed or written there.
    pub fn held(&self, name: &str) -> Option<&[u8]>
        ensures { option_copied result ≡ placed_in self.now name.now }
    {
        match self.store.get(name) {
            None => None,
            Some(bytes) => Some(bytes.as_slice()),
        }
    }
}

impl Files for SureFiles {
    ghost use Rattle.std.specs.Prelude.{true, Some};

    ghost tells = { true };

    ghost state = { λ s. record {
      held = λ name. Some (shown_in s name);
      read_faults = λ _. 0;
      write_faults = λ _. 0;
      reads = names_in s.names_read.items;
      writes = names_in s.names_written.items;
    } };

    fn read(&mut self, name: &str, most: usize) -> Result<Vec<u8>, ReadFault>
        ensures answer { ReadsAs (shown_in self.old name.now) most result }
        ensures files { AllStay (placed_in self.old) (placed_in self.new) }
        ensures tried { result ≢ Err (ReadFault.Memory refused) → IsAdded
            (names_in self.old.names_read.items) (names_in self.new.names_read.items) name.now }
        ensures once { IsAddedAtMost
            (names_in self.old.names_read.items) (names_in self.new.names_read.items) name.now }
        ensures writes { self.new.names_written.items ≡ self.old.names_written.items }
    {
        if let Err(error) = keep(self.alloc, &mut self.names_read, name) {
            return Err(ReadFault::Memory(error));
        }
        match self.store.get(name) {
            None => Ok(Vec::new(self.alloc)),
            Some(bytes) => copy_within(self.alloc, bytes.as_slice(), most),
        }
    }

    fn write(&mut self, name: &str, bytes: &[u8]) -> Result<(), WriteFault>
        ensures sure { (result ≡ Ok tt) ⊎ (result ≡ Err (WriteFault.Memory refused)) }
        ensures stored { OnOk result (placed_in self.new name.now ≡ Some bytes.now) }
        ensures others { OthersStay (placed_in self.old) (placed_in self.new) name.now }
        ensures refused { OnErr result (AllStay (placed_in self.old) (placed_in self.new)) }
        ensures tried { result ≢ Err (WriteFault.Memory refused) → IsAdded
            (names_in self.old.names_written.items) (names_in self.new.names_written.items)
            name.now }
        ensures once { IsAddedAtMost
            (names_in self.old.names_written.items) (names_in self.new.names_written.items)
            name.now }
        ensures reads { self.new.names_read.items ≡ self.old.names_read.items }
    {
        if let Err(error) = keep(self.alloc, &mut self.names_written, name) {
            return Err(WriteFault::Memory(error));
        }
        match self.place(name, bytes) {
            Ok(()) => Ok(()),
            Err(error) => Err(WriteFault::Memory(error)),
        }
    }
}

impl SureSink {
    /// No bytes yet. It takes no memory.
    pub fn new() -> SureSink
        ensures { counted result ≡ 0 }
    {
        SureSink { count: 0 }
    }

    /// The number of bytes so far, held at the greatest u64. It takes no memory.
    pub fn count(&self) -> u64
        ensures { result ≡ counted self.now }
    {
        self.count
    }
}

impl Sink for SureSink {
    ghost use Rattle.std.specs.Prelude.{None};

    ghost state = { λ _. record { taken = None; faults = 0 } };

    fn put(&mut self, piece: &[u8]) -> Result<(), SinkFailed>
        ensures sure { IsOk result }
        ensures count { counted self.new ≡ min (counted self.old + length piece.now) (2 ^ 64 - 1) }
    {
        self.count = self.count.saturating_add(piece.len() as u64);
        Ok(())
    }
}
