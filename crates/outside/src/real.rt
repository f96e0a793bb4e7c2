//! The trusted edge: std's files and standard output. They tell nothing of content, but which files
//! were read and written, in which order.

ghost use Rattle.std.specs.Prelude.{◌≡◌, ◌≢◌, ◌≤◌, ◌<◌, ℕ, List, [], length, vec_len, IfOk, OnOk, OnErr};
ghost use Rattle.out_of_memory.specs.Refused.{refused};
ghost use Rattle.outside.specs.Kept.{names_in};
ghost use Rattle.outside.specs.Outside.{IsAdded, IsAddedAtMost, next_count};

use crate::memory::keep;
use crate::outside::{Files, ReadFault, Sink, SinkFailed, WriteFault};
use out_of_memory::OutOfMemory;
use std::alloc::Global;
use std::io::{ErrorKind, Read};
use std::{fs, rt};

/// So often writes that were interrupted are tried again.
const RETRIES: usize = 1_000_000;

/// The files of the system, by the runtime that main lends. One number is both counts of faults of
/// every name, and each Err raises it until it stands at the greatest u64. The names are kept; where
/// there is no memory for one, nothing is tried.
#[derive(Drop)]
pub struct RealFiles<'a, R: rt::Files> {
    rt: &'a R,
    alloc: Global,
    faults: u64,
    names_read: Vec<String>,
    names_written: Vec<String>,
}

/// Standard output, by the runtime that main lends. Each Err raises the count of faults until it
/// stands at the greatest u64.
#[derive(Drop)]
pub struct RealSink<'a, P: Print> {
    rt: &'a P,
    faults: u64,
}

/// All that the reader gives, where it is at most `most` bytes.
fn read_up_to<F: Read>(alloc: Global, file: &mut F, most: usize) -> Result<Vec<u8>, ReadFault>
    ensures { IfOk result (λ bytes. vec_len bytes ≤ most) }
{
    let mut all = Vec::new(alloc);
    let mut part = [0u8; 4096];
    for _ in 0..u64::MAX {
        let Ok(count) = file.read(&mut part) else {
            return Err(ReadFault::Failed);
        };
        if count == 0 {
            return Ok(all);
        }
        if count > most - all.len() {
            return Err(ReadFault::Long);
        }
        if let Err(error) = all.extend_from_slice(&part[..count]) {
            return Err(ReadFault::Memory(OutOfMemory::from(error)));
        }
    }
    Err(ReadFault::Failed)
}

/// All that the file of a name gives, where it is at most `most` bytes.
fn read_file<R: rt::Files>(
    alloc: Global,
    rt: &R,
    name: &str,
    most: usize,
) -> Result<Vec<u8>, ReadFault>
    ensures { IfOk result (λ bytes. vec_len bytes ≤ most) }
{
    match fs::open(rt, name) {
        Ok(mut file) => read_up_to(alloc, &mut file, most),
        Err(_) => Err(ReadFault::Failed),
    }
}

/// Writes the file of a name.
fn write_file<R: rt::Files>(rt: &R, name: &str, bytes: &[u8]) -> Result<(), WriteFault> {
    match fs::write(rt, name, bytes) {
        Ok(()) => Ok(()),
        Err(_) => Err(WriteFault::Failed),
    }
}

impl<'a, R: rt::Files> RealFiles<'a, R> {
    /// No faults yet. It takes no memory.
    pub fn new(alloc: Global, rt: &'a R) -> RealFiles<'a, R>
        ensures reads { (name : List ℕ) → (⟦<RealFiles<'a, R> as Files>⟧.state result).read_faults
            name ≡ 0 }
        ensures writes { (name : List ℕ) → (⟦<RealFiles<'a, R> as Files>⟧.state result).write_faults
            name ≡ 0 }
        ensures unread { (⟦<RealFiles<'a, R> as Files>⟧.state result).reads ≡ [] }
        ensures unwritten { (⟦<RealFiles<'a, R> as Files>⟧.state result).writes ≡ [] }
    {
        RealFiles {
            rt,
            alloc,
            faults: 0,
            names_read: Vec::new(alloc),
            names_written: Vec::new(alloc),
        }
    }

    /// Counts an Err.
    fn raise(&mut self)
        ensures raised { self.new.faults ≡ next_count self.old.faults }
        ensures count { self.old.faults ≤ self.new.faults }
        ensures read { self.new.names_read.items ≡ self.old.names_read.items }
        ensures written { self.new.names_written.items ≡ self.old.names_written.items }
    {
        self.faults = self.faults.saturating_add(1);
    }
}

impl<'a, R: rt::Files> Files for RealFiles<'a, R> {
    ghost use Rattle.std.specs.Prelude.{false, None};

    ghost tells = { false };

    ghost state = { λ s. record {
      held = λ _. None;
      read_faults = λ _. s.faults;
      write_faults = λ _. s.faults;
      reads = names_in s.names_read.items;
      writes = names_in s.names_written.items;
    } };

    fn read(&mut self, name: &str, most: usize) -> Result<Vec<u8>, ReadFault>
        ensures within { IfOk result (λ bytes. vec_len bytes ≤ most) }
        ensures raised { let state = ⟦<RealFiles<'a, R> as Files>⟧.state in
            OnErr result ((state self.new).read_faults name.now ≡
            next_count ((state self.old).read_faults name.now)) }
        ensures quiet { let state = ⟦<RealFiles<'a, R> as Files>⟧.state in
            OnOk result ((state self.new).read_faults name.now ≡
            (state self.old).read_faults name.now) }
        ensures count { let state = ⟦<RealFiles<'a, R> as Files>⟧.state in
            (state self.old).read_faults name.now ≤ (state self.new).read_faults name.now }
        ensures tried { let state = ⟦<RealFiles<'a, R> as Files>⟧.state in
            result ≢ Err (ReadFault.Memory refused) →
            IsAdded (state self.old).reads (state self.new).reads name.now }
        ensures once { let state = ⟦<RealFiles<'a, R> as Files>⟧.state in
            IsAddedAtMost (state self.old).reads (state self.new).reads name.now }
        ensures writes { let state = ⟦<RealFiles<'a, R> as Files>⟧.state in
            (state self.new).writes ≡ (state self.old).writes }
    {
        let answer = match keep(self.alloc, &mut self.names_read, name) {
            Ok(()) => read_file(self.alloc, self.rt, name, most),
            Err(error) => Err(ReadFault::Memory(error)),
        };
        if answer.is_err() {
            self.raise();
        }
        answer
    }

    fn write(&mut self, name: &str, bytes: &[u8]) -> Result<(), WriteFault>
        ensures raised { let state = ⟦<RealFiles<'a, R> as Files>⟧.state in
            OnErr result ((state self.new).write_faults name.now ≡
            next_count ((state self.old).write_faults name.now)) }
        ensures quiet { let state = ⟦<RealFiles<'a, R> as Files>⟧.state in
            OnOk result ((state self.new).write_faults name.now ≡
            (state self.old).write_faults name.now) }
        ensures count { let state = ⟦<RealFiles<'a, R> as Files>⟧.state in
            (state self.old).write_faults name.now ≤ (state self.new).write_faults name.now }
        ensures tried { let state = ⟦<RealFiles<'a, R> as Files>⟧.state in
            result ≢ Err (WriteFault.Memory refused) →
            IsAdded (state self.old).writes (state self.new).writes name.now }
        ensures once { let state = ⟦<RealFiles<'a, R> as Files>⟧.state in
            IsAddedAtMost (state self.old).writes (state self.new).writes name.now }
        ensures reads { let state = ⟦<RealFiles<'a, R> as Files>⟧.state in
            (state self.new).reads ≡ (state self.old).reads }
    {
        let answer = match keep(self.alloc, &mut self.names_written, name) {
            Ok(()) => write_file(self.rt, name, bytes),
            Err(error) => Err(WriteFault::Memory(error)),
        };
        if answer.is_err() {
            self.raise();
        }
        answer
    }
}

impl<'a, P: Print> RealSink<'a, P> {
    /// No faults yet. It takes no memory.
    pub fn new(rt: &'a P) -> RealSink<'a, P>
        ensures { (⟦<RealSink<'a, P> as Sink>⟧.state result).faults ≡ 0 }
    {
        RealSink { rt, faults: 0 }
    }
}

/// Writes the bytes, up to the first that cannot be written, and answers how many it wrote. A write
/// that was interrupted is tried again.
fn write_up_to<P: Print>(rt: &P, bytes: &[u8]) -> usize
    ensures { result ≤ length bytes.now }
{
    let mut written = 0;
    for _ in 0..bytes.len().saturating_add(RETRIES) {
        if written == bytes.len() {
            break;
        }
        match rt.write_some(&bytes[written..]) {
            Ok(0) => break,
            Ok(count) => written += count,
            Err(error) if error.kind() == ErrorKind::Interrupted => {}
            Err(_) => break,
        }
    }
    written
}

impl<'a, P: Print> Sink for RealSink<'a, P> {
    ghost use Rattle.std.specs.Prelude.{None};

    ghost state = { λ s. record { taken = None; faults = s.faults } };

    fn put(&mut self, piece: &[u8]) -> Result<(), SinkFailed> {
        let taken = write_up_to(self.rt, piece);
        if taken == piece.len() {
            return Ok(());
        }
        self.faults = self.faults.saturating_add(1);
        Err(SinkFailed { taken })
    }
}
