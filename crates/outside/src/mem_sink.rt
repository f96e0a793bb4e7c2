//! A sink in memory, with puts that fail as told.

ghost use Rattle.std.specs.Prelude.{◌≡◌, ◌≤◌, ◌<◌, ◌+◌, ◌++◌, [], length, vec_len, vec_capacity, IfOk, IfErr, IsOk, IsErr, OnOk, OnErr};
ghost use Rattle.std.specs.Bool.{OnTrue, OnFalse};
ghost use Rattle.outside.specs.Calls.{next, next_fails};
ghost use Rattle.outside.specs.Outside.{next_count};

use crate::outside::{Sink, SinkFailed};
use out_of_memory::OutOfMemory;
use std::alloc::Global;

/// Takes bytes up to its room. Puts are counted from 1, and one whose number stands in the list
/// fails.
#[derive(Drop)]
pub struct MemorySink {
    bytes: Vec<u8>,
    room: usize,
    bad_puts: Vec<u64>,
    puts: u64,
    faults: u64,
    ghost reserved: { room ≤ vec_capacity bytes },
    ghost within: { vec_len bytes ≤ room },
}

impl MemorySink {
    ghost use Rattle.outside.specs.Memory.{bytes_of, faults_of, puts_of, room_of};

    /// Nothing taken yet. It reserves its room once, and the list has the numbers of the puts that
    /// fail.
    pub fn new(alloc: Global, room: usize, bad_puts: Vec<u64>) -> Result<MemorySink, OutOfMemory>
        ensures bytes { IfOk result (λ sink. bytes_of sink ≡ []) }
        ensures room { IfOk result (λ sink. room_of sink ≡ room) }
        ensures puts { IfOk result (λ sink. puts_of sink ≡
            record { made = 0; failing = bad_puts.items }) }
        ensures faults { IfOk result (λ sink. faults_of sink ≡ 0) }
    {
        let bytes = Vec::with_capacity(alloc, room)?;
        Ok(MemorySink {
            bytes,
            room,
            bad_puts,
            puts: 0,
            faults: 0,
        })
    }

    /// The number of puts so far, held at the greatest u64.
    pub fn puts(&self) -> u64
        ensures { result ≡ (puts_of self.now).made }
    {
        self.puts
    }

    /// The bytes taken so far. It takes no memory.
    pub fn bytes(&self) -> &[u8]
        ensures { result.now ≡ bytes_of self.now }
    {
        self.bytes.as_slice()
    }
}

impl Sink for MemorySink {
    ghost use Rattle.outside.specs.Memory.{bytes_of, faults_of, puts_of, room_of};
    ghost use Rattle.std.specs.Prelude.{Some};

    ghost state = { λ s. record { taken = Some (bytes_of s); faults = faults_of s } };

    fn put(&mut self, piece: &[u8]) -> Result<(), SinkFailed>
        ensures listed { OnTrue (next_fails (puts_of self.old)) (IsErr result) }
        ensures full { room_of self.old < length (bytes_of self.old) + length piece.now →
            IsErr result }
        ensures fits { OnFalse (next_fails (puts_of self.old)) (
            length (bytes_of self.old) + length piece.now ≤ room_of self.old → IsOk result) }
        ensures taken { OnOk result (bytes_of self.new ≡ bytes_of self.old ++ piece.now) }
        ensures nothing { OnErr result (bytes_of self.new ≡ bytes_of self.old) }
        ensures untaken { IfErr result (λ failed. failed.taken ≡ 0) }
        ensures room { room_of self.new ≡ room_of self.old }
        ensures puts { puts_of self.new ≡ next (puts_of self.old) }
        ensures failed { OnErr result (faults_of self.new ≡ next_count (faults_of self.old)) }
        ensures count { faults_of self.old ≤ faults_of self.new }
        ensures done { OnOk result (faults_of self.new ≡ faults_of self.old) }
    {
        self.puts = self.puts.saturating_add(1);
        let listed = self.bad_puts.contains(&self.puts);
        let fits = piece.len() <= self.room - self.bytes.len();
        if !listed && fits && self.bytes.extend_from_slice(piece).is_ok() {
            return Ok(());
        }
        self.faults = self.faults.saturating_add(1);
        Err(SinkFailed { taken: 0 })
    }
}
