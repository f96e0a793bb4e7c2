//! A buffer over a sink.

ghost use Rattle.std.specs.Prelude.{◌≡◌, ◌≢◌, ◌≤◌, List, ℕ, [], length, vec_len, take, drop, OnOk, OnErr, IfErr};
ghost use Rattle.outside.specs.Outside.{Rose, Appends, HasTakenSome};

use crate::outside::{Sink, SinkFailed};
use std::alloc::Global;

/// The most bytes that wait.
const ROOM: usize = 65_536;

/// A sink whose pieces wait until there are 65,536 bytes of them, and go then to the sink below.
///
/// What it has taken is what the sink below has taken, and then what waits. Where a write below
/// fails, what was not taken there waits on. Its faults are those of the sink below. What waits at
/// the end is written by `finish`, and lost without it.
#[derive(Drop)]
pub struct Buffered<S> {
    sink: S,
    waiting: Vec<u8>,
}

impl<S: Sink> Buffered<S> {
    /// Nothing waits yet. It takes memory only with the first put; where there is none, pieces do
    /// not wait.
    pub fn new(alloc: Global, sink: S) -> Buffered<S>
        ensures taken { (⟦<Buffered<S> as Sink>⟧.state result).taken ≡ (S.state sink).taken }
        ensures faults { (⟦<Buffered<S> as Sink>⟧.state result).faults ≡ (S.state sink).faults }
    {
        Buffered {
            sink,
            waiting: Vec::new(alloc),
        }
    }

    /// Writes what waits to the sink below. What that does not take waits on.
    fn flush(&mut self) -> Result<(), SinkFailed>
        ensures same { let state = ⟦<Buffered<S> as Sink>⟧.state in
            (state self.new).taken ≡ (state self.old).taken }
        ensures whole { OnOk result ((S.state self.new.sink).taken ≡
            (⟦<Buffered<S> as Sink>⟧.state self.new).taken) }
        ensures none { OnOk result (self.new.waiting.items ≡ []) }
        ensures some { OnErr result (self.old.waiting.items ≢ []) }
        ensures failed { let state = ⟦<Buffered<S> as Sink>⟧.state in
            OnErr result (Rose (state self.old).faults (state self.new).faults) }
        ensures quiet { let state = ⟦<Buffered<S> as Sink>⟧.state in
            OnOk result ((state self.new).faults ≡ (state self.old).faults) }
        ensures count { let state = ⟦<Buffered<S> as Sink>⟧.state in
            (state self.old).faults ≤ (state self.new).faults }
    {
        if self.waiting.is_empty() {
            return Ok(());
        }
        let written = self.sink.put(self.waiting.as_slice());
        match written {
            Ok(()) => self.waiting.clear(),
            Err(failed) => drop_front(&mut self.waiting, failed.taken),
        }
        written
    }

    /// Writes what waits, and puts a piece that did not fit behind it: it waits, or is written at
    /// once where it is longer than what may wait, or there is no memory for it.
    #[inline(never)]
    fn put_past(&mut self, piece: &[u8]) -> Result<(), SinkFailed>
        ensures whole { let state = ⟦<Buffered<S> as Sink>⟧.state in
            OnOk result (Appends (state self.old).taken (state self.new).taken piece.now) }
        ensures most { IfErr result (λ failed. failed.taken ≤ length piece.now) }
        ensures part { let state = ⟦<Buffered<S> as Sink>⟧.state in
            IfErr result (λ failed. Appends (state self.old).taken (state self.new).taken
            (take failed.taken piece.now)) }
        ensures failed { let state = ⟦<Buffered<S> as Sink>⟧.state in
            OnErr result (Rose (state self.old).faults (state self.new).faults) }
        ensures quiet { let state = ⟦<Buffered<S> as Sink>⟧.state in
            OnOk result ((state self.new).faults ≡ (state self.old).faults) }
        ensures count { let state = ⟦<Buffered<S> as Sink>⟧.state in
            (state self.old).faults ≤ (state self.new).faults }
    {
        if self.flush().is_err() {
            return Err(SinkFailed { taken: 0 });
        }
        self.put_first(piece)
    }

    /// Puts a piece where nothing waits.
    fn put_first(&mut self, piece: &[u8]) -> Result<(), SinkFailed>
        requires none { self.old.waiting.items ≡ [] }
        ensures whole { let state = ⟦<Buffered<S> as Sink>⟧.state in
            OnOk result (Appends (state self.old).taken (state self.new).taken piece.now) }
        ensures most { IfErr result (λ failed. failed.taken ≤ length piece.now) }
        ensures part { let state = ⟦<Buffered<S> as Sink>⟧.state in
            IfErr result (λ failed. Appends (state self.old).taken (state self.new).taken
            (take failed.taken piece.now)) }
        ensures failed { let state = ⟦<Buffered<S> as Sink>⟧.state in
            OnErr result (Rose (state self.old).faults (state self.new).faults) }
        ensures quiet { let state = ⟦<Buffered<S> as Sink>⟧.state in
            OnOk result ((state self.new).faults ≡ (state self.old).faults) }
        ensures count { let state = ⟦<Buffered<S> as Sink>⟧.state in
            (state self.old).faults ≤ (state self.new).faults }
    {
        if piece.len() <= ROOM && self.waiting.extend_from_slice(piece).is_ok() {
            return Ok(());
        }
        self.sink.put(piece)
    }

    /// Writes what waits, and gives the sink below back. Ok only where that has taken all; else it
    /// has taken a front of it, and counted a fault; and there was something to take, where it tells.
    #[tactic(auto, using(crate::proofs::Buffering::some_waited))]
    pub fn finish(self) -> (Result<(), SinkFailed>, S)
        ensures whole { let state = ⟦<Buffered<S> as Sink>⟧.state in
            OnOk result.0 ((S.state result.1).taken ≡ (state self).taken) }
        ensures front { let state = ⟦<Buffered<S> as Sink>⟧.state in
            OnErr result.0 ((rest : List ℕ) × Appends (S.state result.1).taken
            (state self).taken rest) }
        ensures some { OnErr result.0
            (HasTakenSome (⟦<Buffered<S> as Sink>⟧.state self).taken) }
        ensures failed { let state = ⟦<Buffered<S> as Sink>⟧.state in
            OnErr result.0 (Rose (state self).faults (S.state result.1).faults) }
        ensures quiet { let state = ⟦<Buffered<S> as Sink>⟧.state in
            OnOk result.0 ((S.state result.1).faults ≡ (state self).faults) }
    {
        let mut this = self;
        let flushed = this.flush();
        (flushed, this.sink)
    }

    /// Gives the sink below back, and writes nothing: what waits is lost.
    pub fn into_sink(self) -> S
        ensures taken { let state = ⟦<Buffered<S> as Sink>⟧.state in
            (rest : List ℕ) × Appends (S.state result).taken (state self).taken rest }
        ensures faults { (S.state result).faults ≡ (⟦<Buffered<S> as Sink>⟧.state self).faults }
    {
        self.sink
    }
}

/// Drops so many first bytes.
fn drop_front(bytes: &mut Vec<u8>, count: usize)
    requires { count ≤ vec_len bytes.old }
    ensures { bytes.new.items ≡ drop count bytes.old.items }
{
    let len = bytes.len();
    bytes.copy_within(count..len, 0);
    bytes.truncate(len - count);
}

impl<S: Sink> Sink for Buffered<S> {
    ghost use Rattle.outside.specs.Outside.{with_more};

    ghost state = { λ s. record {
      taken = with_more (S.state s.sink).taken s.waiting.items;
      faults = (S.state s.sink).faults;
    } };

    #[tactic(auto, using(crate::proofs::Buffering::front_taken))]
    fn put(&mut self, piece: &[u8]) -> Result<(), SinkFailed> {
        if piece.len() <= ROOM - self.waiting.len().min(ROOM)
            && self.waiting.extend_from_slice(piece).is_ok()
        {
            return Ok(());
        }
        self.put_past(piece)
    }
}
