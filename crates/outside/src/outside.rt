//! What files and sinks are to the code above.

ghost use Rattle.std.specs.Prelude.{◌≡◌, ◌≢◌, ◌≤◌, ◌<◌, ◌⊎◌, ℕ, Bool, List, Option, Some, length, take, vec_len, IfOk, IfErr, IsSomeAnd, OnOk, OnErr};
ghost use Rattle.std.specs.Bool.{OnTrue};
ghost use Rattle.out_of_memory.specs.Refused.{refused};
ghost use Rattle.outside.specs.Outside.{FilesState, SinkState, Rose, NoneFell, AllStay, OthersStay, Appends, AppendsFront, IsAdded, IsAddedAtMost};

use out_of_memory::OutOfMemory;
use thiserror::Error;

/// Why a file was not read.
#[derive(Clone, Copy, Debug, PartialEq, Eq, Error)]
pub enum ReadFault {
    /// The outside failed, and counted it.
    #[error("the file could not be read")]
    Failed,
    /// It holds more bytes than were asked for.
    #[error("the file is too long")]
    Long,
    #[error("out of memory")]
    Memory(OutOfMemory),
}

/// Why a file was not written.
#[derive(Clone, Copy, Debug, PartialEq, Eq, Error)]
pub enum WriteFault {
    /// The outside failed, and counted it.
    #[error("the file could not be written")]
    Failed,
    #[error("out of memory")]
    Memory(OutOfMemory),
}

/// A piece was not taken whole.
#[derive(Clone, Copy, Debug, Error)]
#[error("the output could not be written")]
pub struct SinkFailed {
    /// How many first bytes of the piece were taken.
    pub taken: usize,
}

/// Named files.
///
/// Of their state, where `tells` is true, `held` is what each name holds, `None` for a missing one.
/// `read_faults` and `write_faults` count the failures of each name, and never fall. A count that
/// rose is greater than before the call, or stands at the greatest u64. `reads` are the names that
/// were read, and `writes` those that were written, oldest first, also where the call failed.
pub trait Files {
    ghost tells: { Bool };

    ghost state: { Self → FilesState };

    /// All the bytes that the name holds, which are at most `most`. `Failed` comes only where the
    /// name's count of faults rose, and `Long` exactly where the name holds more than `most` bytes
    /// and the read did not fail. No file changes. The name stands behind those that were read; after
    /// `Memory` it may be that nothing was tried.
    fn read(&mut self, name: &str, most: usize) -> Result<Vec<u8>, ReadFault>
        ensures within { IfOk result (λ bytes. vec_len bytes ≤ most) }
        ensures whole { IfOk result (λ bytes.
            OnTrue tells ((state self.old).held name.now ≡ Some bytes.items)) }
        ensures long { result ≡ Err ReadFault.Long →
            OnTrue tells (IsSomeAnd ((state self.old).held name.now)
            (λ bytes. most < length bytes)) }
        ensures longer { OnTrue tells (
            IsSomeAnd ((state self.old).held name.now) (λ bytes. most < length bytes) →
            (result ≡ Err ReadFault.Long) ⊎
            (result ≡ Err ReadFault.Failed) ⊎ (result ≡ Err (ReadFault.Memory refused))) }
        ensures failed { result ≡ Err ReadFault.Failed →
            Rose ((state self.old).read_faults name.now) ((state self.new).read_faults name.now) }
        ensures files { AllStay (state self.old).held (state self.new).held }
        ensures read_counts { NoneFell (state self.old).read_faults (state self.new).read_faults }
        ensures write_counts { NoneFell (state self.old).write_faults
            (state self.new).write_faults }
        ensures tried { result ≢ Err (ReadFault.Memory refused) →
            IsAdded (state self.old).reads (state self.new).reads name.now }
        ensures once { IsAddedAtMost (state self.old).reads (state self.new).reads name.now }
        ensures writes { (state self.new).writes ≡ (state self.old).writes };

    /// Makes the name hold the bytes, and leaves the other names as they were. After `Memory` the
    /// name holds what it held, after `Failed` anything. `Failed` comes only where the name's count
    /// of faults rose. The name stands behind those that were written; after `Memory` it may be that
    /// nothing was tried.
    fn write(&mut self, name: &str, bytes: &[u8]) -> Result<(), WriteFault>
        ensures stored { OnOk result (OnTrue tells
            ((state self.new).held name.now ≡ Some bytes.now)) }
        ensures failed { result ≡ Err WriteFault.Failed →
            Rose ((state self.old).write_faults name.now) ((state self.new).write_faults name.now) }
        ensures others { OthersStay (state self.old).held (state self.new).held name.now }
        ensures kept { result ≡ Err (WriteFault.Memory refused) →
            AllStay (state self.old).held (state self.new).held }
        ensures read_counts { NoneFell (state self.old).read_faults (state self.new).read_faults }
        ensures write_counts { NoneFell (state self.old).write_faults
            (state self.new).write_faults }
        ensures tried { result ≢ Err (WriteFault.Memory refused) →
            IsAdded (state self.old).writes (state self.new).writes name.now }
        ensures once { IsAddedAtMost (state self.old).writes (state self.new).writes name.now }
        ensures reads { (state self.new).reads ≡ (state self.old).reads };
}

/// A taker of bytes.
///
/// Of its state, `taken` is what it has taken so far, where it tells. `faults` counts its failures
/// and never falls.
pub trait Sink {
    ghost state: { Self → SinkState };

    /// Takes the piece whole; or takes some first bytes of it, counts a failure and answers Err.
    /// It takes no memory.
    fn put(&mut self, piece: &[u8]) -> Result<(), SinkFailed>
        ensures whole { OnOk result (Appends (state self.old).taken
            (state self.new).taken piece.now) }
        ensures front { OnErr result (AppendsFront (state self.old).taken
            (state self.new).taken piece.now) }
        ensures most { IfErr result (λ failed. failed.taken ≤ length piece.now) }
        ensures part { IfErr result (λ failed. Appends (state self.old).taken
            (state self.new).taken (take failed.taken piece.now)) }
        ensures failed { OnErr result (Rose (state self.old).faults (state self.new).faults) }
        ensures count { (state self.old).faults ≤ (state self.new).faults }
        ensures quiet { OnOk result ((state self.new).faults ≡ (state self.old).faults) };
}
