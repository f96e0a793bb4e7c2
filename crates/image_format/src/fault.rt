//! Why bytes are none of a thing.

ghost use Rattle.std.specs.Prelude.{◌≡◌};
ghost use Rattle.out_of_memory.specs.Refused.{refused};
ghost use Rattle.image_format.specs.declared.fault.ReadError.TheVariants.{Fault as Wrong, Memory};

use out_of_memory::OutOfMemory;
use std::alloc::AllocFailed;

/// What is wrong with bytes, and how many are left from its place on.
#[derive(Clone, Copy, Debug)]
pub struct ByteFault {
    pub number: u8,
    pub left: usize,
}

/// Why a part was not read.
#[derive(Drop)]
pub enum ReadError {
    Memory(OutOfMemory),
    Fault(ByteFault),
}

impl From<OutOfMemory> for ReadError {
    ghost from_gives = { λ _ e. e ≡ Memory refused };

    fn from(error: OutOfMemory) -> ReadError {
        ReadError::Memory(error)
    }
}

impl<T: Drop> From<AllocFailed<T>> for ReadError {
    ghost from_gives = { λ _ e. e ≡ Memory refused };

    fn from(error: AllocFailed<T>) -> ReadError {
        ReadError::Memory(OutOfMemory::from(error))
    }
}

impl From<ByteFault> for ReadError {
    ghost from_gives = { λ fault e. e ≡ Wrong fault };

    fn from(fault: ByteFault) -> ReadError {
        ReadError::Fault(fault)
    }
}
