//! Why a text was refused.

ghost use Rattle.std.specs.Prelude.{◌≡◌};
ghost use Rattle.out_of_memory.specs.Refused.{refused};
ghost use Rattle.text_fields.specs.declared.fault.FieldError.TheVariants.{Memory};

use out_of_memory::OutOfMemory;
use std::alloc::AllocFailed;

/// What is wrong with a line, and how many bytes of the text are left from its beginning on.
#[derive(Clone, Copy)]
pub struct FieldFault {
    pub number: u8,
    pub left: usize,
}

/// Why a part was not read.
#[derive(Drop)]
pub enum FieldError {
    Memory(OutOfMemory),
    Fault(FieldFault),
}

impl From<OutOfMemory> for FieldError {
    ghost from_gives = { λ _ e. e ≡ Memory refused };

    fn from(error: OutOfMemory) -> FieldError {
        FieldError::Memory(error)
    }
}

impl<T: Drop> From<AllocFailed<T>> for FieldError {
    ghost from_gives = { λ _ e. e ≡ Memory refused };

    fn from(error: AllocFailed<T>) -> FieldError {
        FieldError::Memory(OutOfMemory::from(error))
    }
}
