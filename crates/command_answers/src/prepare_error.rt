//! Why nothing was prepared.

use out_of_memory::OutOfMemory;

/// Why nothing was prepared.
#[derive(Clone, Copy)]
pub enum PrepareError<'a> {
    /// The read of the file of this name failed.
    Unread(&'a str),
    /// There was not enough memory.
    Memory(OutOfMemory),
}

impl<'a> From<OutOfMemory> for PrepareError<'a> {
    ghost use Rattle.std.specs.Prelude.{◌≡◌};
    ghost use Rattle.out_of_memory.specs.Refused.{refused};
    ghost use Rattle.command_answers.specs.declared.prepare_error.PrepareError.TheVariants as unready;

    ghost from_gives = { λ _ made. made ≡ unready.Memory refused };

    fn from(error: OutOfMemory) -> PrepareError<'a> {
        PrepareError::Memory(error)
    }
}
