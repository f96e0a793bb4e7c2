//! What is built.

use image::{ImageNames, RawImage};
use out_of_memory::OutOfMemory;
use sched_table::Table;
use syntax_tree::{Name, Place};

/// A program that is timely: its image, whose bounds are the least, and the table that is shown of
/// it.
#[derive(Drop)]
pub struct Built {
    pub image: RawImage,
    pub table: Table,
}

/// A program that is late: the names of its parts, its own, and the table that is shown of it.
#[derive(Drop)]
pub struct LateProgram {
    pub names: ImageNames,
    pub program: Name,
    pub table: Table,
}

/// Why no image was built.
#[derive(Drop)]
pub enum BuildFault {
    /// A rule of size fails: 46 for the number of instructions, 47 for a stack, at its place.
    TooLarge { number: u8, place: Place },
    /// The recurrence of some process has no solution within its deadline.
    Untimely(LateProgram),
    /// There was not enough memory.
    Memory(OutOfMemory),
}

impl From<OutOfMemory> for BuildFault {
    ghost use Rattle.std.specs.Prelude.{◌≡◌};
    ghost use Rattle.out_of_memory.specs.Refused.{refused};
    ghost use Rattle.compile.specs.declared.built.BuildFault.TheVariants.{Memory};

    ghost from_gives = { λ _ fault. fault ≡ Memory refused };

    fn from(error: OutOfMemory) -> BuildFault {
        BuildFault::Memory(error)
    }
}
