//! Reading a program that is not too large.

ghost use Rattle.compile.specs.Written.{ReadsWritten};

use crate::{BuildFault, refuse_too_large};
use front_end::{SourceFault, read};
use out_of_memory::OutOfMemory;
use static_semantics::Checked;
use std::alloc::Global;
use syntax_tree::Place;

/// Why a text is not that of a program that keeps to all rules and is not too large.
#[derive(Clone, Copy)]
pub enum ProgramTextFault {
    /// Its fault, by its number and its place.
    Text { number: u8, place: Place },
    /// There was not enough memory.
    Memory(OutOfMemory),
}

/// The program of a text, which keeps to all rules and is not too large.
///
/// # Errors
///
/// `Text` exactly where the text is no program text, or its program is too large, with its first
/// fault. `Memory` where there is not enough memory.
pub fn read_written(alloc: Global, text: &[u8]) -> Result<Checked, ProgramTextFault>
    ensures { ReadsWritten text.now result }
{
    match read(alloc, text) {
        Ok(program) => match refuse_too_large(alloc, program.prog()) {
            Ok(()) => Ok(program),
            Err(BuildFault::TooLarge { number, place }) => Err(ProgramTextFault::Text {
                number,
                place,
            }),
            Err(BuildFault::Untimely(_)) => unreachable!(),
            Err(BuildFault::Memory(error)) => Err(ProgramTextFault::Memory(error)),
        },
        Err(SourceFault::Fault { number, place }) => Err(ProgramTextFault::Text { number, place }),
        Err(SourceFault::Memory(error)) => Err(ProgramTextFault::Memory(error)),
    }
}
