//! Compiling.

ghost use Rattle.std.specs.Prelude.{◌≡◌, ◌≤◌, ℕ, List};
ghost use Rattle.compile.specs.Compile.{Compiles};

use crate::{BuildFault, Built, LateProgram, build};
use front_end::{SourceFault, read};
use out_of_memory::OutOfMemory;
use std::alloc::Global;
use syntax_tree::Place;

/// Why a text gave no image.
#[derive(Drop)]
pub enum CompileFault {
    /// It is no program text, or its program is too large: the fault, by its number and its place.
    Text { number: u8, place: Place },
    /// Its program is not timely with the overhead.
    Untimely(LateProgram),
    /// There was not enough memory.
    Memory(OutOfMemory),
}

impl From<SourceFault> for CompileFault {
    ghost use Rattle.compile.specs.Told.{of_source};

    ghost from_gives = { λ fault made. made ≡ of_source fault };

    fn from(fault: SourceFault) -> CompileFault {
        match fault {
            SourceFault::Fault { number, place } => CompileFault::Text { number, place },
            SourceFault::Memory(error) => CompileFault::Memory(error),
        }
    }
}

impl From<BuildFault> for CompileFault {
    ghost use Rattle.compile.specs.Told.{of_build};

    ghost from_gives = { λ fault made. made ≡ of_build fault };

    fn from(fault: BuildFault) -> CompileFault {
        match fault {
            BuildFault::TooLarge { number, place } => CompileFault::Text { number, place },
            BuildFault::Untimely(late) => CompileFault::Untimely(late),
            BuildFault::Memory(error) => CompileFault::Memory(error),
        }
    }
}

/// The image of the program of a text, which has these bytes.
fn compiled(alloc: Global, text: &[u8], over: u16) -> Result<Built, CompileFault>
    ghost bytes: { List ℕ }
    requires bytes { text.now ≡ bytes }
    requires over { over ≤ 1000 }
    ensures { Compiles over bytes result }
{
    let program = read(alloc, text)?;
    let built = build(alloc, &program, over)?;
    Ok(built)
}

/// The image of the program of a text with an overhead of at most 1,000 ticks.
///
/// # Errors
///
/// `Text` exactly where the text is no program text, or its program is too large, with its first
/// fault; `Untimely` exactly where its program is not timely with the overhead. `Memory` where
/// there is not enough memory.
pub fn compile(alloc: Global, text: &[u8], over: u16) -> Result<Built, CompileFault>
    requires { over ≤ 1000 }
    ensures { Compiles over text.now result }
{
    compiled(alloc, text, over)
}
