//! Why a text is no script.

use crate::refusal;
use out_of_memory::OutOfMemory;
use std::fmt::{self, Display, Formatter, Write};
use thiserror::Error;

/// What is wrong with a line by what stands before it.
#[derive(Clone, Copy)]
pub enum Flaw {
    /// There is no in device, or no event, of the name.
    Unknown,
    /// The tick is below that of the line before; an end is not above it.
    Early,
    /// The event occurs less than a frame after its last occurrence.
    Soon { last: u64, tick: u64 },
}

/// Why a text was refused. Lines count from 1.
#[derive(Debug, Drop, Error)]
pub enum ScriptFault {
    /// The text is no script for the names. It prints as its number and its line, and S4 also as
    /// the two ticks `a` and `b`, which are 0 elsewhere:
    ///
    /// 1. the line is in no form,
    /// 2. there is no in device or event of the name,
    /// 3. the tick is below that of the line before, or the end is not above the last tick,
    /// 4. the event occurs at `b`, less than its process's frame after its last occurrence at `a`,
    /// 5. a line follows the one that says the end, or there is none that says it,
    /// 6. the text has more than 16,777,216 bytes (line 0) or more than 1,000,000 lines.
    #[error("S{number} {line}{}", Ticks {number: *number, a: *a, b: *b})]
    Bad {
        number: u8,
        line: u32,
        a: u64,
        b: u64,
    },
    /// There was not enough memory.
    #[error("out of memory")]
    Memory(OutOfMemory),
}

/// The ticks of a fault that has some.
#[derive(Clone, Copy)]
struct Ticks {
    number: u8,
    a: u64,
    b: u64,
}

impl Display for Ticks {
    fn fmt<W: Write>(&self, f: &mut Formatter<W>) -> Result<(), fmt::Error> {
        if self.number == refusal::SOON {
            write!(f, " {} {}", self.a, self.b)
        } else {
            Ok(())
        }
    }
}

impl From<OutOfMemory> for ScriptFault {
    ghost use Rattle.std.specs.Prelude.{◌≡◌};
    ghost use Rattle.out_of_memory.specs.Refused.{refused};
    ghost use Rattle.script.specs.declared.fault.ScriptFault.TheVariants.{Memory};

    ghost from_gives = { λ _ fault. fault ≡ Memory refused };

    fn from(error: OutOfMemory) -> ScriptFault {
        ScriptFault::Memory(error)
    }
}
