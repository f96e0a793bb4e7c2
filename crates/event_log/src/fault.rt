//! Why a text is no log.

use out_of_memory::OutOfMemory;
use thiserror::Error;

/// Why a text was refused. Lines count from 1.
#[derive(Debug, Drop, Error)]
pub enum LogFault {
    /// The line is the first that is the text of no event for the names.
    #[error("L1 {0}")]
    Line(u32),
    /// The text has more than 67,108,864 bytes.
    #[error("L2 0")]
    Long,
    /// There was not enough memory.
    #[error("out of memory")]
    Memory(OutOfMemory),
}

impl From<OutOfMemory> for LogFault {
    ghost use Rattle.std.specs.Prelude.{◌≡◌};
    ghost use Rattle.out_of_memory.specs.Refused.{refused};
    ghost use Rattle.event_log.specs.declared.fault.LogFault.TheVariants.{Memory};

    ghost from_gives = { λ _ fault. fault ≡ Memory refused };

    fn from(error: OutOfMemory) -> LogFault {
        LogFault::Memory(error)
    }
}
