//! Why a text is no task table.

use out_of_memory::OutOfMemory;
use thiserror::Error;

/// Why a text was refused. Lines count from 1.
#[derive(Debug, Drop, Error)]
pub enum TableFault {
    /// The text is no table. It prints as its number and its line, the first line with a fault and
    /// on it the least number:
    ///
    /// 1. the line has no form that may stand there,
    /// 2. a word in the place of a name is no name,
    /// 3. a name is taken,
    /// 4. a number is out of its range,
    /// 5. a stay or a cost cannot be met,
    /// 6. there is no process, or one process, monitor or stay too many,
    /// 7. the text has more than 1,048,576 bytes (line 0).
    #[error("T{number} {line}")]
    Bad { number: u8, line: u32 },
    /// There was not enough memory.
    #[error("out of memory")]
    Memory(OutOfMemory),
}

impl From<OutOfMemory> for TableFault {
    ghost use Rattle.std.specs.Prelude.{◌≡◌};
    ghost use Rattle.out_of_memory.specs.Refused.{refused};
    ghost use Rattle.table_reader.specs.declared.fault.TableFault.TheVariants.{Memory};

    ghost from_gives = { λ _ fault. fault ≡ Memory refused };

    fn from(error: OutOfMemory) -> TableFault {
        TableFault::Memory(error)
    }
}
