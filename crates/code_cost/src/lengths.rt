//! The number of instructions of a program.

ghost use Rattle.std.specs.Prelude.{◌≡◌, ◌+◌};
ghost use Rattle.code_cost.specs.Sums.{held};
ghost use Rattle.code_cost.specs.Told.{length_told};

use crate::{MOST, Measures};

fn counted(total: u64, length: u64) -> u64
    ensures { result ≡ held (total + length) }
{
    total.saturating_add(length).min(MOST)
}

/// The number of instructions of a program, counted up to `MOST`.
pub fn code_length(measures: &Measures) -> u64
    ensures { result ≡ held (length_told measures.now) }
{
    let mut total = 0;
    for row in measures.routines.as_slice() {
        total = counted(total, row.length);
    }
    for size in measures.processes.as_slice() {
        total = counted(total, size.length);
    }
    total
}
